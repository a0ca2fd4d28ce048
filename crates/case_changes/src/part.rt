//! The parts of a word: values, attributes and modifications.

use case_lines::{CaseFault, or_memory, read_bytes, split_bare};
use repl_data::{
    Attr, AttrKey, AttrList, Ava, AvaList, Bytes, Items, Mod, ModKind, ModList, Val, ValList,
};
use std::alloc::Global;
use std::str;

/// What stands between the bytes `between`, outside quotes. None for `-`.
pub fn pieces<'a>(alloc: Global, word: &'a [u8], between: u8) -> Result<Vec<&'a [u8]>, CaseFault> {
    let mut list = Vec::new(alloc);
    if word == b"-".as_slice() {
        return Ok(list);
    }
    let mut rest = word;
    for _ in 0..word.len() {
        let Some((piece, behind)) = split_bare(rest, between) else {
            break;
        };
        list.push(piece)?;
        rest = behind;
    }
    list.push(rest)?;
    Ok(list)
}

/// A piece that begins with a quote is written as bytes are, and another one stands for itself.
fn text(alloc: Global, piece: &[u8]) -> Result<Bytes, CaseFault> {
    match piece.first() {
        Some(b'"' | b'\'') => Ok(Bytes::from_vec(read_bytes(alloc, piece)?)),
        _ => or_memory(Bytes::from_slice(alloc, piece)),
    }
}

fn attr_key(alloc: Global, piece: &[u8]) -> Result<AttrKey, CaseFault> {
    let name = text(alloc, piece)?;
    Ok(AttrKey { name })
}

fn val(alloc: Global, piece: &[u8]) -> Result<Val, CaseFault> {
    let (key, spelled) = split_bare(piece, b'/').unwrap_or((piece, piece));
    let key = text(alloc, key)?;
    let spelled = text(alloc, spelled)?;
    Ok(Val { key, spelled })
}

fn vals(alloc: Global, word: &[u8]) -> Result<ValList, CaseFault> {
    let mut list = Items::new(alloc);
    for piece in pieces(alloc, word, b',')? {
        or_memory(list.push(val(alloc, piece)?))?;
    }
    Ok(list)
}

fn ava(alloc: Global, piece: &[u8]) -> Result<Ava, CaseFault> {
    let (name, value) = split_bare(piece, b':').ok_or(CaseFault::Argument)?;
    let attr = attr_key(alloc, name)?;
    let val = val(alloc, value)?;
    Ok(Ava { attr, val })
}

/// The parts of a relative name, with `+` between them.
pub(crate) fn avas(alloc: Global, word: &[u8]) -> Result<AvaList, CaseFault> {
    let mut list = Items::new(alloc);
    for piece in pieces(alloc, word, b'+')? {
        or_memory(list.push(ava(alloc, piece)?))?;
    }
    Ok(list)
}

fn attr(alloc: Global, piece: &[u8]) -> Result<Attr, CaseFault> {
    let (name, values) = split_bare(piece, b':').ok_or(CaseFault::Argument)?;
    let attr = attr_key(alloc, name)?;
    let vals = vals(alloc, values)?;
    Ok(Attr { attr, vals })
}

pub(crate) fn attrs(alloc: Global, word: &[u8]) -> Result<AttrList, CaseFault> {
    let mut list = Items::new(alloc);
    for piece in pieces(alloc, word, b';')? {
        or_memory(list.push(attr(alloc, piece)?))?;
    }
    Ok(list)
}

fn kind(word: &[u8]) -> Result<ModKind, CaseFault> {
    match str::from_utf8(word) {
        Ok("add") => Ok(ModKind::Add),
        Ok("delete") => Ok(ModKind::Delete),
        Ok("replace") => Ok(ModKind::Replace),
        _ => Err(CaseFault::Argument),
    }
}

fn modification(alloc: Global, piece: &[u8]) -> Result<Mod, CaseFault> {
    let (word, rest) = split_bare(piece, b':').ok_or(CaseFault::Argument)?;
    let kind = kind(word)?;
    let (name, values) = split_bare(rest, b':').unwrap_or((rest, b"-"));
    let attr = attr_key(alloc, name)?;
    let vals = vals(alloc, values)?;
    Ok(Mod { kind, attr, vals })
}

/// The count before a `*`, and what it counts.
fn counted(piece: &[u8]) -> (u32, &[u8]) {
    let Some((count, rest)) = split_bare(piece, b'*') else {
        return (1, piece);
    };
    match str::from_utf8(count)
        .ok()
        .and_then(|text| text.parse::<u32>().ok())
    {
        Some(count) => (count, rest),
        None => (1, piece),
    }
}

pub(crate) fn mods(alloc: Global, word: &[u8]) -> Result<ModList, CaseFault> {
    let mut list = Items::new(alloc);
    for piece in pieces(alloc, word, b';')? {
        let (count, one) = counted(piece);
        push_mods(alloc, &mut list, one, count)?;
    }
    Ok(list)
}

fn push_mods(alloc: Global, list: &mut ModList, piece: &[u8], count: u32) -> Result<(), CaseFault> {
    for _ in 0..count {
        or_memory(list.push(modification(alloc, piece)?))?;
    }
    Ok(())
}
