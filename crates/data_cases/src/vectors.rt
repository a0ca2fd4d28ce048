//! Update vectors, written as the CSNs that raise them, with commas between them. Behind a `|` come
//! those of another one, which is merged in.

use case_changes::{csn_list, next_csn, pieces, tell_csn};
use case_lines::{CaseFault, Fields, or_memory, tell_text};
use repl_data::{Bytes, Items};
use std::alloc::Global;
use std::fmt::Write;
use std::str;
use vector_core::Vector;

pub fn answer(alloc: Global, fields: &mut Fields<'_>, told: &mut String) -> Result<(), CaseFault> {
    match fields.word()? {
        "entries" => entries(alloc, fields, told),
        "get" => get(alloc, fields, told),
        "covers" => covers(alloc, fields, told),
        "text" => text(alloc, fields, told),
        "read" => read(alloc, fields, told),
        _ => Err(CaseFault::Subject),
    }
}

fn raised(alloc: Global, word: &[u8]) -> Result<Vector, CaseFault> {
    let text = str::from_utf8(word).ok().ok_or(CaseFault::Argument)?;
    let mut vector = or_memory(Vector::new(alloc))?;
    for csn in csn_list(alloc, text)? {
        or_memory(vector.raise(alloc, csn))?;
    }
    Ok(vector)
}

/// The vector that the next word writes.
pub fn next_vector(alloc: Global, fields: &mut Fields<'_>) -> Result<Vector, CaseFault> {
    let word = fields.word()?;
    let mut vector = or_memory(Vector::new(alloc))?;
    for piece in pieces(alloc, word.as_bytes(), b'|')? {
        let other = raised(alloc, piece)?;
        or_memory(vector.merge(alloc, &other))?;
    }
    Ok(vector)
}

fn tell_entries(told: &mut String, vector: &Vector) -> Result<(), CaseFault> {
    let mut between = "";
    for csn in vector.entries() {
        told.push_str(between)?;
        tell_csn(told, *csn)?;
        between = ",";
    }
    Ok(())
}

fn entries(alloc: Global, fields: &mut Fields<'_>, told: &mut String) -> Result<(), CaseFault> {
    let vector = next_vector(alloc, fields)?;
    tell_entries(told, &vector)
}

fn get(alloc: Global, fields: &mut Fields<'_>, told: &mut String) -> Result<(), CaseFault> {
    let vector = next_vector(alloc, fields)?;
    let rid = fields
        .word()?
        .parse::<u16>()
        .ok()
        .ok_or(CaseFault::Argument)?;
    tell_csn(told, vector.get(rid))
}

fn covers(alloc: Global, fields: &mut Fields<'_>, told: &mut String) -> Result<(), CaseFault> {
    let vector = next_vector(alloc, fields)?;
    let covered = vector.covers(next_csn(fields)?);
    write!(told, "{covered}")?;
    Ok(())
}

fn text(alloc: Global, fields: &mut Fields<'_>, told: &mut String) -> Result<(), CaseFault> {
    let vector = next_vector(alloc, fields)?;
    let texts = or_memory(vector.text(alloc))?;
    let mut between = "";
    for text in texts.as_slice() {
        told.push_str(between)?;
        tell_text(told, text.as_slice())?;
        between = " ";
    }
    Ok(())
}

/// Tells the entries of the vector whose texts are the next words.
fn read(alloc: Global, fields: &mut Fields<'_>, told: &mut String) -> Result<(), CaseFault> {
    let mut texts = Items::new(alloc);
    for _ in 0..u16::MAX {
        if fields.is_empty() {
            break;
        }
        let text = Bytes::from_vec(fields.bytes(alloc)?);
        or_memory(texts.push(text))?;
    }
    match or_memory(Vector::read(alloc, &texts))? {
        Some(vector) => tell_entries(told, &vector),
        None => {
            told.push_str("none")?;
            Ok(())
        }
    }
}
