//! Change sequence numbers and ids.

use crate::part::pieces;
use case_lines::{CaseFault, Fields};
use repl_data::{Csn, Uid};
use std::alloc::Global;
use std::fmt::Write;
use std::str;

/// The CSN that this word writes.
fn csn_of(word: &str) -> Option<Csn> {
    let mut parts = word.split('.');
    let time = parts.next()?.parse::<u32>().ok()?;
    let seq = parts.next()?.parse::<u16>().ok()?;
    let rid = parts.next()?.parse::<u16>().ok()?;
    let sub = match parts.next() {
        Some(part) => part.parse::<u16>().ok()?,
        None => 0,
    };
    if parts.next().is_some() {
        return None;
    }
    Some(Csn {
        time,
        seq,
        rid,
        sub,
    })
}

/// The CSN that the next word writes.
pub fn next_csn(fields: &mut Fields<'_>) -> Result<Csn, CaseFault> {
    let word = fields.word()?;
    csn_of(word).ok_or(CaseFault::Argument)
}

/// The CSNs of this word, with commas between them.
pub fn csn_list(alloc: Global, word: &str) -> Result<Vec<Csn>, CaseFault> {
    let mut list = Vec::new(alloc);
    for piece in pieces(alloc, word.as_bytes(), b',')? {
        let text = str::from_utf8(piece).ok().ok_or(CaseFault::Argument)?;
        list.push(csn_of(text).ok_or(CaseFault::Argument)?)?;
    }
    Ok(list)
}

/// The id that the next word writes.
pub fn next_uid(fields: &mut Fields<'_>) -> Result<Uid, CaseFault> {
    let word = fields.word()?;
    if word == "suffix" {
        return Ok(Uid::SUFFIX);
    }
    let csn = csn_of(word).ok_or(CaseFault::Argument)?;
    Ok(Uid { csn })
}

/// Appends the word of this CSN.
pub fn tell_csn(told: &mut String, csn: Csn) -> Result<(), CaseFault> {
    let (time, seq, rid, sub) = (csn.time, csn.seq, csn.rid, csn.sub);
    write!(told, "{time}.{seq}.{rid}")?;
    if sub != 0 {
        write!(told, ".{sub}")?;
    }
    Ok(())
}

/// Appends the word of this id.
pub fn tell_uid(told: &mut String, uid: Uid) -> Result<(), CaseFault> {
    if uid == Uid::SUFFIX {
        told.push_str("suffix")?;
        return Ok(());
    }
    tell_csn(told, uid.csn)
}
