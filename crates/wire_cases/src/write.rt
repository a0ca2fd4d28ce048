//! How messages are written: `as wanted` where the bytes are those that the case gives, or else the bytes.

use case_changes::{csn_list, next_change, next_csn};
use case_lines::{CaseFault, Fields, or_memory, tell_bytes};
use ldap_types::Bytes;
use repl_data::{Csn, Update};
use repl_wire::{End, Start, Vector, write_end, write_start, write_started, write_update};
use std::alloc::Global;

fn small(fields: &mut Fields<'_>) -> Result<u16, CaseFault> {
    match fields.word()?.parse::<u16>() {
        Ok(number) => Ok(number),
        Err(_) => Err(CaseFault::Argument),
    }
}

fn number(fields: &mut Fields<'_>) -> Result<u32, CaseFault> {
    match fields.word()?.parse::<u32>() {
        Ok(number) => Ok(number),
        Err(_) => Err(CaseFault::Argument),
    }
}

fn vector_of(alloc: Global, csns: &[Csn]) -> Result<Vector, CaseFault> {
    let mut vector = or_memory(Vector::new(alloc))?;
    for csn in csns {
        or_memory(vector.raise(alloc, *csn))?;
    }
    Ok(vector)
}

fn next_vector(alloc: Global, fields: &mut Fields<'_>) -> Result<Vector, CaseFault> {
    let csns = csn_list(alloc, fields.word()?)?;
    vector_of(alloc, csns.as_slice())
}

/// Compares with the bytes that the next word writes.
fn compare(
    alloc: Global,
    fields: &mut Fields<'_>,
    told: &mut String,
    written: &[u8],
) -> Result<(), CaseFault> {
    let wanted = fields.bytes(alloc)?;
    if written == wanted.as_slice() {
        told.push_str("as wanted")?;
        return Ok(());
    }
    tell_bytes(told, written)
}

fn next_start(alloc: Global, fields: &mut Fields<'_>) -> Result<Start, CaseFault> {
    let suffix = Bytes::from_vec(fields.bytes(alloc)?);
    let rid = small(fields)?;
    let front = next_vector(alloc, fields)?;
    Ok(Start { suffix, rid, front })
}

fn start_bytes(alloc: Global, id: u32, fields: &mut Fields<'_>) -> Result<Bytes, CaseFault> {
    let start = next_start(alloc, fields)?;
    or_memory(write_start(alloc, id, &start))
}

/// The number, the suffix, the supplier's replica id, its vector.
pub fn start(alloc: Global, fields: &mut Fields<'_>, told: &mut String) -> Result<(), CaseFault> {
    let id = number(fields)?;
    let written = start_bytes(alloc, id, fields)?;
    compare(alloc, fields, told, written.as_slice())
}

fn started_bytes(alloc: Global, id: u32, fields: &mut Fields<'_>) -> Result<Bytes, CaseFault> {
    let vector = next_vector(alloc, fields)?;
    or_memory(write_started(alloc, id, &vector))
}

/// The number and the vector.
pub fn started(alloc: Global, fields: &mut Fields<'_>, told: &mut String) -> Result<(), CaseFault> {
    let id = number(fields)?;
    let written = started_bytes(alloc, id, fields)?;
    compare(alloc, fields, told, written.as_slice())
}

/// The number and the supplier's replica id.
pub fn end(alloc: Global, fields: &mut Fields<'_>, told: &mut String) -> Result<(), CaseFault> {
    let id = number(fields)?;
    let rid = small(fields)?;
    let written = or_memory(write_end(alloc, id, &End { rid }))?;
    compare(alloc, fields, told, written.as_slice())
}

fn next_update(alloc: Global, fields: &mut Fields<'_>) -> Result<Update, CaseFault> {
    let prev = next_csn(fields)?;
    let change = next_change(alloc, fields)?;
    Ok(Update { change, prev })
}

fn update_bytes(alloc: Global, id: u32, fields: &mut Fields<'_>) -> Result<Bytes, CaseFault> {
    let update = next_update(alloc, fields)?;
    or_memory(write_update(alloc, id, &update))
}

/// The number, the CSN before, and the change.
pub fn update(alloc: Global, fields: &mut Fields<'_>, told: &mut String) -> Result<(), CaseFault> {
    let id = number(fields)?;
    let written = update_bytes(alloc, id, fields)?;
    compare(alloc, fields, told, written.as_slice())
}
