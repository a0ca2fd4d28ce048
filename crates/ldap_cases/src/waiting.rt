//! Waiting for a request whose bytes come in pieces.

use case_lines::{CaseFault, Fields, or_memory, tell_bytes};
use ldap_types::Bytes;
use request_wait::{Unfinished, Waiting};
use std::alloc::Global;
use std::fmt::Write;

/// How many bytes have come when the message, byte by byte, is not waited for any more.
pub fn certain(alloc: Global, fields: &mut Fields<'_>, told: &mut String) -> Result<(), CaseFault> {
    let bytes = fields.bytes(alloc)?;
    let mut unfinished = Unfinished::new(alloc);
    for byte in bytes.as_slice() {
        or_memory(unfinished.extend_from_slice(&[*byte]))?;
        if !unfinished.waits() {
            let count = unfinished.len();
            write!(told, "{count}")?;
            return Ok(());
        }
    }
    told.push_str("never")?;
    Ok(())
}

/// Whether a place waits over the bytes, and once more over the same.
pub fn goes_on(alloc: Global, fields: &mut Fields<'_>, told: &mut String) -> Result<(), CaseFault> {
    let bytes = fields.bytes(alloc)?;
    let mut waiting = Waiting::new();
    let first = waiting.goes_on(bytes.as_slice());
    let again = waiting.goes_on(bytes.as_slice());
    write!(told, "{first} {again}")?;
    Ok(())
}

/// What is asked of the unfinished message.
pub fn answer(
    unfinished: &mut Unfinished,
    alloc: Global,
    subject: &str,
    fields: &mut Fields<'_>,
    told: &mut String,
) -> Result<(), CaseFault> {
    match subject {
        "unfinished_from" => {
            let bytes = fields.bytes(alloc)?;
            let bytes = or_memory(Bytes::from_slice(alloc, bytes.as_slice()))?;
            *unfinished = Unfinished::from(bytes);
            tell_waits(unfinished, told)
        }
        "unfinished_more" => {
            let bytes = fields.bytes(alloc)?;
            or_memory(unfinished.extend_from_slice(bytes.as_slice()))?;
            tell_waits(unfinished, told)
        }
        "unfinished_bytes" => tell_bytes(told, unfinished.as_slice()),
        "unfinished_clear" => {
            unfinished.clear();
            let empty = unfinished.is_empty();
            write!(told, "{empty}")?;
            Ok(())
        }
        _ => Err(CaseFault::Subject),
    }
}

fn tell_waits(unfinished: &mut Unfinished, told: &mut String) -> Result<(), CaseFault> {
    let waits = unfinished.waits();
    write!(told, "{waits}")?;
    Ok(())
}
