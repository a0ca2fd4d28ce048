//! Bytes as cases write them, both ways.

ghost use Rattle.std.specs.Prelude.{◌≤◌, length};

use crate::fault::CaseFault;
use crate::scan::split_bare;
use std::alloc::Global;
use std::fmt::Write;
use std::str;

/// How many equal bytes are told by their count.
const LONG_RUN: usize = 16;

/// The bytes that this word writes.
pub fn read_bytes(alloc: Global, word: &[u8]) -> Result<Vec<u8>, CaseFault> {
    let mut bytes = Vec::new(alloc);
    let mut rest = word;
    for _ in 0..word.len() {
        let Some((part, behind)) = split_bare(rest, b'+') else {
            break;
        };
        read_part(alloc, &mut bytes, part)?;
        rest = behind;
    }
    read_part(alloc, &mut bytes, rest)?;
    Ok(bytes)
}

/// Appends what one part writes.
fn read_part(alloc: Global, bytes: &mut Vec<u8>, part: &[u8]) -> Result<(), CaseFault> {
    let Some((unit, count)) = split_bare(part, b'*') else {
        return read_repeated(alloc, bytes, part, 1);
    };
    let count = str::from_utf8(count)
        .ok()
        .and_then(|text| text.parse::<u32>().ok());
    let Some(count) = count else {
        return Err(CaseFault::Argument);
    };
    read_repeated(alloc, bytes, unit, count)
}

/// Appends what is in quotes or hexadecimal, so many times.
fn read_repeated(
    alloc: Global,
    bytes: &mut Vec<u8>,
    part: &[u8],
    count: u32,
) -> Result<(), CaseFault> {
    if let [first, inner @ .., last] = part {
        if (*first == b'"' || *first == b'\'') && first == last {
            return repeat(bytes, inner, count);
        }
    }
    let Ok(unit) = hex::decode(alloc, part) else {
        return Err(CaseFault::Argument);
    };
    repeat(bytes, unit.as_slice(), count)
}

fn repeat(bytes: &mut Vec<u8>, unit: &[u8], count: u32) -> Result<(), CaseFault> {
    for _ in 0..count {
        bytes.extend_from_slice(unit)?;
    }
    Ok(())
}

/// Appends these bytes in hexadecimal, where 16 or more equal ones are told as `61*16` with `+`
/// round it, and no byte as `""`.
pub fn tell_bytes(told: &mut String, bytes: &[u8]) -> Result<(), CaseFault> {
    if bytes.is_empty() {
        told.push_str("\"\"")?;
    }
    let mut rest = bytes;
    let mut joined = true;
    for _ in 0..bytes.len() {
        let run = first_run(rest);
        let Some(byte) = rest.first() else {
            break;
        };
        if !joined || (run >= LONG_RUN && rest.len() < bytes.len()) {
            told.push_str("+")?;
        }
        joined = run < LONG_RUN;
        if joined {
            write!(told, "{byte:02x}")?;
            rest = &rest[1..];
        } else {
            write!(told, "{byte:02x}*{run}")?;
            rest = &rest[run..];
        }
    }
    Ok(())
}

/// How many bytes at the front are the same.
fn first_run(bytes: &[u8]) -> usize
    ensures { result ≤ length bytes.now }
{
    let Some(first) = bytes.first() else {
        return 0;
    };
    bytes.iter().take_while(|byte| *byte == first).count()
}

/// Appends these bytes in quotes where they are printable ASCII without one of the two quotes, and
/// else as [`tell_bytes`] does.
pub fn tell_text(told: &mut String, bytes: &[u8]) -> Result<(), CaseFault> {
    let plain = bytes.iter().all(|byte| (b' '..=b'~').contains(byte));
    match str::from_utf8(bytes) {
        Ok(text) if plain && !text.contains('"') => {
            write!(told, "\"{text}\"")?;
            Ok(())
        }
        Ok(text) if plain && !text.contains('\'') => {
            write!(told, "'{text}'")?;
            Ok(())
        }
        _ => tell_bytes(told, bytes),
    }
}
