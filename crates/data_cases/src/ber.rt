//! Elements of BER, integers and truth values.

use ber_core::{Bytes, read_bool, read_header, read_int, read_tlv, write_int, write_tlv};
use case_lines::{CaseFault, Fields, or_memory, tell_bytes};
use std::alloc::Global;
use std::fmt::Write;

pub fn answer(alloc: Global, fields: &mut Fields<'_>, told: &mut String) -> Result<(), CaseFault> {
    match fields.word()? {
        "read_int" => int(alloc, fields, told),
        "read_bool" => truth(alloc, fields, told),
        "read_header" => header(alloc, fields, told),
        "read_tlv" => element(alloc, fields, told),
        "write_int" => written_int(alloc, fields, told),
        "write_tlv" => written_element(alloc, fields, told),
        _ => Err(CaseFault::Subject),
    }
}

fn int(alloc: Global, fields: &mut Fields<'_>, told: &mut String) -> Result<(), CaseFault> {
    let body = fields.bytes(alloc)?;
    let value = read_int(body.as_slice());
    write!(told, "{value:?}")?;
    Ok(())
}

fn truth(alloc: Global, fields: &mut Fields<'_>, told: &mut String) -> Result<(), CaseFault> {
    let body = fields.bytes(alloc)?;
    let value = read_bool(body.as_slice());
    write!(told, "{value:?}")?;
    Ok(())
}

fn limit(fields: &mut Fields<'_>) -> Result<usize, CaseFault> {
    Ok(fields.number()? as usize)
}

/// Tells the tag, the bytes of the header, and those of the content.
fn header(alloc: Global, fields: &mut Fields<'_>, told: &mut String) -> Result<(), CaseFault> {
    let input = fields.bytes(alloc)?;
    match read_header(input.as_slice(), limit(fields)?) {
        Ok(header) => {
            let (tag, size, content) = (header.tag, header.size, header.content);
            write!(told, "tag {tag}, size {size}, content {content}")?;
        }
        Err(fault) => write!(told, "{fault:?}")?,
    }
    Ok(())
}

/// Tells the tag, the bytes in all, and the content.
fn element(alloc: Global, fields: &mut Fields<'_>, told: &mut String) -> Result<(), CaseFault> {
    let input = fields.bytes(alloc)?;
    match read_tlv(input.as_slice(), limit(fields)?) {
        Ok(tlv) => {
            let (tag, size) = (tlv.tag, tlv.size);
            write!(told, "tag {tag}, size {size}, body ")?;
            tell_bytes(told, tlv.body)
        }
        Err(fault) => {
            write!(told, "{fault:?}")?;
            Ok(())
        }
    }
}

fn written_int(alloc: Global, fields: &mut Fields<'_>, told: &mut String) -> Result<(), CaseFault> {
    let value = fields
        .word()?
        .parse::<i64>()
        .ok()
        .ok_or(CaseFault::Argument)?;
    let mut out = Bytes::new(alloc);
    or_memory(write_int(alloc, &mut out, value))?;
    tell_bytes(told, out.as_slice())
}

/// An element with this tag and content.
fn written_element(
    alloc: Global,
    fields: &mut Fields<'_>,
    told: &mut String,
) -> Result<(), CaseFault> {
    let tag = fields
        .word()?
        .parse::<u8>()
        .ok()
        .ok_or(CaseFault::Argument)?;
    let body = fields.bytes(alloc)?;
    let mut out = Bytes::new(alloc);
    or_memory(write_tlv(alloc, &mut out, tag, body.as_slice()))?;
    tell_bytes(told, out.as_slice())
}
