//! CSNs, ids, and what is wrong with a change.

use case_changes::{next_change, next_csn, next_uid, tell_csn, tell_uid};
use case_lines::{CaseFault, Fields, tell_bytes, tell_text};
use repl_data::{Csn, Uid, check, weight};
use std::alloc::Global;
use std::fmt::Write;

pub fn answer(alloc: Global, fields: &mut Fields<'_>, told: &mut String) -> Result<(), CaseFault> {
    match fields.word()? {
        "read" => read(alloc, fields, told),
        "text" => text(fields, told),
        "bytes" => bytes(fields, told),
        "part" => part(fields, told),
        "compare" => compare(fields, told),
        "read_id" => read_id(alloc, fields, told),
        "text_of_id" => text_of_id(fields, told),
        "check" => fault(alloc, fields, told),
        "weight" => heaviness(alloc, fields, told),
        _ => Err(CaseFault::Subject),
    }
}

fn read(alloc: Global, fields: &mut Fields<'_>, told: &mut String) -> Result<(), CaseFault> {
    let text = fields.bytes(alloc)?;
    match Csn::read(text.as_slice()) {
        Some(csn) => tell_csn(told, csn),
        None => {
            told.push_str("none")?;
            Ok(())
        }
    }
}

fn text(fields: &mut Fields<'_>, told: &mut String) -> Result<(), CaseFault> {
    let csn = next_csn(fields)?;
    tell_text(told, csn.text().as_slice())
}

/// Tells the ten bytes, where they are read back.
fn bytes(fields: &mut Fields<'_>, told: &mut String) -> Result<(), CaseFault> {
    let csn = next_csn(fields)?;
    if Csn::from_bytes(csn.bytes()) != csn {
        told.push_str("read back as another, ")?;
    }
    tell_bytes(told, csn.bytes().as_slice())
}

/// The stamp of a part of the change with this CSN.
fn part(fields: &mut Fields<'_>, told: &mut String) -> Result<(), CaseFault> {
    let csn = next_csn(fields)?;
    let part = fields
        .word()?
        .parse::<u16>()
        .ok()
        .ok_or(CaseFault::Argument)?;
    tell_csn(told, csn.part(part))
}

/// Tells how the two compare, and whether the operator says so, too.
fn compare(fields: &mut Fields<'_>, told: &mut String) -> Result<(), CaseFault> {
    let a = next_csn(fields)?;
    let b = next_csn(fields)?;
    let order = a.compare(b);
    let below = a < b;
    write!(told, "{order:?}, below: {below}")?;
    Ok(())
}

fn read_id(alloc: Global, fields: &mut Fields<'_>, told: &mut String) -> Result<(), CaseFault> {
    let text = fields.bytes(alloc)?;
    match Uid::read(text.as_slice()) {
        Some(uid) => tell_uid(told, uid),
        None => {
            told.push_str("none")?;
            Ok(())
        }
    }
}

fn text_of_id(fields: &mut Fields<'_>, told: &mut String) -> Result<(), CaseFault> {
    let uid = next_uid(fields)?;
    tell_text(told, uid.text().as_slice())
}

/// Tells the first fault of the change.
fn fault(alloc: Global, fields: &mut Fields<'_>, told: &mut String) -> Result<(), CaseFault> {
    let change = next_change(alloc, fields)?;
    let checked = check(&change);
    write!(told, "{checked:?}")?;
    Ok(())
}

fn heaviness(alloc: Global, fields: &mut Fields<'_>, told: &mut String) -> Result<(), CaseFault> {
    let change = next_change(alloc, fields)?;
    let weight = weight(&change.body);
    write!(told, "{weight}")?;
    Ok(())
}
