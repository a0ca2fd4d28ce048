//! Keys of attribute names and values.

use attr_keys::{
    AttrKey, Bytes, KeyFault, attr_key, compare_keys, is_single, kind_of, piece_key, value_key,
};
use case_lines::{CaseFault, Fields, tell_text};
use std::alloc::Global;
use std::fmt::Write;

pub fn answer(alloc: Global, fields: &mut Fields<'_>, told: &mut String) -> Result<(), CaseFault> {
    match fields.word()? {
        "attr_key" => name(alloc, fields, told),
        "kind_of" => kind(alloc, fields, told),
        "value_key" => value(alloc, fields, told),
        "piece_key" => piece(alloc, fields, told),
        "compare_keys" => order(alloc, fields, told),
        _ => Err(CaseFault::Subject),
    }
}

/// The key of the attribute that the next word names.
fn next_key(alloc: Global, fields: &mut Fields<'_>) -> Result<AttrKey, CaseFault> {
    let name = fields.bytes(alloc)?;
    attr_key(alloc, name.as_slice())
        .ok()
        .ok_or(CaseFault::Argument)
}

fn tell_key(told: &mut String, key: Result<Bytes, KeyFault>) -> Result<(), CaseFault> {
    match key {
        Ok(key) => tell_text(told, key.as_slice()),
        Err(fault) => {
            write!(told, "{fault:?}")?;
            Ok(())
        }
    }
}

fn name(alloc: Global, fields: &mut Fields<'_>, told: &mut String) -> Result<(), CaseFault> {
    let name = fields.bytes(alloc)?;
    let key = attr_key(alloc, name.as_slice());
    tell_key(told, key.map(|attr| attr.name))
}

/// Tells the kind of the type, and whether it has a single value.
fn kind(alloc: Global, fields: &mut Fields<'_>, told: &mut String) -> Result<(), CaseFault> {
    let attr = next_key(alloc, fields)?;
    let kind = kind_of(&attr);
    let count = if is_single(&attr) { "single" } else { "many" };
    write!(told, "{kind:?}, {count}")?;
    Ok(())
}

fn value(alloc: Global, fields: &mut Fields<'_>, told: &mut String) -> Result<(), CaseFault> {
    let attr = next_key(alloc, fields)?;
    let value = fields.bytes(alloc)?;
    tell_key(told, value_key(alloc, &attr, value.as_slice()))
}

fn piece(alloc: Global, fields: &mut Fields<'_>, told: &mut String) -> Result<(), CaseFault> {
    let attr = next_key(alloc, fields)?;
    let value = fields.bytes(alloc)?;
    tell_key(told, piece_key(alloc, &attr, value.as_slice()))
}

fn order(alloc: Global, fields: &mut Fields<'_>, told: &mut String) -> Result<(), CaseFault> {
    let attr = next_key(alloc, fields)?;
    let a = fields.bytes(alloc)?;
    let b = fields.bytes(alloc)?;
    let order = compare_keys(&attr, a.as_slice(), b.as_slice());
    write!(told, "{order:?}")?;
    Ok(())
}
