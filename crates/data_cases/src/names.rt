//! Distinguished names.

use case_lines::{CaseFault, Fields, or_memory, tell_text};
use dn_text::{Dn, DnFault, print_dn, read_dn, read_suffix};
use repl_data::Ava;
use std::alloc::Global;
use std::fmt::Write;

pub fn answer(alloc: Global, fields: &mut Fields<'_>, told: &mut String) -> Result<(), CaseFault> {
    match fields.word()? {
        "read_dn" => name(alloc, fields, told),
        "value" => value(alloc, fields, told),
        "read_suffix" => suffix(alloc, fields, told),
        "below" => below(alloc, fields, told),
        "print_turned" => turned(alloc, fields, told),
        _ => Err(CaseFault::Subject),
    }
}

/// The name that the next word spells.
fn next_dn(alloc: Global, fields: &mut Fields<'_>) -> Result<Dn, CaseFault> {
    let text = fields.bytes(alloc)?;
    read_dn(alloc, text.as_slice())
        .ok()
        .ok_or(CaseFault::Argument)
}

fn tell_dn(alloc: Global, dn: &Dn, told: &mut String) -> Result<(), CaseFault> {
    let text = or_memory(print_dn(alloc, dn))?;
    tell_text(told, text.as_slice())
}

fn tell_fault(fault: DnFault, told: &mut String) -> Result<(), CaseFault> {
    write!(told, "{fault:?}")?;
    Ok(())
}

/// Tells the name as it is printed.
fn name(alloc: Global, fields: &mut Fields<'_>, told: &mut String) -> Result<(), CaseFault> {
    let text = fields.bytes(alloc)?;
    match read_dn(alloc, text.as_slice()) {
        Ok(dn) => tell_dn(alloc, &dn, told),
        Err(fault) => tell_fault(fault, told),
    }
}

fn tell_part(ava: &Ava, told: &mut String) -> Result<(), CaseFault> {
    tell_text(told, ava.attr.name.as_slice())?;
    told.push_str(" ")?;
    tell_text(told, ava.val.spelled.as_slice())
}

/// Tells the first part of the first relative name: its attribute and its value.
fn value(alloc: Global, fields: &mut Fields<'_>, told: &mut String) -> Result<(), CaseFault> {
    let dn = next_dn(alloc, fields)?;
    let rdn = dn.rdns.get(0).ok_or(CaseFault::Argument)?;
    let ava = rdn.avas.get(0).ok_or(CaseFault::Argument)?;
    tell_part(ava, told)
}

/// Tells the suffix's printed name, and each part of its first relative name.
fn suffix(alloc: Global, fields: &mut Fields<'_>, told: &mut String) -> Result<(), CaseFault> {
    let text = fields.bytes(alloc)?;
    match read_suffix(alloc, text.as_slice()) {
        Ok(suffix) => {
            tell_text(told, suffix.name.as_slice())?;
            for ava in suffix.rdn.avas.as_slice() {
                told.push_str(", ")?;
                tell_part(ava, told)?;
            }
            Ok(())
        }
        Err(fault) => tell_fault(fault, told),
    }
}

/// Tells how far the first name is below the second.
fn below(alloc: Global, fields: &mut Fields<'_>, told: &mut String) -> Result<(), CaseFault> {
    let dn = next_dn(alloc, fields)?;
    let suffix = next_dn(alloc, fields)?;
    let count = dn.below(&suffix);
    write!(told, "{count:?}")?;
    Ok(())
}

/// Tells the name as it is printed when the first part of its first relative name comes last.
fn turned(alloc: Global, fields: &mut Fields<'_>, told: &mut String) -> Result<(), CaseFault> {
    let mut dn = next_dn(alloc, fields)?;
    if dn.rdns.is_empty() {
        return Err(CaseFault::Argument);
    }
    let mut rdn = dn.rdns.remove(0);
    if rdn.avas.is_empty() {
        return Err(CaseFault::Argument);
    }
    let first = rdn.avas.remove(0);
    or_memory(rdn.avas.push(first))?;
    or_memory(dn.rdns.insert(0, rdn))?;
    tell_dn(alloc, &dn, told)
}
