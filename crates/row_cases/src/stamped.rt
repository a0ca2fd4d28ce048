//! Stamped entries, written as the changes that made them.

ghost use Rattle.std.specs.Prelude.{IfOk};
ghost use Rattle.stamp_entry.specs.Ordered.{IsOrdered};

use case_changes::{next_change, next_rdn, tell_csn, tell_rdn};
use case_lines::{CaseFault, Fields, or_memory};
use repl_data::{Body, Bytes, Change, ShownList, Suffix, check};
use stamp_entry::StampedEntry;
use std::alloc::Global;
use std::str;

pub fn answer(alloc: Global, fields: &mut Fields<'_>, told: &mut String) -> Result<(), CaseFault> {
    match fields.word()? {
        "added" => {
            let entry = added(alloc, &next_change(alloc, fields)?)?;
            tell_after(alloc, entry, fields, told)
        }
        "root" => {
            let entry = root(alloc, fields)?;
            tell_after(alloc, entry, fields, told)
        }
        _ => Err(CaseFault::Subject),
    }
}

/// The entry of an add.
fn added(alloc: Global, change: &Change) -> Result<StampedEntry, CaseFault>
    ensures { IfOk result IsOrdered }
{
    if check(change).is_err() {
        return Err(CaseFault::Argument);
    }
    match &change.body {
        Body::Add { .. } => or_memory(StampedEntry::added(alloc, change)),
        _ => Err(CaseFault::Argument),
    }
}

/// The suffix entry of a name and its first relative name.
fn root(alloc: Global, fields: &mut Fields<'_>) -> Result<StampedEntry, CaseFault>
    ensures { IfOk result IsOrdered }
{
    let name = Bytes::from_vec(fields.bytes(alloc)?);
    let rdn = next_rdn(alloc, fields)?;
    or_memory(StampedEntry::root(alloc, &Suffix { name, rdn }))
}

/// The entry after one change more.
fn after(alloc: Global, entry: &StampedEntry, change: &Change) -> Result<StampedEntry, CaseFault>
    requires { IsOrdered entry.now }
    ensures { IfOk result IsOrdered }
{
    if check(change).is_err() {
        return Err(CaseFault::Argument);
    }
    if change.target != entry.id {
        return Err(CaseFault::Argument);
    }
    or_memory(entry.applied(alloc, change))
}

/// Tells the entry after all changes that follow.
fn tell_after(
    alloc: Global,
    entry: StampedEntry,
    fields: &mut Fields<'_>,
    told: &mut String,
) -> Result<(), CaseFault>
    requires { IsOrdered entry }
{
    let mut last = entry;
    for _ in 0..u16::MAX {
        if fields.is_empty() {
            break;
        }
        let change = next_change(alloc, fields)?;
        last = after(alloc, &last, &change)?;
    }
    tell_entry(alloc, &last, told)
}

/// Tells whether the entry is live, its name with the CSN that gave it, and what shows.
fn tell_entry(alloc: Global, entry: &StampedEntry, told: &mut String) -> Result<(), CaseFault> {
    let (rdn, csn) = entry.name();
    told.push_str(if entry.is_live() { "live " } else { "dead " })?;
    tell_rdn(told, rdn)?;
    told.push_str(" at ")?;
    tell_csn(told, csn)?;
    let shown = or_memory(entry.shown(alloc))?;
    tell_shown(told, &shown)
}

fn tell_shown(told: &mut String, shown: &ShownList) -> Result<(), CaseFault> {
    for attr in shown.as_slice() {
        for val in attr.vals.as_slice() {
            told.push_str(" ")?;
            tell_plain(told, attr.attr.name.as_slice())?;
            told.push_str("=")?;
            tell_plain(told, val.spelled.as_slice())?;
        }
    }
    Ok(())
}

fn tell_plain(told: &mut String, bytes: &[u8]) -> Result<(), CaseFault> {
    let text = str::from_utf8(bytes).ok().ok_or(CaseFault::Argument)?;
    told.push_str(text)?;
    Ok(())
}
