//! One change of a large tree.

use crate::drawn::{change_of, entry};
use crate::run::Run;
use case_lines::{CaseFault, Fields, or_memory};
use case_views::tell_attrs;
use repl_data::{Suffix, Uid, View};
use std::alloc::Global;
use std::fmt::Write;
use view_snap::Snapshot;

/// A tree with so many children of the suffix entry.
fn filled(alloc: Global, suffix: &Suffix, entries: u32) -> Result<Run, CaseFault> {
    let mut run = or_memory(Run::new(alloc, suffix))?;
    for number in 0..entries {
        let change = entry(alloc, number.saturating_add(1), "suffix")?;
        or_memory(run.take(alloc, &change))?;
    }
    Ok(run)
}

/// Appends the number of the snapshot, that of the suffix entry's children, and the values of an entry.
fn tell_one(
    alloc: Global,
    snapshot: &Snapshot,
    id: Uid,
    told: &mut String,
) -> Result<(), CaseFault> {
    let children = or_memory(snapshot.children(alloc, Uid::SUFFIX))?;
    let (number, count) = (snapshot.number(), children.len());
    write!(told, "{number}: {count}")?;
    match snapshot.own(id) {
        Some(attrs) => tell_attrs(told, attrs),
        None => Err(CaseFault::Argument),
    }
}

/// Gives the fifth entry another description. Tells of it, for the snapshot before and the one after.
fn tell_change(alloc: Global, run: &mut Run, told: &mut String) -> Result<(), CaseFault> {
    let before = or_memory(run.snapshot.share(alloc))?;
    let change = change_of(alloc, "mod 4000000000.0.1 5.0.1 replace:description:new")?;
    or_memory(run.take(alloc, &change))?;
    tell_one(alloc, &before, change.target, told)?;
    told.push_str(", ")?;
    tell_one(alloc, &run.snapshot, change.target, told)
}

/// The number of entries below the suffix entry, of which the fifth gets another description. For the snapshot before
/// and the one after: its number, how many entries are below that of the suffix, and the values of the fifth.
pub fn tell_large(
    alloc: Global,
    suffix: &Suffix,
    fields: &mut Fields<'_>,
    told: &mut String,
) -> Result<(), CaseFault> {
    let Ok(entries) = u32::try_from(fields.number()?) else {
        return Err(CaseFault::Argument);
    };
    let mut run = filled(alloc, suffix, entries)?;
    tell_change(alloc, &mut run, told)
}
