//! Generated sequences of changes.

use crate::drawn::{Numbers, drawn};
use crate::shown::shown;
use crate::versions::Versions;
use case_lines::{CaseFault, Fields, or_memory};
use plain_view::PlainView;
use repl_data::{Change, Items, Suffix, Uid};
use std::alloc::Global;
use std::fmt::Write;

/// The suffix entry, or one that a change is of.
fn target(numbers: &mut Numbers, taken: &[Change]) -> Uid {
    let at = usize::try_from(numbers.below(100)).unwrap_or(0);
    match taken.get(at) {
        Some(change) => change.target,
        None => Uid::SUFFIX,
    }
}

/// Draws a change, and takes it, if it may be taken.
fn try_next(
    alloc: Global,
    versions: &mut Versions,
    numbers: &mut Numbers,
    taken: &mut Items<Change>,
    names: u64,
) -> Result<bool, CaseFault> {
    let target = target(numbers, taken.as_slice());
    let change = drawn(alloc, numbers, versions.last().number(), target, names)?;
    if versions.take(alloc, &change)? {
        or_memory(taken.push(change))?;
        return Ok(true);
    }
    Ok(false)
}

/// Draws changes until one may be taken, and takes it.
fn take_next(
    alloc: Global,
    versions: &mut Versions,
    numbers: &mut Numbers,
    taken: &mut Items<Change>,
    names: u64,
) -> Result<(), CaseFault> {
    for _ in 0..1_000 {
        if try_next(alloc, versions, numbers, taken, names)? {
            break;
        }
    }
    Ok(())
}

/// Takes so many changes, with so many names. The changes.
fn take_drawn(
    alloc: Global,
    versions: &mut Versions,
    names: u64,
    count: u64,
) -> Result<Items<Change>, CaseFault> {
    let mut numbers = Numbers::new(names);
    let mut taken = Items::new(alloc);
    for _ in 0..count {
        take_next(alloc, versions, &mut numbers, &mut taken, names)?;
    }
    Ok(taken)
}

/// Tells, if the last snapshot does not show what the plain view of the changes shows.
fn tell_plain(
    alloc: Global,
    suffix: &Suffix,
    versions: &Versions,
    changes: &[Change],
    told: &mut String,
) -> Result<(), CaseFault> {
    let plain = or_memory(PlainView::of(alloc, suffix, changes))?;
    let plain = shown(alloc, &plain)?;
    let last = shown(alloc, versions.last())?;
    if plain.as_str() != last.as_str() {
        told.push_str(" but not as the plain view")?;
    }
    Ok(())
}

/// The number of names and of changes. The number of the last snapshot; then the numbers of those that do not show
/// what the tree showed, and whether the last one does not show what the plain view of all changes shows.
pub fn tell_generated(
    alloc: Global,
    suffix: &Suffix,
    fields: &mut Fields<'_>,
    told: &mut String,
) -> Result<(), CaseFault> {
    let (names, count) = (fields.number()?, fields.number()?);
    let mut versions = Versions::new(alloc, suffix)?;
    let taken = take_drawn(alloc, &mut versions, names, count)?;
    let number = versions.last().number();
    write!(told, "{number}")?;
    versions.tell_differing(alloc, told)?;
    tell_plain(alloc, suffix, &versions, taken.as_slice(), told)
}
