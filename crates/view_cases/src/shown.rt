//! What the plain view of changes shows.

use case_lines::{CaseFault, Fields, or_memory};
use case_views::{Taken, tell_entries};
use plain_view::PlainView;
use repl_data::Suffix;
use std::alloc::Global;
use std::fmt::Write;

/// The view of the changes at these places, in this order.
pub fn view(
    alloc: Global,
    suffix: &Suffix,
    taken: &Taken,
    places: &str,
) -> Result<PlainView, CaseFault> {
    let changes = taken.picked(alloc, places)?;
    or_memory(PlainView::of(alloc, suffix, changes.as_slice()))
}

/// How many entries are present, how many of them lost their names, and how many are glue.
pub fn counts(told: &mut String, view: &PlainView) -> Result<(), CaseFault> {
    let (entries, conflicts, glue) = (view.len(), view.conflict_count(), view.glue_count());
    write!(told, "{entries} {conflicts} {glue}")?;
    Ok(())
}

fn listing(
    alloc: Global,
    suffix: &Suffix,
    taken: &Taken,
    places: &str,
) -> Result<String, CaseFault> {
    let view = view(alloc, suffix, taken, places)?;
    let entries = or_memory(view.dump(alloc))?;
    let mut told = String::new(alloc);
    tell_entries(&mut told, entries.as_slice())?;
    Ok(told)
}

/// What the view shows of the changes in the first order, and which orders show something else.
pub fn orders(
    alloc: Global,
    suffix: &Suffix,
    taken: &Taken,
    fields: &mut Fields<'_>,
    told: &mut String,
) -> Result<(), CaseFault> {
    let first = listing(alloc, suffix, taken, fields.word()?)?;
    told.push_str(first.as_str())?;
    for _ in 0..u64::MAX {
        if fields.is_empty() {
            break;
        }
        let places = fields.word()?;
        if listing(alloc, suffix, taken, places)?.as_str() != first.as_str() {
            write!(told, " but not {places}")?;
        }
    }
    Ok(())
}
