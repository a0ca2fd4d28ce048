//! What a plain view shows that grows change by change.

use case_lines::{CaseFault, Fields, or_memory};
use case_views::{Taken, tell_entries};
use plain_view::PlainView;
use repl_data::Suffix;
use std::alloc::Global;
use std::fmt::Write;

/// How many entries a view has that took the changes one after the other, and what it shows.
pub fn orders(
    alloc: Global,
    suffix: &Suffix,
    taken: &Taken,
    fields: &mut Fields<'_>,
    told: &mut String,
) -> Result<(), CaseFault> {
    let changes = taken.picked(alloc, fields.word()?)?;
    let mut view = or_memory(PlainView::new(alloc, suffix))?;
    for change in changes.as_slice() {
        or_memory(view.add(alloc, change))?;
    }
    let count = view.len();
    write!(told, "{count} entries, ")?;
    let entries = or_memory(view.dump(alloc))?;
    tell_entries(told, entries.as_slice())
}
