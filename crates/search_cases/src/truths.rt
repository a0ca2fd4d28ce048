//! The truth of a filter for an entry of the view of changes.

use crate::filters::next_filter;
use case_changes::next_uid;
use case_lines::{CaseFault, Fields, or_memory};
use filter_truth::{Truth, entry_laws, truth};
use ldap_types::Filter;
use plain_view::PlainView;
use repl_data::{Change, Suffix, Uid, View};
use std::alloc::Global;

/// The truth of the filter for the entry of this id.
fn truth_at(alloc: Global, view: &PlainView, id: Uid, filter: &Filter) -> Result<Truth, CaseFault> {
    entry_laws();
    let found = or_memory(view.entry(alloc, id))?;
    match found {
        Some(entry) => or_memory(truth(alloc, filter, &entry)),
        None => Err(CaseFault::Argument),
    }
}

/// The entry's id, and a filter: `Yes`, `No` or `Undefined`.
pub fn tell_truth(
    alloc: Global,
    suffix: &Suffix,
    changes: &[Change],
    fields: &mut Fields<'_>,
    told: &mut String,
) -> Result<(), CaseFault> {
    let id = next_uid(fields)?;
    let filter = next_filter(alloc, fields)?;
    let view = or_memory(PlainView::of(alloc, suffix, changes))?;
    let word = match truth_at(alloc, &view, id, &filter)? {
        Truth::Yes => "Yes",
        Truth::No => "No",
        Truth::Undefined => "Undefined",
    };
    told.push_str(word)?;
    Ok(())
}
