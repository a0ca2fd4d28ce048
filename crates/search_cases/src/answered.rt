//! What a search answers over the view of changes.

ghost use Rattle.repl_data.specs.Closed.{IsClosed};

use crate::closed::{are_in_range, is_closed};
use crate::tell::tell_found;
use case_lines::{CaseFault, or_memory};
use ldap_types::SearchRequest;
use plain_view::PlainView;
use repl_data::{Change, Suffix, VectorText};
use search_core::{Found, search, search_laws};
use std::alloc::Global;

fn searched(
    alloc: Global,
    suffix: &Suffix,
    changes: &[Change],
    vector: &VectorText,
    request: &SearchRequest,
) -> Result<Found, CaseFault>
    requires { IsClosed changes.now }
{
    let _fits = are_in_range(changes);
    search_laws();
    let view = or_memory(PlainView::of(alloc, suffix, changes))?;
    or_memory(search(alloc, &view, vector, request))
}

/// Appends what the search answers. The changes have to be a closed set.
pub fn tell_search(
    alloc: Global,
    suffix: &Suffix,
    changes: &[Change],
    vector: &VectorText,
    request: &SearchRequest,
    told: &mut String,
) -> Result<(), CaseFault> {
    if is_closed(changes) {
        let found = searched(alloc, suffix, changes, vector, request)?;
        tell_found(told, &found)
    } else {
        Err(CaseFault::Argument)
    }
}
