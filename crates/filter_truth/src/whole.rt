//! The truth of a filter for one entry.

ghost use Rattle.std.specs.Prelude.{◌≡◌, IfOk};
ghost use Rattle.repl_data.specs.Ordered.{Rises};
ghost use Rattle.filter_truth.specs.Truth.{name_of, truth};

use crate::prepared::prepare;
use crate::three::Truth;
use ldap_types::Filter;
use repl_data::{NoMemory, ShownEntry};
use std::alloc::Global;

/// The truth of a filter for an entry, whose attributes stand in order of name (RFC 4511, section 4.5.1.7). Makes
/// the filter ready first: who asks about many entries does that once, by `prepare`.
pub fn truth(alloc: Global, filter: &Filter, entry: &ShownEntry) -> Result<Truth, NoMemory>
    requires { Rises name_of entry.now.attrs }
    ensures { IfOk result (λ t. t ≡ truth filter.now entry.now.attrs) }
{
    let prepared = prepare(alloc, filter)?;
    Ok(prepared.truth(entry.attrs.as_slice()))
}
