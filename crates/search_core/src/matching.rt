//! Whether a filter says Yes of an entry.

ghost use Rattle.std.specs.Prelude.{◌≡◌, Some, None, IfSome, IfOk, OnErr};
ghost use Rattle.repl_data.specs.Ordered.{Rises};
ghost use Rattle.repl_data.specs.Lent.{own_of};
ghost use Rattle.ldap_types.specs.declared.request.Filter.{Filter};
ghost use Rattle.filter_truth.specs.Three.{is_yes};
ghost use Rattle.filter_truth.specs.Truth.{name_of};
ghost use Rattle.filter_truth.specs.Prepared.{StandsFor};
ghost use Rattle.filter_truth.specs.Lent.{asks_names, IsUntold};
ghost use Rattle.search_core.specs.Hits.{is_meant, is_match, is_gone_match};
ghost use Rattle.search_core.specs.Tree.{IsTree};

use filter_truth::{Prepared, Truth};
use repl_data::{NoMemory, Shown, ShownEntry, Uid, View};
use std::alloc::Global;

fn is_yes(truth: Truth) -> bool
    ensures { result ≡ is_yes truth }
{
    truth == Truth::Yes
}

/// Whether the filter says Yes of an entry as it shows. Takes no memory.
pub(crate) fn is_meant(filter: &Prepared, entry: &ShownEntry) -> bool
    requires { Rises name_of entry.now.attrs }
    ensures { (f : Filter) → StandsFor filter.now f → result ≡ is_meant f entry.now }
{
    is_yes(filter.truth(entry.attrs.as_slice()))
}

/// The same of a present entry that is made for it.
fn is_made_match<V: View>(
    alloc: Global,
    view: &V,
    filter: &Prepared,
    id: Uid,
) -> Result<bool, NoMemory>
    ensures { IfOk result (λ yes. (f : Filter) → StandsFor filter.now f → yes ≡ is_match (V.view view.now) f id) }
{
    match view.entry(alloc, id)? {
        Some(entry) => Ok(is_meant(filter, &entry)),
        None => Ok(false),
    }
}

/// The same of a present entry by what the view lends of it, if that tells it. Takes no memory.
fn is_lent_match<V: View>(view: &V, filter: &Prepared, id: Uid, own: &[Shown]) -> Option<bool>
    requires rises { Rises name_of own.now }
    requires lent { own_of (V.view view.now) id ≡ Some own.now }
    ensures told { IfSome result (λ yes. (f : Filter) → StandsFor filter.now f → yes ≡ is_match (V.view view.now) f id) }
    ensures untold { result ≡ None → IsUntold (V.view view.now) id (asks_names filter.now) }
{
    match filter.truth_at(view, id, own) {
        Some(truth) => Some(is_yes(truth)),
        None => None,
    }
}

/// Whether the filter says Yes of a present entry. Takes memory only where an entry lost its name and the filter looks
/// at the values that tell of it.
pub(crate) fn is_match<V: View>(
    alloc: Global,
    view: &V,
    filter: &Prepared,
    id: Uid,
) -> Result<bool, NoMemory>
    requires { IsTree (V.view view.now) }
    ensures told { IfOk result (λ yes. (f : Filter) → StandsFor filter.now f → yes ≡ is_match (V.view view.now) f id) }

    // Memory is wanted only there.
    ensures memory { OnErr result (IsUntold (V.view view.now) id (asks_names filter.now)) }
{
    let Some(own) = view.own(id) else {
        return Ok(false);
    };
    match is_lent_match(view, filter, id, own) {
        Some(yes) => Ok(yes),
        None => is_made_match(alloc, view, filter, id),
    }
}

/// Whether the filter says Yes of a tombstone. Takes no memory.
pub(crate) fn is_gone_match<V: View>(view: &V, filter: &Prepared, id: Uid) -> bool
    requires { IsTree (V.view view.now) }
    ensures { (f : Filter) → StandsFor filter.now f → result ≡ is_gone_match (V.view view.now) f id }
{
    match view.tombstone_own(id) {
        Some(own) => is_yes(filter.truth_of_tombstone(view, id, own)),
        None => false,
    }
}
