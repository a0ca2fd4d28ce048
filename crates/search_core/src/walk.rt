//! The walk over the present entries in scope.

ghost use Rattle.std.specs.Prelude.{◌≡◌, ◌++◌, List, true, flat_map, IfOk, OnOk, OnErr};
ghost use Rattle.repl_data.specs.declared.change.ShownEntry.{ShownEntry};
ghost use Rattle.repl_data.specs.View.{children_of};
ghost use Rattle.ldap_types.specs.declared.request.SearchRequest.{SearchRequest};
ghost use Rattle.view_walk.specs.Tree.{is_present};
ghost use Rattle.view_walk.specs.Walk.{subtree};
ghost use Rattle.search_core.specs.Tree.{IsTree};
ghost use Rattle.search_core.specs.Search.{told, present_found};
ghost use Rattle.search_core.specs.Query.{Asks, gives, MayTake};

use crate::found::Hits;
use crate::matching::is_match;
use crate::query::{Query, no_hits};
use crate::scope::Scope;
use repl_data::{NoMemory, Uid, View};
use std::alloc::Global;
use view_walk::Walk;

/// Takes a present entry if the filter says Yes of it. Takes no memory for another one, but where it lost its name and
/// the filter looks at the values that tell of it.
fn visit<V: View>(
    alloc: Global,
    view: &V,
    query: &Query,
    id: Uid,
    hits: &mut Hits,
) -> Result<(), NoMemory>
    requires { IsTree (V.view view.now) }
    ensures takes { OnOk result ((r : SearchRequest) (all : List ShownEntry) → Asks query.now r → hits.old ≡ told r all → hits.new ≡ told r (all ++ gives (V.view view.now) r.filter id)) }

    // Where memory runs out, it was taken for an entry of which the filter says Yes, or to tell the name that one lost.
    ensures memory { OnErr result (MayTake (V.view view.now) query.now id) }
{
    if is_match(alloc, view, &query.filter, id)? {
        if let Some(entry) = view.entry(alloc, id)? {
            query.take(alloc, entry, hits)?;
        }
    }
    Ok(())
}

#[tactic(auto, using(repl_data::proofs::Loops::flat_map_more))]
fn visit_each<V: View>(
    alloc: Global,
    view: &V,
    query: &Query,
    ids: &[Uid],
) -> Result<Hits, NoMemory>
    requires { IsTree (V.view view.now) }
    ensures { IfOk result (λ hits. (r : SearchRequest) → Asks query.now r → hits ≡ told r (flat_map (gives (V.view view.now) r.filter) ids.now)) }
{
    let mut hits = no_hits(alloc);
    for id in ids {
        visit(alloc, view, query, *id, &mut hits)?;
        if hits.over {
            return Ok(hits);
        }
    }
    Ok(hits)
}

fn visit_children<V: View>(
    alloc: Global,
    view: &V,
    query: &Query,
    base: Uid,
) -> Result<Hits, NoMemory>
    requires { IsTree (V.view view.now) }
    ensures { IfOk result (λ hits. (r : SearchRequest) → Asks query.now r → hits ≡ told r (flat_map (gives (V.view view.now) r.filter) (children_of (V.view view.now) base))) }
{
    let ids = view.children(alloc, base)?;
    visit_each(alloc, view, query, ids.as_slice())
}

/// Visits the base and all below it, parents first, until there is more than the limit lets through.
fn visit_subtree<V: View>(
    alloc: Global,
    view: &V,
    query: &Query,
    base: Uid,
) -> Result<Hits, NoMemory>
    requires tree { IsTree (V.view view.now) }
    requires present { is_present (V.view view.now) base ≡ true }
    ensures { IfOk result (λ hits. (r : SearchRequest) → Asks query.now r → hits ≡ told r (flat_map (gives (V.view view.now) r.filter) (subtree (V.view view.now) base))) }
{
    let mut hits = no_hits(alloc);
    let mut walk = Walk::of(alloc, base)?;
    while let Some(id) = walk.next(alloc, view)? {
        visit(alloc, view, query, id, &mut hits)?;
        if hits.over {
            return Ok(hits);
        }
    }
    Ok(hits)
}

/// What a search finds among the present entries, from a present base on. Visits the entries in scope and no
/// others, in their order, so that nothing is sorted.
pub(crate) fn present_hits<V: View>(
    alloc: Global,
    view: &V,
    query: &Query,
    scope: Scope,
    base: Uid,
) -> Result<Hits, NoMemory>
    requires tree { IsTree (V.view view.now) }
    requires present { is_present (V.view view.now) base ≡ true }
    ensures { IfOk result (λ hits. (r : SearchRequest) → Asks query.now r → hits ≡ told r (present_found (V.view view.now) r.filter scope base)) }
{
    match scope {
        Scope::Base => visit_each(alloc, view, query, &[base]),
        Scope::Children => visit_children(alloc, view, query, base),
        Scope::Subtree => visit_subtree(alloc, view, query, base),
    }
}
