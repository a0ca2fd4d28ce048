//! Searches of tombstones, and of the entry of the update vector.

ghost use Rattle.std.specs.Prelude.{◌≡◌, ◌++◌, List, flat_map, codes, IfOk, OnOk, OnErr};
ghost use Rattle.std.specs.List.{list_any};
ghost use Rattle.std.specs.Option.{option_copied};
ghost use Rattle.repl_data.specs.declared.csn.Uid.{Uid};
ghost use Rattle.repl_data.specs.declared.change.ShownEntry.{ShownEntry};
ghost use Rattle.repl_data.specs.Text.{uid_text};
ghost use Rattle.ldap_types.specs.declared.request.SearchRequest.{SearchRequest};
ghost use Rattle.filter_truth.specs.Truth.{value_of};
ghost use Rattle.search_core.specs.Tombstones.{is_some_of, names_class, asks_tombstones, id_in_parts, id_in, is_named, is_wanted, is_dead_name, has_base, has_children};
ghost use Rattle.search_core.specs.Search.{told, dead_found};
ghost use Rattle.search_core.specs.Tree.{IsTree};
ghost use Rattle.search_core.specs.Query.{Asks, gives_tombstone, MayTakeTombstone};
ghost use Rattle.search_core.specs.Dead.{IsClassAttr, is_it, gives_dead, gives_vector};

use crate::found::Hits;
use crate::made::{VECTOR_ID, vector_entry};
use crate::matching::is_gone_match;
use crate::query::{Query, no_hits};
use crate::scope::Scope;
use attr_keys::{AttrKey, KeyFault, Kind, attr_key, value_key};
use ldap_types::Filter;
use repl_data::{Ava, Bytes, NoMemory, Rdn, Uid, VectorText, View, or, same_bytes};
use std::alloc::Global;

/// The attribute, if the name is one of `objectClass`.
fn class_attr(alloc: Global, name: &[u8]) -> Result<Option<AttrKey>, NoMemory>
    ensures { IfOk result (IsClassAttr name.now) }
{
    match attr_key(alloc, name) {
        Ok(attr) => {
            if same_bytes(attr.name.as_slice(), b"objectclass".as_slice()) {
                Ok(Some(attr))
            } else {
                Ok(None)
            }
        }
        Err(KeyFault::BadName { .. }) => Ok(None),
        Err(_) => Err(NoMemory),
    }
}

/// Whether the value is one of `nsTombstone`.
fn is_tombstone(alloc: Global, attr: &AttrKey, value: &[u8]) -> Result<bool, NoMemory>
    requires { attr.now.name ≡ codes "objectclass" }
    ensures { IfOk result (λ is. is ≡ is_some_of (codes "nstombstone") (value_of Kind.Dir value.now)) }
{
    match value_key(alloc, attr, value) {
        Ok(key) => Ok(same_bytes(key.as_slice(), b"nstombstone".as_slice())),
        Err(KeyFault::BadValue { .. }) => Ok(false),
        Err(_) => Err(NoMemory),
    }
}

/// Whether these are the class of a tombstone, however they are spelled.
fn names_class(alloc: Global, name: &[u8], value: &[u8]) -> Result<bool, NoMemory>
    ensures { IfOk result (λ is. is ≡ names_class name.now value.now) }
{
    match class_attr(alloc, name)? {
        Some(attr) => is_tombstone(alloc, &attr, value),
        None => Ok(false),
    }
}

/// Whether the filter is the equality that asks for tombstones.
fn is_it(alloc: Global, filter: &Filter) -> Result<bool, NoMemory>
    ensures { IfOk result (λ is. is ≡ is_it filter.now) }
{
    match filter {
        Filter::Equality { name, value } => names_class(alloc, name.as_slice(), value.as_slice()),
        _ => Ok(false),
    }
}

fn any_is_it(alloc: Global, filters: &[Filter]) -> Result<bool, NoMemory>
    ensures { IfOk result (λ is. is ≡ list_any is_it filters.now) }
{
    for filter in filters {
        if is_it(alloc, filter)? {
            return Ok(true);
        }
    }
    Ok(false)
}

/// Whether a search with this filter is one of tombstones.
pub(crate) fn asks_tombstones(alloc: Global, filter: &Filter) -> Result<bool, NoMemory>
    ensures { IfOk result (λ asks. asks ≡ asks_tombstones filter.now) }
{
    match filter {
        Filter::And(inside) => any_is_it(alloc, inside.as_slice()),
        _ => is_it(alloc, filter),
    }
}

fn id_in_parts(avas: &[Ava]) -> Option<&Bytes>
    ensures { option_copied result ≡ id_in_parts avas.now }
{
    match avas {
        [ava] => {
            if same_bytes(ava.attr.name.as_slice(), b"nsuniqueid".as_slice()) {
                Some(&ava.val.key)
            } else {
                None
            }
        }
        _ => None,
    }
}

/// The id in a name that has it alone.
fn id_in(rdns: &[Rdn]) -> Option<&Bytes>
    ensures { option_copied result ≡ id_in rdns.now }
{
    match rdns {
        [rdn] => id_in_parts(rdn.avas.as_slice()),
        _ => None,
    }
}

fn is_named(rdns: &[Rdn], id: &[u8]) -> bool
    ensures { result ≡ is_named rdns.now id.now }
{
    match id_in(rdns) {
        Some(key) => same_bytes(key.as_slice(), id),
        None => false,
    }
}

fn is_wanted(everything: bool, rdns: &[Rdn], id: &[u8]) -> bool
    ensures { result ≡ is_wanted everything rdns.now id.now }
{
    if everything { true } else { is_named(rdns, id) }
}

fn names_one(rdns: &[Rdn], ids: &[Uid]) -> bool
    ensures { result ≡ list_any (λ (u : Uid). is_named rdns.now (uid_text u)) ids.now }
{
    ids.iter().any(|id| is_named(rdns, id.text().as_slice()))
}

/// Whether the name is that of a tombstone, or of the vector's entry. In time of the tombstones.
pub(crate) fn is_dead_name<V: View>(alloc: Global, view: &V, rdns: &[Rdn]) -> Result<bool, NoMemory>
    ensures { IfOk result (λ is. is ≡ is_dead_name (V.view view.now) rdns.now) }
{
    let ids = view.tombstones(alloc)?;
    Ok(or(
        names_one(rdns, ids.as_slice()),
        is_named(rdns, VECTOR_ID.as_slice()),
    ))
}

pub(crate) fn has_base(scope: Scope) -> bool
    ensures { result ≡ has_base scope }
{
    match scope {
        Scope::Base | Scope::Subtree => true,
        Scope::Children => false,
    }
}

pub(crate) fn has_children(scope: Scope) -> bool
    ensures { result ≡ has_children scope }
{
    match scope {
        Scope::Base => false,
        Scope::Children | Scope::Subtree => true,
    }
}

/// Takes a tombstone if the filter says Yes of it. Takes no memory for another one.
fn take_tombstone<V: View>(
    alloc: Global,
    view: &V,
    query: &Query,
    id: Uid,
    hits: &mut Hits,
) -> Result<(), NoMemory>
    requires { IsTree (V.view view.now) }
    ensures takes { OnOk result ((r : SearchRequest) (all : List ShownEntry) → Asks query.now r → hits.old ≡ told r all → hits.new ≡ told r (all ++ gives_tombstone (V.view view.now) r.filter id)) }

    // Where memory runs out, it was taken for a tombstone of which the filter says Yes.
    ensures memory { OnErr result (MayTakeTombstone (V.view view.now) query.now id) }
{
    if is_gone_match(view, &query.filter, id) {
        if let Some(entry) = view.tombstone(alloc, id)? {
            query.take(alloc, entry, hits)?;
        }
    }
    Ok(())
}

/// Takes a tombstone that is wanted, if the filter says Yes of it.
fn visit_dead<V: View>(
    alloc: Global,
    view: &V,
    query: &Query,
    everything: bool,
    rdns: &[Rdn],
    id: Uid,
    hits: &mut Hits,
) -> Result<(), NoMemory>
    requires { IsTree (V.view view.now) }
    ensures { OnOk result ((r : SearchRequest) (all : List ShownEntry) → Asks query.now r → hits.old ≡ told r all → hits.new ≡ told r (all ++ gives_dead (V.view view.now) r.filter (is_wanted everything rdns.now) id)) }
{
    if is_wanted(everything, rdns, id.text().as_slice()) {
        take_tombstone(alloc, view, query, id, hits)?;
    }
    Ok(())
}

fn visit_vector(
    alloc: Global,
    suffix: &[u8],
    vector: &VectorText,
    query: &Query,
    is_wanted: bool,
    hits: &mut Hits,
) -> Result<(), NoMemory>
    ensures { OnOk result ((r : SearchRequest) (all : List ShownEntry) → Asks query.now r → hits.old ≡ told r all → hits.new ≡ told r (all ++ gives_vector suffix.now vector.now r.filter is_wanted)) }
{
    if is_wanted {
        let entry = vector_entry(alloc, suffix, vector)?;
        query.take_meant(alloc, entry, hits)?;
    }
    Ok(())
}

#[tactic(auto, using(repl_data::proofs::Loops::flat_map_more))]
fn visit_all_dead<V: View>(
    alloc: Global,
    view: &V,
    query: &Query,
    everything: bool,
    rdns: &[Rdn],
    ids: &[Uid],
) -> Result<Hits, NoMemory>
    requires { IsTree (V.view view.now) }
    ensures { IfOk result (λ hits. (r : SearchRequest) → Asks query.now r → hits ≡ told r (flat_map (gives_dead (V.view view.now) r.filter (is_wanted everything rdns.now)) ids.now)) }
{
    let mut hits = no_hits(alloc);
    for id in ids {
        visit_dead(alloc, view, query, everything, rdns, *id, &mut hits)?;
    }
    Ok(hits)
}

/// What a search of tombstones finds: of all of them and the vector's entry, or of the one that the name names.
/// A tombstone that is not answered takes no memory; the vector's entry is made to be looked at.
pub(crate) fn dead_hits<V: View>(
    alloc: Global,
    view: &V,
    vector: &VectorText,
    query: &Query,
    everything: bool,
    rdns: &[Rdn],
) -> Result<Hits, NoMemory>
    requires { IsTree (V.view view.now) }
    ensures { IfOk result (λ hits. (r : SearchRequest) → Asks query.now r → hits ≡ told r (dead_found (V.view view.now) vector.now r.filter everything rdns.now)) }
{
    let ids = view.tombstones(alloc)?;
    let mut hits = visit_all_dead(alloc, view, query, everything, rdns, ids.as_slice())?;
    let wanted = is_wanted(everything, rdns, VECTOR_ID.as_slice());
    visit_vector(alloc, view.suffix_name(), vector, query, wanted, &mut hits)?;
    Ok(hits)
}
