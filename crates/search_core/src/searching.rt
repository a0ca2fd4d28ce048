//! A search.

ghost use Rattle.std.specs.Prelude.{◌≡◌, [], ◌∷◌, filter, IfOk, Ok};
ghost use Rattle.ldap_types.specs.declared.request.SearchRequest.{SearchRequest};
ghost use Rattle.dn_text.specs.Reading.{dn_in};
ghost use Rattle.dn_text.specs.Case.{Gives, result_of};
ghost use Rattle.search_core.specs.Hits.{is_meant};
ghost use Rattle.search_core.specs.Made.{root_entry};
ghost use Rattle.search_core.specs.Tree.{IsTree};
ghost use Rattle.search_core.specs.Search.{told, told_if, dead_found, is_root, read_scope, dead_hits, present_hits, hits_below, hits, found_of, search};
ghost use Rattle.search_core.specs.Scope.{scope_of};
ghost use Rattle.search_core.specs.Query.{Asks};

use crate::dead::{asks_tombstones, dead_hits, has_base, has_children, is_dead_name};
use crate::found::{Found, Hits};
use crate::made::root_entry;
use crate::query::{Query, no_hits};
use crate::scope::{Scope, scope_of};
use crate::walk::present_hits;
use dn_text::{JudgeFault, entry_at, object, rdns_above, result_of};
use ldap_types::{Code, LdapResult, SearchRequest};
use repl_data::{Bytes, NoMemory, Rdn, ShownEntryList, Uid, VectorText, View};
use std::alloc::Global;

fn read_scope(alloc: Global, request: &SearchRequest) -> Result<Scope, JudgeFault>
    ensures { Gives result (read_scope (scope_of request.now.scope)) }
{
    match scope_of(request) {
        Some(scope) => Ok(scope),
        None => Err(JudgeFault::Refused(result_of(alloc, Code::PROTOCOL_ERROR))),
    }
}

fn is_root(rdns: &[Rdn], scope: Scope) -> bool
    ensures { result ≡ is_root rdns.now scope }
{
    match rdns {
        [] => scope == Scope::Base,
        _ => false,
    }
}

/// The root entry, if the filter says Yes of it.
fn root_hits(alloc: Global, suffix: &[u8], query: &Query) -> Result<Hits, NoMemory>
    ensures { IfOk result (λ h. (r : SearchRequest) → Asks query.now r → h ≡ told r (filter (is_meant r.filter) (root_entry suffix.now ∷ []))) }
{
    let mut hits = no_hits(alloc);
    let entry = root_entry(alloc, suffix)?;
    query.take_meant(alloc, entry, &mut hits)?;
    Ok(hits)
}

fn dead_if<V: View>(
    alloc: Global,
    view: &V,
    vector: &VectorText,
    query: &Query,
    inside: bool,
    everything: bool,
    rdns: &[Rdn],
) -> Result<Hits, NoMemory>
    requires { IsTree (V.view view.now) }
    ensures { IfOk result (λ h. (r : SearchRequest) → Asks query.now r → h ≡ told_if inside r (dead_found (V.view view.now) vector.now r.filter everything rdns.now)) }
{
    if inside {
        dead_hits(alloc, view, vector, query, everything, rdns)
    } else {
        Ok(no_hits(alloc))
    }
}

/// A search of tombstones.
fn dead_below<V: View>(
    alloc: Global,
    view: &V,
    vector: &VectorText,
    query: &Query,
    scope: Scope,
    rdns: &[Rdn],
) -> Result<Hits, JudgeFault>
    requires { IsTree (V.view view.now) }
    ensures { (r : SearchRequest) → Asks query.now r → Gives result (dead_hits (V.view view.now) vector.now r scope rdns.now) }
{
    if is_dead_name(alloc, view, rdns)? {
        return Ok(dead_if(alloc, view, vector, query, has_base(scope), false, rdns)?);
    }
    let base = entry_at(alloc, view, rdns)?;
    let inside = has_children(scope) && base == Uid::SUFFIX;
    Ok(dead_if(alloc, view, vector, query, inside, true, rdns)?)
}

/// A search of present entries.
fn present_below<V: View>(
    alloc: Global,
    view: &V,
    query: &Query,
    scope: Scope,
    rdns: &[Rdn],
) -> Result<Hits, JudgeFault>
    requires { IsTree (V.view view.now) }
    ensures { (r : SearchRequest) → Asks query.now r → Gives result (present_hits (V.view view.now) r scope rdns.now) }
{
    let base = entry_at(alloc, view, rdns)?;
    Ok(present_hits(alloc, view, query, scope, base)?)
}

fn hits_below<V: View>(
    alloc: Global,
    view: &V,
    vector: &VectorText,
    request: &SearchRequest,
    query: &Query,
    scope: Scope,
    rdns: &[Rdn],
) -> Result<Hits, JudgeFault>
    requires tree { IsTree (V.view view.now) }
    requires asks { Asks query.now request.now }
    ensures { Gives result (hits_below (V.view view.now) vector.now request.now scope rdns.now) }
{
    if asks_tombstones(alloc, &request.filter)? {
        return dead_below(alloc, view, vector, query, scope, rdns);
    }
    present_below(alloc, view, query, scope, rdns)
}

#[tactic(auto, unfolding(crate::specs::Search::hits))]
fn all_hits<V: View>(
    alloc: Global,
    view: &V,
    vector: &VectorText,
    request: &SearchRequest,
) -> Result<Hits, JudgeFault>
    requires { IsTree (V.view view.now) }
    ensures { Gives result (hits (V.view view.now) vector.now request.now) }
{
    let scope = read_scope(alloc, request)?;
    let name = object(alloc, request.base.as_slice())?;
    let query = Query::new(alloc, request)?;
    if is_root(name.rdns.as_slice(), scope) {
        return Ok(root_hits(alloc, view.suffix_name(), &query)?);
    }
    let rdns = rdns_above(alloc, name, view.suffix_name())?;
    hits_below(alloc, view, vector, request, &query, scope, rdns.as_slice())
}

fn told(alloc: Global, hits: Hits) -> Found
    ensures { result ≡ found_of (Ok hits) }
{
    let code = if hits.over {
        Code::SIZE_LIMIT_EXCEEDED
    } else {
        Code::SUCCESS
    };
    Found {
        entries: hits.entries,
        result: result_of(alloc, code),
    }
}

/// The answer to a search over a view (RFC 4511, section 4.5).
///
/// The first case that fits: a scope other than 0, 1 or 2 is `protocolError`; an unreadable base is
/// `invalidDNSyntax`; the empty name with scope 0 is the root entry; another base outside the suffix, or one that is
/// not there, is `noSuchObject`, with the shown name of the nearest present entry above it. Else the entries in scope
/// of which the filter says Yes, in the order of a listing, with the attributes that are asked for; where a size limit
/// above 0 is passed, the first ones up to it and `sizeLimitExceeded`.
///
/// A filter that asks for the class `nsTombstone`, alone or beside others in an `and`, is about tombstones: these,
/// in order of id, and then the entry of the update vector, whose texts are given by `vector`. Each is named by its
/// id, directly below the suffix.
///
/// Visits the entries in scope, up to the limit, and no others; an entry that is not answered takes no memory, unless it
/// is that of the vector, or lost its name and the filter looks at the values of `nsds5ReplConflict`. The time limit and
/// the handling of aliases are ignored.
pub fn search<V: View>(
    alloc: Global,
    view: &V,
    vector: &VectorText,
    request: &SearchRequest,
) -> Result<Found, NoMemory>
    requires { IsTree (V.view view.now) }
    ensures { IfOk result (λ found. found ≡ search (V.view view.now) vector.now request.now) }
{
    match all_hits(alloc, view, vector, request) {
        Ok(hits) => Ok(told(alloc, hits)),
        Err(JudgeFault::Refused(result)) => Ok(Found {
            entries: ShownEntryList::new(alloc),
            result,
        }),
        Err(JudgeFault::NoMemory) => Err(NoMemory),
    }
}
