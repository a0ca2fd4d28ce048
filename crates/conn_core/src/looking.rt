//! Searches and compares.

ghost use Rattle.std.specs.Prelude.{◌≡◌, ◌∷◌, [], codes, Result, IfOk};
ghost use Rattle.repl_data.specs.declared.items.NoMemory.{NoMemory};
ghost use Rattle.repl_data.specs.Check.{is_empty};
ghost use Rattle.search_core.specs.declared.found.Found.{Found};
ghost use Rattle.node_core.specs.Calls.{AreSame};
ghost use Rattle.conn_core.specs.Serving.{has_critical, IsSearched, or_other, Searches, Compares, compare_search, compare_result, IsComparedBy};

use crate::answer::only;
use crate::reply::result_of;
use ldap_rules::{JudgeFault, compared};
use ldap_types::{Bytes, Code, Control, Filter, FilterList, LdapResult, NoMemory, SearchRequest};
use node_core::NodeCalls;
use repl_data::BytesList;
use search_core::Found;
use std::alloc::Global;

fn has_critical(controls: &[Control]) -> bool
    ensures { result ≡ has_critical controls.now }
{
    controls.iter().any(|control| control.critical)
}

fn has_nothing(object: &[u8]) -> bool
    ensures { result ≡ is_empty object.now }
{
    match object.first() {
        Some(_) => false,
        None => true,
    }
}

/// What was found, or `other` where memory was wanting.
fn or_other(alloc: Global, answer: Result<Found, NoMemory>) -> Found
    ensures { result ≡ or_other answer }
{
    match answer {
        Ok(found) => found,
        Err(_short) => only(alloc, result_of(alloc, Code::OTHER)),
    }
}

/// A search (RFC 4511, section 4.5): a critical control is refused, since none is known. `other` where memory is
/// wanting.
pub(crate) fn serve_search<N: NodeCalls>(
    alloc: Global,
    node: &mut N,
    controls: &[Control],
    request: &SearchRequest,
) -> Found
    ensures served { Searches N.reach controls.now request.now node.old node.new result }
    ensures open { AreSame (N.is_open node.old) (N.is_open node.new) }
    ensures committed { AreSame (N.is_committed node.old) (N.is_committed node.new) }
    ensures life { (N.reach.node node.new).life ≡ (N.reach.node node.old).life }
{
    if has_critical(controls) {
        return only(
            alloc,
            result_of(alloc, Code::UNAVAILABLE_CRITICAL_EXTENSION),
        );
    }
    or_other(alloc, node.search(alloc, request))
}

/// All attributes: those of users and the operational ones.
fn all_attrs(alloc: Global) -> Result<BytesList, NoMemory>
    ensures { IfOk result (λ attrs. attrs ≡ codes "*" ∷ codes "+" ∷ []) }
{
    let mut attrs = BytesList::new(alloc);
    attrs.push(Bytes::from_slice(alloc, b"*".as_slice())?)?;
    attrs.push(Bytes::from_slice(alloc, b"+".as_slice())?)?;
    Ok(attrs)
}

/// The search of a compare: of the object alone, with all that it shows.
fn compare_search(alloc: Global, object: &[u8]) -> Result<SearchRequest, NoMemory>
    ensures { IfOk result (λ request. request ≡ compare_search object.now) }
{
    Ok(SearchRequest {
        base: Bytes::from_slice(alloc, object)?,
        scope: 0,
        deref: 0,
        size_limit: 0,
        time_limit: 0,
        types_only: false,
        filter: Filter::And(FilterList::new(alloc)),
        attrs: all_attrs(alloc)?,
    })
}

/// The result of a compare by what its search found.
fn compare_result(
    alloc: Global,
    found: Found,
    name: &[u8],
    value: &[u8],
) -> Result<LdapResult, NoMemory>
    ensures { IfOk result (λ told. told ≡ compare_result found name.now value.now) }
{
    let Found {
        entries,
        result: refusal,
    } = found;
    match entries.as_slice() {
        [] => Ok(refusal),
        [entry, ..] => match compared(alloc, entry.attrs.as_slice(), name, value) {
            Ok(told) => Ok(told),
            Err(JudgeFault::Refused(told)) => Ok(told),
            Err(JudgeFault::NoMemory) => Err(NoMemory),
        },
    }
}

/// The same by what its search answered, or `other` where memory is wanting.
fn compare_told(
    alloc: Global,
    answer: Result<Found, NoMemory>,
    name: &[u8],
    value: &[u8],
) -> LdapResult
    ensures { IsComparedBy answer name.now value.now result }
{
    match answer {
        Ok(found) => match compare_result(alloc, found, name, value) {
            Ok(told) => told,
            Err(_short) => result_of(alloc, Code::OTHER),
        },
        Err(_short) => result_of(alloc, Code::OTHER),
    }
}

/// The result of a compare, by one search.
fn compare_by<N: NodeCalls>(
    alloc: Global,
    node: &mut N,
    request: &SearchRequest,
    name: &[u8],
    value: &[u8],
) -> LdapResult
    ensures searched { (answer : Result Found NoMemory) × IsSearched N.reach request.now node.old node.new answer × IsComparedBy answer name.now value.now result }
    ensures open { AreSame (N.is_open node.old) (N.is_open node.new) }
    ensures committed { AreSame (N.is_committed node.old) (N.is_committed node.new) }
    ensures life { (N.reach.node node.new).life ≡ (N.reach.node node.old).life }
{
    compare_told(alloc, node.search(alloc, request), name, value)
}

/// A compare (RFC 4511, section 4.10), by one search: a critical control is refused, since none is known, and no entry
/// has the empty name. `other` where memory is wanting.
pub(crate) fn serve_compare<N: NodeCalls>(
    alloc: Global,
    node: &mut N,
    controls: &[Control],
    object: &[u8],
    name: &[u8],
    value: &[u8],
) -> LdapResult
    ensures served { Compares N.reach controls.now object.now name.now value.now node.old node.new result }
    ensures open { AreSame (N.is_open node.old) (N.is_open node.new) }
    ensures committed { AreSame (N.is_committed node.old) (N.is_committed node.new) }
    ensures life { (N.reach.node node.new).life ≡ (N.reach.node node.old).life }
{
    if has_critical(controls) {
        return result_of(alloc, Code::UNAVAILABLE_CRITICAL_EXTENSION);
    }
    if has_nothing(object) {
        return result_of(alloc, Code::NO_SUCH_OBJECT);
    }
    let Ok(request) = compare_search(alloc, object) else {
        return result_of(alloc, Code::OTHER);
    };
    compare_by(alloc, node, &request, name, value)
}
