//! Searches over a node's tree, and over a snapshot of it.
ghost use Rattle.std.specs.Prelude.{IfOk};
ghost use Rattle.search_core.specs.Tree.{IsTree};

use case_lines::{CaseFault, Fields, or_memory};
use case_views::tell_entries;
use ldap_types::{BytesList, Filter, SearchRequest};
use node_core::NodeState;
use repl_data::{Bytes, Change, Csn, NoMemory, Suffix, Update, VectorText};
use search_core::{Found, search, search_laws};
use std::alloc::Global;
use std::fmt::Write;
use vector_core::{Start, Vector};
use view_snap::Snapshot;

/// Where the supplier 1 stands as it begins.
fn start(alloc: Global, suffix: &Suffix) -> Result<Start, NoMemory> {
    Ok(Start {
        suffix: Bytes::from_slice(alloc, suffix.name.as_slice())?,
        rid: 1,
        front: Vector::new(alloc)?,
    })
}

/// A node with the replica id 2, held by the supplier 1.
fn held(alloc: Global, suffix: &Suffix) -> Result<NodeState, NoMemory> {
    let mut node = NodeState::new(alloc, 2, suffix)?;
    let start = start(alloc, suffix)?;
    match node.acquire(&start, 0) {
        Ok(()) => Ok(node),
        Err(_) => Err(NoMemory),
    }
}

/// The node takes a change of the supplier, of which the one before had this CSN.
fn apply(alloc: Global, node: &mut NodeState, change: &Change, prev: Csn) -> Result<(), NoMemory> {
    let change = change.clone()?;
    let now = change.csn.time;
    match node.apply(alloc, 1, &Update { change, prev }, now) {
        Ok(_) => Ok(()),
        Err(_) => Err(NoMemory),
    }
}

/// The node after the changes of the supplier, which are in order of CSN.
pub fn filled(alloc: Global, suffix: &Suffix, changes: &[Change]) -> Result<NodeState, NoMemory> {
    let mut node = held(alloc, suffix)?;
    let mut prev = Csn::ZERO;
    for change in changes {
        apply(alloc, &mut node, change, prev)?;
        prev = change.csn;
    }
    Ok(node)
}

/// A snapshot of the node's tree.
pub fn snapshot_of(alloc: Global, node: &NodeState) -> Result<Snapshot, NoMemory>
    ensures { IfOk result (λ s. IsTree s.view) }
{
    node.laws();
    search_laws();
    Snapshot::of(alloc, node.view(), 0)
}

/// What a search over the node's tree answers.
pub fn over_tree(
    alloc: Global,
    node: &NodeState,
    vector: &VectorText,
    request: &SearchRequest,
) -> Result<Found, NoMemory> {
    node.laws();
    search_laws();
    search(alloc, node.view(), vector, request)
}

/// What a search over a snapshot answers.
pub fn over_snapshot(
    alloc: Global,
    snapshot: &Snapshot,
    vector: &VectorText,
    request: &SearchRequest,
) -> Result<Found, NoMemory>
    requires { IsTree snapshot.now.view }
{
    search(alloc, snapshot, vector, request)
}

/// What a search over a tree answers, and one over its snapshot.
#[derive(Drop)]
struct Pair {
    tree: Found,
    snapshot: Found,
}

fn answers(alloc: Global, node: &NodeState, request: &SearchRequest) -> Result<Pair, NoMemory> {
    let vector = VectorText::new(alloc);
    let view = snapshot_of(alloc, node)?;
    let snapshot = over_snapshot(alloc, &view, &vector, request)?;
    let tree = over_tree(alloc, node, &vector, request)?;
    Ok(Pair { tree, snapshot })
}

fn equality(alloc: Global, name: &[u8], value: &[u8]) -> Result<Filter, NoMemory> {
    let name = Bytes::from_slice(alloc, name)?;
    let value = Bytes::from_slice(alloc, value)?;
    Ok(Filter::Equality { name, value })
}

/// A search of the whole subtree.
fn below(alloc: Global, base: Bytes, filter: Filter) -> SearchRequest {
    SearchRequest {
        base,
        scope: 2,
        deref: 0,
        size_limit: 0,
        time_limit: 0,
        types_only: false,
        filter,
        attrs: BytesList::new(alloc),
    }
}

/// A search of the whole subtree of the base for a value.
pub fn request(
    alloc: Global,
    base: &[u8],
    name: &[u8],
    value: &[u8],
) -> Result<SearchRequest, NoMemory> {
    let base = Bytes::from_slice(alloc, base)?;
    let filter = equality(alloc, name, value)?;
    Ok(below(alloc, base, filter))
}

/// The base, the name of an attribute and a value.
fn next_request(alloc: Global, fields: &mut Fields<'_>) -> Result<SearchRequest, CaseFault> {
    let base = fields.bytes(alloc)?;
    let name = fields.bytes(alloc)?;
    let value = fields.bytes(alloc)?;
    or_memory(request(alloc, base.as_slice(), name.as_slice(), value.as_slice()))
}

/// The code, and the entries.
fn text_of(alloc: Global, found: &Found) -> Result<String, CaseFault> {
    let code = found.result.code.number;
    let mut told = format!(in alloc; "{code} ")?;
    tell_entries(&mut told, found.entries.as_slice())?;
    Ok(told)
}

fn tell_answers(alloc: Global, answers: &Pair, told: &mut String) -> Result<(), CaseFault> {
    let tree = text_of(alloc, &answers.tree)?;
    let snapshot = text_of(alloc, &answers.snapshot)?;
    told.push_str(snapshot.as_str())?;
    if snapshot.as_str() != tree.as_str() {
        let tree = tree.as_str();
        write!(told, " but over the tree {tree}")?;
    }
    Ok(())
}

/// The base, the name of an attribute and a value, which is searched for below the base. What a search over a snapshot
/// answers, and what one over the tree does, if that is not the same.
pub fn tell_search(
    alloc: Global,
    suffix: &Suffix,
    changes: &[Change],
    fields: &mut Fields<'_>,
    told: &mut String,
) -> Result<(), CaseFault> {
    let request = next_request(alloc, fields)?;
    let node = or_memory(filled(alloc, suffix, changes))?;
    let answers = or_memory(answers(alloc, &node, &request))?;
    tell_answers(alloc, &answers, told)
}
