//! How long searches take over a tree, and over a snapshot of it.
ghost use Rattle.search_core.specs.Tree.{IsTree};

use crate::searching::{filled, over_snapshot, over_tree, request, snapshot_of};
use anyhow::Result;
use ldap_types::SearchRequest;
use node_core::NodeState;
use repl_data::{Change, Suffix, VectorText};
use std::time::{Duration, Instant};
use view_snap::Snapshot;

/// How many runs there are, of which the shortest counts.
const RUNS: u32 = 20;

fn time_over_tree(rt: &HostRuntime, node: &NodeState, request: &SearchRequest) -> Result<Duration> {
    let vector = VectorText::new(rt.alloc());
    let start = Instant::now(rt)?;
    let _found = over_tree(rt.alloc(), node, &vector, request)?;
    Ok(start.elapsed(rt)?)
}

fn time_over_snapshot(
    rt: &HostRuntime,
    snapshot: &Snapshot,
    request: &SearchRequest,
) -> Result<Duration>
    requires { IsTree snapshot.now.view }
{
    let vector = VectorText::new(rt.alloc());
    let start = Instant::now(rt)?;
    let _found = over_snapshot(rt.alloc(), snapshot, &vector, request)?;
    Ok(start.elapsed(rt)?)
}

/// The least time over the tree, and over the snapshot, of runs in turns.
fn least(
    rt: &HostRuntime,
    node: &NodeState,
    snapshot: &Snapshot,
    request: &SearchRequest,
) -> Result<(Duration, Duration)>
    requires { IsTree snapshot.now.view }
{
    let (mut tree, mut other) = (Duration::MAX, Duration::MAX);
    for _ in 0..RUNS {
        tree = tree.min(time_over_tree(rt, node, request)?);
        other = other.min(time_over_snapshot(rt, snapshot, request)?);
    }
    Ok((tree, other))
}

/// Prints the nanoseconds of a search for a description over the tree, and over the snapshot.
fn tell_least(
    rt: &HostRuntime,
    node: &NodeState,
    snapshot: &Snapshot,
    description: &str,
) -> Result<()>
    requires { IsTree snapshot.now.view }
{
    let request = request(
        rt.alloc(),
        b"dc=example".as_slice(),
        b"description".as_slice(),
        description.as_bytes(),
    )?;
    let (tree, other) = least(rt, node, snapshot, &request)?;
    let (tree, other) = (tree.as_nanos(), other.as_nanos());
    println!(rt; "search {description} {tree} {other}")?;
    Ok(())
}

/// Prints the times of a search for a value that one entry in a thousand has, and for one that none has.
pub fn tell_searches(rt: &HostRuntime, suffix: &Suffix, changes: &[Change]) -> Result<()> {
    let node = filled(rt.alloc(), suffix, changes)?;
    let snapshot = snapshot_of(rt.alloc(), &node)?;
    tell_least(rt, &node, &snapshot, "d7")?;
    tell_least(rt, &node, &snapshot, "none")
}
