//! A tree that takes changes, and beside it a snapshot that moves with it.
ghost use Rattle.std.specs.Prelude.{◌≡◌, ◌<◌};

use cow_map::Steps;
use repl_data::{Change, NoMemory, Suffix, check};
use std::alloc::Global;
use std::marker::Brand;
use std::sync::ledger::{Blank, Ledger};
use urp_tree::{Plan, UrpTree};
use view_snap::Snapshot;

/// The snapshot after the plan, with a counter over this ledger.
fn moved_over<L: Ledger>(
    alloc: Global,
    blank: Blank,
    snapshot: &Snapshot,
    plan: &Plan,
) -> Result<Snapshot, NoMemory>
    requires name { blank.name ≡ L.name }
    requires parts { blank.parts ≡ L.parts }
    requires some { 0 < blank.parts }
{
    let mut steps: Steps<L> = Steps::new(blank);
    if snapshot.number() < u64::MAX {
        return snapshot.moved(alloc, plan, &mut steps);
    }
    Err(NoMemory)
}

/// The snapshot after the plan, with a counter of its own.
fn moved_with(
    alloc: Global,
    blank: Blank,
    snapshot: &Snapshot,
    plan: &Plan,
) -> Result<Snapshot, NoMemory>
    requires { 0 < blank.parts }
{
    moved_over::<Brand>(alloc, blank, snapshot, plan)
}

/// The snapshot after the plan.
pub fn moved(alloc: Global, snapshot: &Snapshot, plan: &Plan) -> Result<Snapshot, NoMemory> {
    moved_with(alloc, Blank::new(1), snapshot, plan)
}

/// Room for the change, if it may be taken.
pub fn planned(
    alloc: Global,
    tree: &mut UrpTree,
    change: &Change,
) -> Result<Option<Plan>, NoMemory> {
    if check(change).is_err() {
        return Ok(None);
    }
    if !tree.can_take(change) {
        return Ok(None);
    }
    let plan = tree.plan(alloc, change)?;
    Ok(Some(plan))
}

/// The tree takes the change, if it may be taken. The snapshot after it.
fn taken(
    alloc: Global,
    tree: &mut UrpTree,
    snapshot: &Snapshot,
    change: &Change,
) -> Result<Option<Snapshot>, NoMemory> {
    if check(change).is_err() {
        return Ok(None);
    }
    if !tree.can_take(change) {
        return Ok(None);
    }
    let plan = tree.plan(alloc, change)?;
    let after = moved(alloc, snapshot, &plan)?;
    tree.install(plan);
    Ok(Some(after))
}

/// A tree, and the snapshot of it.
#[derive(Drop)]
pub struct Run {
    pub tree: UrpTree,
    pub snapshot: Snapshot,
}

impl Run {
    /// The suffix entry alone.
    pub fn new(alloc: Global, suffix: &Suffix) -> Result<Run, NoMemory> {
        let tree = UrpTree::new(alloc, suffix)?;
        let snapshot = Snapshot::of(alloc, &tree, 0)?;
        Ok(Run { tree, snapshot })
    }

    /// Takes the change, if it may be taken.
    pub fn take(&mut self, alloc: Global, change: &Change) -> Result<bool, NoMemory> {
        match taken(alloc, &mut self.tree, &self.snapshot, change)? {
            Some(after) => {
                self.snapshot = after;
                Ok(true)
            }
            None => Ok(false),
        }
    }
}
