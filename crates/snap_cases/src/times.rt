//! How long a tree and its snapshot take to grow, and a snapshot to move by a plan.

use crate::drawn::{Numbers, change_of, entry};
use crate::run::{Run, moved, planned};
use crate::search_times::tell_searches;
use anyhow::{Result, bail};
use case_lines::{CaseFault, or_memory};
use case_views::example_suffix;
use repl_data::{Change, Items, NoMemory, Suffix};
use std::alloc::Global;
use std::time::{Duration, Instant};
use urp_tree::{Plan, UrpTree};
use view_snap::Snapshot;

/// How many moves are measured.
const MOVES: u32 = 200;

/// The entry with this number, from 1 on: each of the first hundred is below the suffix entry, any other below one of
/// these.
fn numbered(alloc: Global, number: u32) -> Result<Change, CaseFault> {
    if number <= 100 {
        return entry(alloc, number, "suffix");
    }
    let above = (number % 100).saturating_add(1);
    let parent = format!(in alloc; "{above}.0.1")?;
    entry(alloc, number, parent.as_str())
}

/// Adds of so many entries.
fn adds(alloc: Global, count: u32) -> Result<Items<Change>, CaseFault> {
    let mut all = Items::new(alloc);
    for number in 0..count {
        let change = numbered(alloc, number.saturating_add(1))?;
        or_memory(all.push(change))?;
    }
    Ok(all)
}

fn take_all(alloc: Global, run: &mut Run, changes: &[Change]) -> Result<(), NoMemory> {
    for change in changes {
        run.take(alloc, change)?;
    }
    Ok(())
}

fn timed_growth(rt: &HostRuntime, run: &mut Run, changes: &[Change]) -> Result<Duration> {
    let start = Instant::now(rt)?;
    take_all(rt.alloc(), run, changes)?;
    Ok(start.elapsed(rt)?)
}

fn timed_plan(rt: &HostRuntime, tree: &mut UrpTree, change: &Change) -> Result<(Plan, Duration)> {
    let start = Instant::now(rt)?;
    let plan = planned(rt.alloc(), tree, change)?;
    let time = start.elapsed(rt)?;
    match plan {
        Some(plan) => Ok((plan, time)),
        None => bail!("a change that may not be taken"),
    }
}

fn timed_move(rt: &HostRuntime, snapshot: &Snapshot, plan: &Plan) -> Result<Duration> {
    let start = Instant::now(rt)?;
    let _after = moved(rt.alloc(), snapshot, plan)?;
    Ok(start.elapsed(rt)?)
}

/// Another description of one of so many entries.
fn modify(alloc: Global, numbers: &mut Numbers, count: u32) -> Result<Change, CaseFault> {
    let number = numbers.below(u64::from(count)).saturating_add(1);
    let words = format!(in alloc; "mod 4000000000.0.1 {number}.0.1 replace:description:new")?;
    change_of(alloc, words.as_str())
}

/// The time of plans for entries in no order, none of which is installed, and that of the moves by them.
fn moves(rt: &HostRuntime, run: &mut Run, count: u32) -> Result<(Duration, Duration)> {
    let mut numbers = Numbers::new(2);
    let (mut plans, mut moves) = (Duration::ZERO, Duration::ZERO);
    for _ in 0..MOVES {
        let change = modify(rt.alloc(), &mut numbers, count)?;
        let (plan, time) = timed_plan(rt, &mut run.tree, &change)?;
        plans = plans.saturating_add(time);
        moves = moves.saturating_add(timed_move(rt, &run.snapshot, &plan)?);
    }
    Ok((plans, moves))
}

/// The nanoseconds of one call.
fn nanos_each(time: Duration, calls: u32) -> u128 {
    time.as_nanos().checked_div(u128::from(calls)).unwrap_or(0)
}

/// Prints the nanoseconds of an add with its move while the tree grows, of a plan that changes a description, and of
/// the move by it.
fn tell_moves(rt: &HostRuntime, suffix: &Suffix, changes: &[Change], count: u32) -> Result<()> {
    let mut run = Run::new(rt.alloc(), suffix)?;
    let grown = nanos_each(timed_growth(rt, &mut run, changes)?, count);
    let (plans, moves) = moves(rt, &mut run, count)?;
    let (plans, moves) = (nanos_each(plans, MOVES), nanos_each(moves, MOVES));
    println!(rt; "moves {grown} {plans} {moves}")?;
    Ok(())
}

/// Prints the times of a tree with so many entries, and those of searches over it and over a snapshot of it.
pub fn measure(rt: &HostRuntime, count: u32) -> Result<()> {
    let suffix = example_suffix(rt.alloc())?;
    let changes = adds(rt.alloc(), count)?;
    tell_moves(rt, &suffix, changes.as_slice(), count)?;
    tell_searches(rt, &suffix, changes.as_slice())
}
