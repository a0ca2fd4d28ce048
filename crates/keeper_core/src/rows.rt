//! Rows in order: a search by halves, a put, a remove, a batch.

ghost use Rattle.std.specs.Prelude.{◌≡◌, ◌+◌, ◌<◌, ◌≤◌, ◌↔◌, length, IfOk, OnOk, OnErr, true, false, IsTrue, vec_len, vec_capacity};
ghost use Rattle.std.specs.List.{AllWithin, HoldsAt};
ghost use Rattle.std.specs.Ordering.{is_lt};
ghost use Rattle.keeper_core.specs.declared.row.Row.{Row};
ghost use Rattle.keeper_core.specs.declared.row.BatchStep.TheVariants.{Put, Remove};
ghost use Rattle.keeper_core.specs.Rows.{IsRising, after_batch, after_step, key_cmp, key_eq};

use crate::row::{Batch, BatchStep, Row, RowKey, RowList};
use repl_data::{Items, NoMemory};

/// Where the row of this key stands, or would stand. A search by halves.
fn place_of(rows: &[Row], key: RowKey) -> usize
    requires { IsRising rows.now }
    ensures within { result ≤ length rows.now }
    ensures below { AllWithin (λ (r : Row). is_lt (key_cmp r.key key) ≡ true) rows.now 0 result }
    ensures above { AllWithin (λ (r : Row). is_lt (key_cmp r.key key) ≡ false) rows.now result (length rows.now) }
{
    rows.partition_point(|row| row.key.compare(key).is_lt())
}

/// The row at this place has this key.
fn stands_at(rows: &[Row], at: usize, key: RowKey) -> bool
    ensures { IsTrue result ↔ ((at < length rows.now) × HoldsAt (λ (r : Row). key_eq key r.key ≡ true) rows.now at) }
{
    at < rows.len() && key.compare(rows[at].key).is_eq()
}

/// Puts the row in its place, or in the place of the row of its key. There is a place for it.
fn put_row(rows: &mut Vec<Row>, row: Row)
    requires rising { IsRising rows.old.items }
    requires room { vec_len rows.old < vec_capacity rows.old }
    ensures value { rows.new.items ≡ after_step rows.old.items (Put row.key row.bytes) }
    ensures len { vec_len rows.new ≤ vec_len rows.old + 1 }
    ensures capacity { vec_capacity rows.old ≤ vec_capacity rows.new }
{
    let at = place_of(rows.as_slice(), row.key);
    if stands_at(rows.as_slice(), at, row.key) {
        rows[at] = row;
    } else {
        rows.insert(at, row).unwrap();
    }
}

/// Takes the row of this key away, if there is one.
fn remove_row(rows: &mut Vec<Row>, key: RowKey)
    requires { IsRising rows.old.items }
    ensures value { rows.new.items ≡ after_step rows.old.items (Remove key) }
    ensures len { vec_len rows.new ≤ vec_len rows.old }
    ensures capacity { vec_capacity rows.old ≤ vec_capacity rows.new }
{
    let at = place_of(rows.as_slice(), key);
    if stands_at(rows.as_slice(), at, key) {
        rows.remove(at);
    }
}

fn take_step(rows: &mut Vec<Row>, step: BatchStep)
    requires rising { IsRising rows.old.items }
    requires room { vec_len rows.old < vec_capacity rows.old }
    ensures value { rows.new.items ≡ after_step rows.old.items step }
    ensures rising { IsRising rows.new.items }
    ensures len { vec_len rows.new ≤ vec_len rows.old + 1 }
    ensures capacity { vec_capacity rows.old ≤ vec_capacity rows.new }
{
    match step {
        BatchStep::Put { key, bytes } => put_row(rows, Row { key, bytes }),
        BatchStep::Remove { key } => remove_row(rows, key),
    }
}

/// Takes the steps one after the other. There are places for all of them.
fn take_steps(rows: &mut Vec<Row>, steps: Vec<BatchStep>)
    requires rising { IsRising rows.old.items }
    requires room { vec_len rows.old + vec_len steps ≤ vec_capacity rows.old }
    ensures value { rows.new.items ≡ after_batch rows.old.items steps.items }
    ensures rising { IsRising rows.new.items }
{
    for step in steps {
        take_step(rows, step);
    }
}

/// Takes the steps of the batch one after the other, or none where memory is short: the copies and
/// the places that it takes are made first.
///
/// Each step is a search by halves, and a move of the rows behind where their number changes.
pub(crate) fn put_all(rows: &mut Vec<Row>, batch: &Batch) -> Result<(), NoMemory>
    requires { IsRising rows.old.items }
    ensures ok { OnOk result (rows.new.items ≡ after_batch rows.old.items batch.now) }
    ensures err { OnErr result (rows.new.items ≡ rows.old.items) }
    ensures rising { IsRising rows.new.items }
{
    let steps = batch.clone()?.into_vec();
    rows.reserve(steps.len())?;
    take_steps(rows, steps);
    Ok(())
}

pub(crate) fn copy_of(rows: &Vec<Row>) -> Result<RowList, NoMemory>
    ensures { IfOk result (λ copy. copy ≡ rows.now.items) }
{
    Ok(Items::from_vec(rows.clone()?))
}
