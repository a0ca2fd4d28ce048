//! Room for what the steps of a plan do.
ghost use Rattle.std.specs.Prelude.{◌≡◌, ◌<◌, ◌≤◌, ◌^◌, [], length, None, Some, OnOk};
ghost use Rattle.std.specs.List.{AllByRecursion};
ghost use Rattle.std.specs.BTreeMap.{IsOrdered};
ghost use Rattle.repl_data.specs.Order.{uid_cmp};
ghost use Rattle.urp_tree.specs.declared.step.Step.{Step};
ghost use Rattle.urp_tree.specs.Rows.{facts_in};
ghost use Rattle.urp_tree.specs.Known.{IsTree, HasSeat};
ghost use Rattle.repl_data.specs.Presence.{is_among_entries};
ghost use Rattle.urp_tree.specs.Climb.{RoomFor};

use crate::seat::{Rows, give_back, make_room, seat, tidy};
use crate::step::Step;
use crate::way::row_of;
use repl_data::{NoMemory, Uid};
use std::alloc::Global;

/// How many seats there are, of which each entry has one.
pub(crate) fn seat_count(rows: &Rows) -> usize
    ensures facts { length (facts_in rows.now.entries) ≤ result }
    ensures small { result < 2 ^ 63 }
    ensures ordered { IsOrdered uid_cmp rows.now }
{
    rows.len()
}

/// The entry was added, or is the suffix entry. One look-up.
pub(crate) fn is_known(rows: &Rows, id: Uid) -> bool
    requires { IsTree rows.now None [] }
    ensures { result ≡ is_among_entries (facts_in rows.now.entries) id }
{
    let _seats = seat_count(rows);
    match row_of(rows, id) {
        Some(_) => true,
        None => false,
    }
}

fn room_for(rows: &mut Rows, alloc: Global, step: &Step) -> Result<(), NoMemory>
    requires { IsTree rows.old None [] }
    ensures facts { facts_in rows.new.entries ≡ facts_in rows.old.entries }
    ensures tree { IsTree rows.new None [] }
    ensures kept { (s : Step) → RoomFor rows.old s → RoomFor rows.new s }
    ensures room { OnOk result (RoomFor rows.new step.now) }
{
    match step {
        Step::Enter(child) => make_room(rows, alloc, child.parent, &child.rdn),
        Step::Leave(_) => Ok(()),
    }
}

fn rooms_for(rows: &mut Rows, alloc: Global, steps: &[Step]) -> Result<(), NoMemory>
    requires { IsTree rows.old None [] }
    ensures facts { facts_in rows.new.entries ≡ facts_in rows.old.entries }
    ensures tree { IsTree rows.new None [] }
    ensures rooms { OnOk result (AllByRecursion (RoomFor rows.new) steps.now) }
{
    for s in steps {
        room_for(rows, alloc, s)?;
    }
    Ok(())
}

/// A seat for the entry of this id, and room for what each of the steps does.
pub(crate) fn prepare(
    rows: &mut Rows,
    alloc: Global,
    id: Uid,
    steps: &[Step],
) -> Result<(), NoMemory>
    requires { IsTree rows.old None [] }
    ensures facts { facts_in rows.new.entries ≡ facts_in rows.old.entries }
    ensures tree { IsTree rows.new None [] }
    ensures seat { OnOk result (HasSeat rows.new (Some id)) }
    ensures rooms { OnOk result (AllByRecursion (RoomFor rows.new) steps.now) }
{
    rooms_for(rows, alloc, steps)?;
    seat(rows, id)
}

fn sweep_step(rows: &mut Rows, step: &Step)
    requires { IsTree rows.old None [] }
    ensures facts { facts_in rows.new.entries ≡ facts_in rows.old.entries }
    ensures tree { IsTree rows.new None [] }
{
    match step {
        Step::Enter(child) => tidy(rows, child.parent, &child.rdn),
        Step::Leave(child) => tidy(rows, child.parent, &child.rdn),
    }
}

/// Gives back each slot of the steps' names that nobody contends for.
pub(crate) fn sweep(rows: &mut Rows, steps: &[Step])
    requires { IsTree rows.old None [] }
    ensures facts { facts_in rows.new.entries ≡ facts_in rows.old.entries }
    ensures tree { IsTree rows.new None [] }
{
    for s in steps {
        sweep_step(rows, s);
    }
}

/// Gives back what a plan took that was never installed.
pub(crate) fn forget(rows: &mut Rows, target: Option<Uid>, steps: &[Step])
    requires { IsTree rows.old None [] }
    ensures facts { facts_in rows.new.entries ≡ facts_in rows.old.entries }
    ensures tree { IsTree rows.new None [] }
{
    sweep(rows, steps);
    if let Some(id) = target {
        give_back(rows, id);
    }
}
