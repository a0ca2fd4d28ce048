//! The values of one attribute as a client lists them, read and then sorted once.

ghost use Rattle.std.specs.Prelude.{◌≡◌, true, [], IfOk, OnOk};
ghost use Rattle.std.specs.List.{IsAllAdjacentAnswer};
ghost use Rattle.std.specs.List.Sorted.{IsPermutation, IsSorted};
ghost use Rattle.std.specs.Ordering.{is_lt};
ghost use Rattle.repl_data.specs.declared.change.Val.{Val};
ghost use Rattle.repl_data.specs.Ordered.{Rises};
ghost use Rattle.rule_values.specs.Having.{val_key};
ghost use Rattle.rule_values.specs.Heads.{val_cmp};
ghost use Rattle.rule_values.specs.Listed.{values_beside};
ghost use Rattle.rule_values.specs.Refusing.{Gives};
ghost use Rattle.rule_values.specs.Sorting.{read_one, read_all, stopped, in_turn};

use crate::case::refuse_if;
use crate::fault::{Refusal, ValueFault};
use crate::headed::{Headed, by_key};
use crate::reading::read_value;
use repl_data::{AttrKey, Bytes, NoMemory, Val, ValList, is_derived_value};
use std::alloc::Global;

/// The values before the first that is refused, and why that one is.
#[derive(Drop)]
struct Taken {
    vals: Vec<Headed>,
    why: Option<Refusal>,
}

/// One value, whatever stands beside it.
#[tactic(auto, unfolding(crate::specs::Sorting::read_one))]
fn read_one(alloc: Global, attr: &AttrKey, spelled: &[u8]) -> Result<Val, ValueFault>
    ensures { Gives result (read_one attr.now spelled.now) }
{
    let val = read_value(alloc, attr, spelled)?;
    refuse_if(is_derived_value(attr, &val), Refusal::Derived)?;
    Ok(val)
}

/// Reads the values in the order given.
fn read_all(alloc: Global, attr: &AttrKey, given: &[Bytes]) -> Result<Taken, NoMemory>
    ensures { IfOk result (λ taken. (taken.vals.items, taken.why) ≡ read_all attr.now given.now) }
{
    let mut vals = Vec::with_capacity(alloc, given.len())?;
    for spelled in given {
        match read_one(alloc, attr, spelled.as_slice()) {
            Ok(val) => vals.push(Headed::of(val))?,
            Err(ValueFault::Refused(why)) => {
                let why = Some(why);
                return Ok(Taken { vals, why });
            }
            Err(ValueFault::NoMemory) => return Err(NoMemory),
        }
    }
    Ok(Taken { vals, why: None })
}

/// Puts the values in order of key.
fn sort(vals: &mut Vec<Headed>) -> Result<(), NoMemory>
    ensures same { IsPermutation vals.old.items vals.new.items }
    ensures sorted { OnOk result (IsSorted val_cmp vals.new.items) }
{
    vals.sort_by(|a, b| by_key(a, b))?;
    Ok(())
}

/// Whether each key is below the next one.
fn is_rising(vals: &[Headed]) -> bool
    ensures { IsAllAdjacentAnswer (λ (a : Val) (b : Val) t. t ≡ is_lt (val_cmp a b)) vals.now result }
{
    vals.is_sorted_by(|a, b| by_key(a, b).is_lt())
}

fn stopped(why: Option<Refusal>) -> Result<(), ValueFault>
    ensures { Gives result (stopped why) }
{
    match why {
        None => Ok(()),
        Some(why) => Err(ValueFault::Refused(why)),
    }
}

fn to_list(alloc: Global, headed: Vec<Headed>) -> Result<ValList, NoMemory>
    ensures { IfOk result (λ vals. vals ≡ headed.items) }
{
    let mut vals = Vec::with_capacity(alloc, headed.len())?;
    for one in headed {
        vals.push(one.into_val())?;
    }
    Ok(ValList::from_vec(vals))
}

/// What is said of the values in order.
#[tactic(auto, unfolding(crate::specs::Sorting::in_turn))]
fn in_turn(
    alloc: Global,
    rising: bool,
    why: Option<Refusal>,
    vals: Vec<Headed>,
) -> Result<ValList, ValueFault>
    ensures gives { Gives result (in_turn rising why vals.items) }
    ensures list { IfOk result (λ list. (rising ≡ true) × (list ≡ vals.items)) }
{
    refuse_if(!rising, Refusal::ListedTwice)?;
    stopped(why)?;
    let list = to_list(alloc, vals)?;
    Ok(list)
}

/// The values given, none of which may stand twice, in order of key. They are read in the order given, and sorted
/// once: n values cost n times the logarithm of n comparisons, and n where they rise or fall.
pub(crate) fn sorted_values(
    alloc: Global,
    attr: &AttrKey,
    given: &[Bytes],
) -> Result<ValList, ValueFault>
    ensures gives { Gives result (values_beside attr.now [] given.now) }
    ensures rises { IfOk result (Rises val_key) }
{
    let Taken { mut vals, why } = read_all(alloc, attr, given)?;
    sort(&mut vals)?;
    let rising = is_rising(vals.as_slice());
    in_turn(alloc, rising, why, vals)
}
