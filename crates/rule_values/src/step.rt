//! One modification of the values that an entry has.

ghost use Rattle.std.specs.Prelude.{◌≡◌, true, [], IfOk, OnOk};
ghost use Rattle.repl_data.specs.declared.change.ModKind.TheVariants.{Add, Delete, Replace};
ghost use Rattle.repl_data.specs.Check.{is_empty};
ghost use Rattle.repl_data.specs.Ordered.{Rises};
ghost use Rattle.rule_values.specs.Having.{attr_name, val_key, held, changed, with_new, without_one, left_of};
ghost use Rattle.rule_values.specs.Refusing.{Gives};
ghost use Rattle.rule_values.specs.Modify.{fits, after};

use crate::case::refuse_if;
use crate::fault::{Refusal, ValueFault};
use crate::headed::copy_key;
use crate::held::take_held;
use crate::table::{Table, put_attribute};
use crate::val_set::{ValSet, copy, copy_list};
use repl_data::{AttrKey, Mod, ModKind, NoMemory, Shown, Val, ValList};
use std::alloc::Global;

fn is_empty(vals: &ValList) -> bool
    ensures { result ≡ is_empty vals.now }
{
    match vals.as_slice().first() {
        Some(_) => false,
        None => true,
    }
}

/// With one value more, which may not be held.
fn with_new(alloc: Global, had: ValSet, val: &Val) -> Result<ValSet, ValueFault>
    ensures { Gives result (with_new val.now had) }
{
    let (vals, was) = had.with(alloc, copy(val)?)?;
    refuse_if(was, Refusal::HeldAlready)?;
    Ok(vals)
}

/// The values with those that are added, one after the other.
fn added(alloc: Global, vals: &[Val], had: ValSet) -> Result<ValSet, ValueFault>
    requires { Rises val_key vals.now }
    ensures { Gives result (changed Add vals.now had) }
{
    let mut all = had;
    for val in vals {
        all = with_new(alloc, all, val)?;
    }
    Ok(all)
}

/// Values that there were not.
fn replaced(vals: &ValList) -> Result<ValSet, NoMemory>
    requires { Rises val_key vals.now }
    ensures { IfOk result (λ all. all ≡ vals.now) }
{
    let copy = copy_list(vals)?;
    Ok(ValSet::of(copy))
}

/// The values after an add: where there was none, they are copied as they are.
fn after_add(alloc: Global, vals: &ValList, had: ValSet) -> Result<ValSet, ValueFault>
    requires { Rises val_key vals.now }
    ensures { Gives result (changed Add vals.now had) }
{
    if had.is_empty() {
        let all = replaced(vals)?;
        return Ok(all);
    }
    added(alloc, vals.as_slice(), had)
}

/// Without one value, which must be held.
fn without_one(alloc: Global, had: ValSet, val: &Val) -> Result<ValSet, ValueFault>
    ensures { Gives result (without_one val.now had) }
{
    let key = copy_key(val)?;
    let (vals, was) = had.without(alloc, &key)?;
    refuse_if(!was, Refusal::NotHeld)?;
    Ok(vals)
}

/// The values without those that go, one after the other.
fn deleted(alloc: Global, vals: &[Val], had: ValSet) -> Result<ValSet, ValueFault>
    requires { Rises val_key vals.now }
    ensures { Gives result (left_of vals.now had) }
{
    let mut left = had;
    for val in vals {
        left = without_one(alloc, left, val)?;
    }
    Ok(left)
}

/// No value is left of those that there were.
#[tactic(auto, unfolding(crate::specs::Having::changed))]
fn cleared(alloc: Global, had: &ValSet) -> Result<ValSet, ValueFault>
    ensures { Gives result (changed Delete [] had.now) }
{
    refuse_if(had.is_empty(), Refusal::NotHeld)?;
    Ok(ValSet::new(alloc))
}

/// The values after a delete of some, or of all where none is named.
fn after_delete(alloc: Global, vals: &ValList, had: ValSet) -> Result<ValSet, ValueFault>
    requires { Rises val_key vals.now }
    ensures { Gives result (changed Delete vals.now had) }
{
    if is_empty(vals) {
        cleared(alloc, &had)
    } else {
        deleted(alloc, vals.as_slice(), had)
    }
}

/// The values after a modification that fits.
#[tactic(auto, unfolding(crate::specs::Having::changed))]
fn changed(alloc: Global, m: &Mod, had: ValSet) -> Result<ValSet, ValueFault>
    requires { Rises val_key m.now.vals }
    ensures { Gives result (changed m.now.kind m.now.vals had) }
{
    match m.kind {
        ModKind::Add => after_add(alloc, &m.vals, had),
        ModKind::Delete => after_delete(alloc, &m.vals, had),
        ModKind::Replace => {
            let all = replaced(&m.vals)?;
            Ok(all)
        }
    }
}

fn copy_attr(attr: &AttrKey) -> Result<AttrKey, NoMemory>
    ensures { IfOk result (λ copy. copy ≡ attr.now) }
{
    let copy = attr.clone()?;
    Ok(copy)
}

/// Carries out one modification.
pub(crate) fn carry(
    alloc: Global,
    own: &[Shown],
    touched: &mut Table,
    m: &Mod,
) -> Result<(), ValueFault>
    requires ordered { Rises attr_name touched.old }
    requires vals { Rises val_key m.now.vals }
    ensures fits { Gives result (fits m.now.kind m.now.vals (held own.now touched.old m.now.attr.name)) }
    ensures after { OnOk result (held own.now touched.new ≡ after (held own.now touched.old) m.now) }
    ensures ordered { OnOk result (Rises attr_name touched.new) }
{
    let had = take_held(alloc, own, touched, &m.attr)?;
    let vals = changed(alloc, m, had)?;
    put_attribute(touched, copy_attr(&m.attr)?, vals)?;
    Ok(())
}
