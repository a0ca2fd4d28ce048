//! The steps of a plan: which children come and go where an entry is put in its place.
ghost use Rattle.std.specs.Prelude.{◌≡◌, ◌≢◌, ◌⊎◌, ◌++◌, ◌∷◌, [], ℕ, suc, length, true, false, Some, None, IfOk, IsTrue, MatchOption};
ghost use Rattle.std.specs.Option.{option_copied};
ghost use Rattle.std.specs.BTreeMap.{IsOrdered};
ghost use Rattle.repl_data.specs.Order.{uid_cmp, uid_eq, suffix_id};
ghost use Rattle.repl_data.specs.Presence.{is_live, is_among_entries, HasParentBelow};
ghost use Rattle.urp_tree.specs.declared.row.Row.{Row};
ghost use Rattle.urp_tree.specs.declared.step.Step.TheVariants.{Enter, Leave};
ghost use Rattle.urp_tree.specs.Rows.{row_at, facts_in};
ghost use Rattle.urp_tree.specs.Walk.{child_of, children_in};
ghost use Rattle.repl_data.specs.declared.change.Suffix.{Suffix};
ghost use Rattle.repl_data.specs.Closed.{is_sound, needed};
ghost use Rattle.stamp_entry.specs.Raised.{is_add};
ghost use Rattle.urp_tree.specs.Known.{IsTree, entry_after};
ghost use Rattle.urp_tree.specs.Climb.{Shows, Hides, is_modify, IsChain, IsWeakAt, IsStrongAt, GoesBy, ComesBy, IsWay, enters, leaves};

use crate::child::Child;
use crate::plan::as_child;
use crate::row::Row;
use crate::seat::Rows;
use crate::step::{Step, StepList};
use repl_data::{Body, Change, Items, NoMemory, Uid};
use stamp_entry::StampedEntry;
use std::alloc::Global;

type ChildList = Items<Child>;

/// The row of an entry. One look-up.
pub(crate) fn row_of(rows: &Rows, id: Uid) -> Option<&Row>
    ensures { option_copied result ≡ row_at rows.now id }
{
    match rows.get(&id) {
        Some(Some(row)) => Some(row),
        _ => None,
    }
}

/// The entry, where it is not live and has just so many present children.
fn weak_at(rows: &Rows, id: Uid, children: usize) -> Option<&StampedEntry>
    ensures { MatchOption result (IsStrongAt children rows.now id) (λ e. IsWeakAt children rows.now id e.now) }
{
    let Some(row) = row_of(rows, id) else {
        return None;
    };
    if row.entry.is_live() {
        return None;
    }
    if row.children != children {
        return None;
    }
    Some(&row.entry)
}

/// From an entry upward, those that are not live and have just so many present children. One
/// look-up and a copy of the name for each.
fn chain(rows: &Rows, alloc: Global, from: Uid, children: usize) -> Result<ChildList, NoMemory>
    requires tree { IsTree rows.now None [] }
    requires ordered { IsOrdered uid_cmp rows.now }
    requires there { is_among_entries (facts_in rows.now.entries) from ≡ true }
    ensures { IfOk result (IsChain children (facts_in rows.now.entries) (children_in rows.now) from) }
{
    let mut chain = Items::new(alloc);
    let mut at = from;
    while let Some(entry) = weak_at(rows, at, children) {
        let child = as_child(entry)?;
        at = child.parent;
        chain.push(child)?;
    }
    Ok(chain)
}

/// They go, from the first one on.
fn leaving(alloc: Global, old: Child, chain: ChildList) -> Result<StepList, NoMemory>
    ensures { IfOk result (λ ss. ss ≡ Leave old ∷ leaves chain) }
{
    let mut steps = Items::new(alloc);
    steps.push(Step::Leave(old))?;
    let mut rest = chain.into_vec();
    rest.reverse();
    while let Some(child) = rest.pop() {
        steps.push(Step::Leave(child))?;
    }
    Ok(steps)
}

/// They come, from the last one on.
fn entering(alloc: Global, chain: ChildList, new: Child) -> Result<StepList, NoMemory>
    ensures { IfOk result (λ ss. ss ≡ enters chain ++ Enter new ∷ []) }
{
    let mut steps = Items::new(alloc);
    let mut rest = chain.into_vec();
    while let Some(child) = rest.pop() {
        steps.push(Step::Enter(child))?;
    }
    steps.push(Step::Enter(new))?;
    Ok(steps)
}

/// The entry goes as it was and comes as it is.
fn moving(alloc: Global, old: &StampedEntry, new: &StampedEntry) -> Result<StepList, NoMemory>
    ensures { IfOk result (λ ss. ss ≡ Leave (child_of old.now) ∷ Enter (child_of new.now) ∷ []) }
{
    let mut steps = Items::new(alloc);
    let old_child = as_child(old)?;
    steps.push(Step::Leave(old_child))?;
    let new_child = as_child(new)?;
    steps.push(Step::Enter(new_child))?;
    Ok(steps)
}

/// The entry goes, with the ancestors that were present for it alone.
fn going(rows: &Rows, alloc: Global, old: &StampedEntry) -> Result<StepList, NoMemory>
    requires tree { IsTree rows.now None [] }
    requires ordered { IsOrdered uid_cmp rows.now }
    requires parent { is_among_entries (facts_in rows.now.entries) old.now.parent ≡ true }
    ensures { IfOk result (GoesBy (facts_in rows.now.entries) (children_in rows.now) old.now) }
{
    let ancestors = chain(rows, alloc, old.parent, 1)?;
    let child = as_child(old)?;
    let steps = leaving(alloc, child, ancestors)?;
    Ok(steps)
}

/// The entry comes, with its absent ancestors.
fn coming(rows: &Rows, alloc: Global, new: &StampedEntry) -> Result<StepList, NoMemory>
    requires tree { IsTree rows.now None [] }
    requires ordered { IsOrdered uid_cmp rows.now }
    requires parent { is_among_entries (facts_in rows.now.entries) new.now.parent ≡ true }
    ensures { IfOk result (ComesBy (facts_in rows.now.entries) (children_in rows.now) new.now) }
{
    let ancestors = chain(rows, alloc, new.parent, 0)?;
    let child = as_child(new)?;
    let steps = entering(alloc, ancestors, child)?;
    Ok(steps)
}

/// It is live or has present children.
pub(crate) fn shows(entry: &StampedEntry, children: usize) -> bool
    ensures yes { result ≡ true → Shows entry.now children }
    ensures no { result ≡ false → Hides entry.now children }
{
    if entry.is_live() {
        return true;
    }
    children > 0
}

/// The steps where an entry takes the place of the one in its row.
fn way_from(rows: &Rows, alloc: Global, row: &Row, new: &StampedEntry) -> Result<StepList, NoMemory>
    requires tree { IsTree rows.now None [] }
    requires ordered { IsOrdered uid_cmp rows.now }
    requires row { row_at rows.now new.now.id ≡ Some row.now }
    requires child { uid_eq new.now.id suffix_id ≡ false }
    requires below { HasParentBelow new.now }
    requires parent { is_among_entries (facts_in rows.now.entries) new.now.parent ≡ true }
    requires same_parent { new.now.parent ≡ row.now.entry.parent }
    ensures { IfOk result (IsWay (suc (length (facts_in rows.now.entries))) (facts_in rows.now.entries) new.now) }
{
    if shows(&row.entry, row.children) {
        if shows(new, row.children) {
            return moving(alloc, &row.entry, new);
        }
        return going(rows, alloc, &row.entry);
    }
    if shows(new, row.children) {
        return coming(rows, alloc, new);
    }
    Ok(Items::new(alloc))
}

/// The steps where an entry takes its place: none but where its presence, name or life changes, one
/// or two for itself, and one for each ancestor whose presence changes with it.
pub(crate) fn way(rows: &Rows, alloc: Global, new: &StampedEntry) -> Result<StepList, NoMemory>
    requires tree { IsTree rows.now None [] }
    requires ordered { IsOrdered uid_cmp rows.now }
    requires child { uid_eq new.now.id suffix_id ≡ false }
    requires below { HasParentBelow new.now }
    requires parent { is_among_entries (facts_in rows.now.entries) new.now.parent ≡ true }
    requires same_parent { (r : Row) → row_at rows.now new.now.id ≡ Some r → new.now.parent ≡ r.entry.parent }
    requires live { row_at rows.now new.now.id ≡ None → is_live new.now ≡ true }
    ensures { IfOk result (IsWay (suc (length (facts_in rows.now.entries))) (facts_in rows.now.entries) new.now) }
{
    match row_of(rows, new.id) {
        Some(row) => way_from(rows, alloc, row, new),
        None => coming(rows, alloc, new),
    }
}

fn is_modify(body: &Body) -> bool
    ensures { result ≡ is_modify body.now }
{
    match body {
        Body::Mod { .. } => true,
        _ => false,
    }
}

/// The steps to the children after a change that leaves its target so. A modify moves none.
pub(crate) fn steps_of(
    rows: &Rows,
    alloc: Global,
    change: &Change,
    new: &StampedEntry,
) -> Result<StepList, NoMemory>
    requires tree { IsTree rows.now None [] }
    requires ordered { IsOrdered uid_cmp rows.now }
    requires sound { IsTrue (is_sound change.now) }
    requires known { is_among_entries (facts_in rows.now.entries) (needed change.now.target change.now.body) ≡ true }
    requires fresh { is_add change.now.body ≡ true → is_among_entries (facts_in rows.now.entries) change.now.target ≡ false }
    requires entry { (suffix : Suffix) → new.now ≡ entry_after suffix change.now (facts_in rows.now.entries) }
    ensures leads { IfOk result (IsWay (suc (length (facts_in rows.now.entries))) (facts_in rows.now.entries) new.now) }
    ensures child { IfOk result (λ ss. (ss ≡ []) ⊎ (uid_eq new.now.id suffix_id ≡ false)) }
{
    if is_modify(&change.body) {
        return Ok(Items::new(alloc));
    }
    way(rows, alloc, new)
}
