//! Where entries stand after the steps of a plan: nowhere, or present, and then whether they lost their names.
ghost use Rattle.std.specs.Prelude.{◌≡◌, ◌⊎◌, ◌&&◌, ℕ, List, [], ◌∷◌, false, true, None, Some, is_some, OnOk, IfOk, slice_get, if◌then◌else◌};
ghost use Rattle.std.specs.List.{AllByRecursion};
ghost use Rattle.std.specs.Option.{option_copied};
ghost use Rattle.std.specs.BTreeMap.{get};
ghost use Rattle.repl_data.specs.declared.csn.Uid.{Uid};
ghost use Rattle.repl_data.specs.Order.{uid_eq, uid_cmp, suffix_id, same_rdn};
ghost use Rattle.urp_names.specs.declared.contenders.Contender.{Contender};
ghost use Rattle.urp_names.specs.Contending.{without};
ghost use Rattle.urp_tree.specs.declared.child.Child.{Child};
ghost use Rattle.urp_tree.specs.declared.step.Step.TheVariants.{Enter, Leave};
ghost use Rattle.urp_tree.specs.Index.{contender, wanting, wants, HasRisingIds};
ghost use Rattle.urp_tree.specs.Walk.{children_in, stepped};
ghost use Rattle.urp_tree.specs.Known.{IsTree};
ghost use Rattle.urp_tree.specs.Climb.{AreTrue, AreLone, IsMove};
ghost use Rattle.urp_tree.specs.Placed.{beats, left_of, came_of, is_beaten, place_in, ArePlaces, HasPlaces, KeepsPlaces, LeavesRest, StaysSo, Turns, IsTurned, Covers, CoversStep};

use crate::asked::{is_root, lost, present_row};
use crate::child::Child;
use crate::named::same_id;
use crate::room::seat_count;
use crate::seat::Rows;
use crate::step::Step;
use crate::way::row_of;
use repl_data::{NoMemory, Rdn, Uid, and};
use std::alloc::Global;
use std::collections::BTreeMap;
use urp_names::{Contender, comes_before};

/// Where entries stand after a plan, by id.
pub(crate) type Places = BTreeMap<Uid, Option<bool>>;

/// Where an entry stands. Two look-ups.
pub(crate) fn place(rows: &Rows, id: Uid) -> Option<bool>
    requires { IsTree rows.now None [] }
    ensures { result ≡ place_in (children_in rows.now) id }
{
    let _seats = seat_count(rows);
    match present_row(rows, id) {
        Some(row) => Some(lost(rows, &row.entry)),
        None => None,
    }
}

fn is_same(a: &Rdn, b: &Rdn) -> bool
    ensures { result ≡ same_rdn a.now b.now }
{
    a == b
}

/// The child contends for this name.
fn wants(parent: Uid, rdn: &Rdn, child: &Child) -> bool
    ensures { result ≡ wants parent rdn.now child.now }
{
    let below = and(same_id(child.parent, parent), !is_root(child.id));
    if below {
        return is_same(rdn, &child.rdn);
    }
    false
}

/// The one that comes to a name comes before this one.
fn beats(entered: Option<&Child>, c: &Contender) -> bool
    ensures { result ≡ beats (option_copied entered.entry) c.now }
{
    match entered {
        Some(child) => {
            let (id, glue, named) = (child.id, child.glue, child.named);
            comes_before(&Contender { id, glue, named }, c)
        }
        None => false,
    }
}

/// The place of one in front of a name that stays there.
fn put_stayer(
    c: &Contender,
    id: Uid,
    entered: Option<&Child>,
    places: &mut Places,
) -> Result<(), NoMemory>
    ensures places { OnOk result ((ds : List Child) → StaysSo ds (option_copied entered.entry) id c.now → ArePlaces ds places.old → ArePlaces ds places.new) }
    ensures keeps { OnOk result (KeepsPlaces places.old places.new) }
    ensures there { OnOk result (uid_eq c.now.id id ≡ false → is_some (get uid_cmp places.new c.now.id) ≡ true) }
{
    if same_id(c.id, id) {
        return Ok(());
    }
    places.insert(c.id, Some(beats(entered, c)))?;
    Ok(())
}

/// The places of those in front of a name that stay there.
fn put_front(
    front: &[Contender],
    id: Uid,
    entered: Option<&Child>,
    places: &mut Places,
) -> Result<(), NoMemory>
    ensures places { OnOk result ((ds : List Child) → AllByRecursion (StaysSo ds (option_copied entered.entry) id) front.now → ArePlaces ds places.old → ArePlaces ds places.new) }
    ensures keeps { OnOk result (KeepsPlaces places.old places.new) }
    ensures covers { OnOk result (HasPlaces places.new id front.now) }
{
    for c in front {
        put_stayer(c, id, entered, places)?;
    }
    Ok(())
}

/// The places of those in front of a name that the entry of this id leaves, and one comes to. A look-up, and a
/// logarithm of looks.
fn put_name(
    rows: &Rows,
    parent: Uid,
    rdn: &Rdn,
    id: Uid,
    entered: Option<&Child>,
    places: &mut Places,
) -> Result<(), NoMemory>
    requires tree { IsTree rows.now None [] }
    ensures places { OnOk result ((ds : List Child) → HasRisingIds ds → Turns parent rdn.now id (option_copied entered.entry) (children_in rows.now) ds → ArePlaces ds places.old → ArePlaces ds places.new) }
    ensures keeps { OnOk result (KeepsPlaces places.old places.new) }
    ensures covers { OnOk result ((ds : List Child) → Turns parent rdn.now id (option_copied entered.entry) (children_in rows.now) ds → Covers (children_in rows.now) ds places.new parent rdn.now id) }
{
    let _seats = seat_count(rows);
    match row_of(rows, parent) {
        Some(row) => put_front(row.front(rdn, id), id, entered, places),
        None => Ok(()),
    }
}

/// The child does not have the name that it comes to. A look-up.
fn loses_after(rows: &Rows, child: &Child) -> bool
    requires { IsTree rows.now None [] }
    ensures { result ≡ is_beaten (without child.now.id (wanting child.now.parent child.now.rdn (children_in rows.now))) (contender child.now) }
{
    let _seats = seat_count(rows);
    match row_of(rows, child.parent) {
        Some(row) => row.loses_but(&child.rdn, child.id, child.glue, child.named),
        None => false,
    }
}

/// The place of one entry.
fn put_place(id: Uid, place: Option<bool>, places: &mut Places) -> Result<(), NoMemory>
    ensures places { OnOk result ((ds : List Child) → place ≡ place_in ds id → ArePlaces ds places.old → ArePlaces ds places.new) }
    ensures keeps { OnOk result (KeepsPlaces places.old places.new) }
    ensures there { OnOk result (is_some (get uid_cmp places.new id) ≡ true) }
{
    places.insert(id, place)?;
    Ok(())
}

/// The places of a child that comes to a name, and of those in front of it.
fn put_entered(rows: &Rows, child: &Child, places: &mut Places) -> Result<(), NoMemory>
    requires tree { IsTree rows.now None [] }
    ensures places { OnOk result ((ds : List Child) → HasRisingIds ds → IsTurned (children_in rows.now) ds (Enter child.now) → ArePlaces ds places.old → ArePlaces ds places.new) }
    ensures keeps { OnOk result (KeepsPlaces places.old places.new) }
    ensures covers { OnOk result ((ds : List Child) → IsTurned (children_in rows.now) ds (Enter child.now) → CoversStep (children_in rows.now) ds places.new (Enter child.now)) }
{
    put_name(
        rows,
        child.parent,
        &child.rdn,
        child.id,
        Some(child),
        places,
    )?;
    let lost = loses_after(rows, child);
    put_place(child.id, Some(lost), places)
}

/// The places of a child that leaves a name, and of those in front of it.
fn put_left(rows: &Rows, child: &Child, places: &mut Places) -> Result<(), NoMemory>
    requires tree { IsTree rows.now None [] }
    ensures places { OnOk result ((ds : List Child) → HasRisingIds ds → IsTurned (children_in rows.now) ds (Leave child.now) → ArePlaces ds places.old → ArePlaces ds places.new) }
    ensures keeps { OnOk result (KeepsPlaces places.old places.new) }
    ensures covers { OnOk result ((ds : List Child) → IsTurned (children_in rows.now) ds (Leave child.now) → CoversStep (children_in rows.now) ds places.new (Leave child.now)) }
{
    put_name(rows, child.parent, &child.rdn, child.id, None, places)?;
    put_place(child.id, None, places)
}

fn put_step(rows: &Rows, step: &Step, places: &mut Places) -> Result<(), NoMemory>
    requires tree { IsTree rows.now None [] }
    ensures places { OnOk result ((ds : List Child) → HasRisingIds ds → IsTurned (children_in rows.now) ds step.now → ArePlaces ds places.old → ArePlaces ds places.new) }
    ensures keeps { OnOk result (KeepsPlaces places.old places.new) }
    ensures covers { OnOk result ((ds : List Child) → IsTurned (children_in rows.now) ds step.now → CoversStep (children_in rows.now) ds places.new step.now) }
{
    match step {
        Step::Enter(child) => put_entered(rows, child, places),
        Step::Leave(child) => put_left(rows, child, places),
    }
}

/// The places of the children of steps and of those in front of their names, where each has a name of its own.
fn step_places(rows: &Rows, alloc: Global, steps: &[Step]) -> Result<Places, NoMemory>
    requires tree { IsTree rows.now None [] }
    requires trues { (n : ℕ) × AreTrue n (children_in rows.now) steps.now }
    requires lone { AreLone steps.now }
    ensures places { IfOk result (ArePlaces (stepped steps.now (children_in rows.now))) }
    ensures covers { IfOk result (λ places. AllByRecursion (CoversStep (children_in rows.now) (stepped steps.now (children_in rows.now)) places) steps.now) }
{
    let mut places = BTreeMap::new(alloc);
    for s in steps {
        put_step(rows, s, &mut places)?;
    }
    Ok(places)
}

fn lone_places(rows: &Rows, alloc: Global, steps: &[Step]) -> Result<Places, NoMemory>
    requires tree { IsTree rows.now None [] }
    requires trues { (n : ℕ) × AreTrue n (children_in rows.now) steps.now }
    requires lone { AreLone steps.now }
    ensures places { IfOk result (ArePlaces (stepped steps.now (children_in rows.now))) }
    ensures rest { IfOk result (LeavesRest (children_in rows.now) (stepped steps.now (children_in rows.now))) }
{
    step_places(rows, alloc, steps)
}

/// The one that comes to a name, if it is the name of this child.
fn again<'a>(old: &Child, new: &'a Child) -> Option<&'a Child>
    ensures { option_copied result ≡ (if wants old.now.parent old.now.rdn new.now then Some new.now else None) }
{
    if wants(old.parent, &old.rdn, new) {
        return Some(new);
    }
    None
}

/// The places where one child moves.
fn moved_places(rows: &Rows, alloc: Global, old: &Child, new: &Child) -> Result<Places, NoMemory>
    requires tree { IsTree rows.now None [] }
    requires trues { (n : ℕ) × AreTrue n (children_in rows.now) (Leave old.now ∷ Enter new.now ∷ []) }
    requires same { old.now.id ≡ new.now.id }
    ensures places { IfOk result (ArePlaces (stepped (Leave old.now ∷ Enter new.now ∷ []) (children_in rows.now))) }
    ensures rest { IfOk result (LeavesRest (children_in rows.now) (stepped (Leave old.now ∷ Enter new.now ∷ []) (children_in rows.now))) }
{
    let mut places = BTreeMap::new(alloc);
    put_name(
        rows,
        old.parent,
        &old.rdn,
        old.id,
        again(old, new),
        &mut places,
    )?;
    put_entered(rows, new, &mut places)?;
    Ok(places)
}

fn leaver(step: Option<&Step>) -> Option<&Child>
    ensures { option_copied result ≡ left_of (option_copied step.entry) }
{
    match step {
        Some(Step::Leave(child)) => Some(child),
        _ => None,
    }
}

fn comer(step: Option<&Step>) -> Option<&Child>
    ensures { option_copied result ≡ came_of (option_copied step.entry) }
{
    match step {
        Some(Step::Enter(child)) => Some(child),
        _ => None,
    }
}

/// The child that goes first and comes then, if there are no other steps.
fn first_left(steps: &[Step]) -> Option<&Child>
    ensures { option_copied result ≡ left_of (slice_get steps.now 0) }
{
    leaver(steps.get(0))
}

fn then_came(steps: &[Step]) -> Option<&Child>
    ensures { option_copied result ≡ came_of (slice_get steps.now 1) }
{
    comer(steps.get(1))
}

/// Where those stand after the plan that come or go, and those that give up their names to them or get names from them.
/// For each step a logarithm.
pub(crate) fn places_after(rows: &Rows, alloc: Global, steps: &[Step]) -> Result<Places, NoMemory>
    requires tree { IsTree rows.now None [] }
    requires trues { (n : ℕ) × AreTrue n (children_in rows.now) steps.now }
    requires form { AreLone steps.now ⊎ IsMove steps.now }
    ensures places { IfOk result (ArePlaces (stepped steps.now (children_in rows.now))) }
    ensures rest { IfOk result (LeavesRest (children_in rows.now) (stepped steps.now (children_in rows.now))) }
{
    if steps.len() != 2 {
        return lone_places(rows, alloc, steps);
    }
    match first_left(steps) {
        Some(old) => {
            match then_came(steps) {
                Some(new) => moved_places(rows, alloc, old, new),
                None => lone_places(rows, alloc, steps),
            }
        }
        None => lone_places(rows, alloc, steps),
    }
}

/// The place of the target, if it does not come or go.
pub(crate) fn put_own(rows: &Rows, id: Uid, places: &mut Places) -> Result<(), NoMemory>
    requires tree { IsTree rows.now None [] }
    ensures places { OnOk result ((ds : List Child) → (uid_eq id suffix_id ≡ true → place_in (children_in rows.now) id ≡ place_in ds id) → LeavesRest (children_in rows.now) ds places.old → ArePlaces ds places.old → ArePlaces ds places.new) }
    ensures keeps { OnOk result (KeepsPlaces places.old places.new) }
    ensures there { OnOk result (is_some (get uid_cmp places.new id) ≡ true) }
{
    if places.contains_key(&id) {
        return Ok(());
    }
    put_place(id, place(rows, id), places)
}
