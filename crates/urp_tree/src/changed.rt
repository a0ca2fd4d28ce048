//! What a plan changes of the view.
ghost use Rattle.std.specs.Prelude.{◌≡◌, ◌⊎◌, ◌++◌, List, ℕ, [], None, false, true, suc, length, flat_map, option_map, IfOk, OnOk};
ghost use Rattle.repl_data.specs.Order.{uid_eq, suffix_id};
ghost use Rattle.repl_data.specs.Presence.{is_among_entries, HasParentBelow};
ghost use Rattle.repl_data.specs.View.{view_of_facts};
ghost use Rattle.urp_tree.specs.Rows.{facts_in};
ghost use Rattle.urp_tree.specs.Rows.{row_at};
ghost use Rattle.urp_tree.specs.Climb.{IsWay};
ghost use Rattle.urp_tree.specs.Known.{IsTree, IsPlain, IsLiveRoot, put_fact};
ghost use Rattle.urp_tree.specs.Planned.{IsFreshRow};
ghost use Rattle.urp_tree.specs.Placed.{same_bool, same_place};
ghost use Rattle.urp_tree.specs.Changes.{shown_with, before_of, changed_as, changes_of, AreChanges};
ghost use Rattle.urp_tree.specs.Moves.{IsViewMove, empty_view, told_seat};

use crate::named::same_id;
use crate::places::{Places, place, places_after, put_own};
use crate::room::seat_count;
use crate::row::Row;
use crate::seat::Rows;
use crate::shown::copied;
use crate::step::Step;
use crate::way::row_of;
use repl_data::{Items, NoMemory, Rdn, ShownList, Uid, and};
use shown_entry::with_id;
use stamp_entry::StampedEntry;
use std::alloc::Global;

/// An entry that a plan changes: the target, or one whose presence, glue, shown name or values differ.
#[derive(Debug, Drop)]
pub struct Changed {
    pub id: Uid,
    pub parent: Uid,
    /// The relative name that it contends for.
    pub name: Rdn,
    /// The relative name that it showed before, where it was present.
    pub before: Option<Rdn>,
    /// The relative name that it shows after, where it is present.
    pub after: Option<Rdn>,
    /// It is present and not live.
    pub glue: bool,
    /// The values that it holds.
    pub attrs: ShownList,
}

pub type ChangedList = Items<Changed>;

/// The relative name that an entry shows, whether it lost its own or not.
fn shown_name(alloc: Global, entry: &StampedEntry, lost: bool) -> Result<Rdn, NoMemory>
    ensures { IfOk result (λ rdn. rdn ≡ shown_with entry.now lost) }
{
    if lost {
        return with_id(alloc, entry.id, &entry.rdn);
    }
    copied(&entry.rdn)
}

fn shown(alloc: Global, entry: &StampedEntry, place: Option<bool>) -> Result<Option<Rdn>, NoMemory>
    ensures { IfOk result (λ rdn. rdn ≡ option_map (shown_with entry.now) place) }
{
    match place {
        Some(lost) => Ok(Some(shown_name(alloc, entry, lost)?)),
        None => Ok(None),
    }
}

/// The relative name that an entry shows before. One look-up.
fn shown_before(
    rows: &Rows,
    alloc: Global,
    id: Uid,
    place: Option<bool>,
) -> Result<Option<Rdn>, NoMemory>
    ensures { IfOk result (λ rdn. rdn ≡ before_of (row_at rows.now id) place) }
{
    match row_of(rows, id) {
        Some(row) => shown(alloc, &row.entry, place),
        None => Ok(None),
    }
}

fn copied_values(values: &ShownList) -> Result<ShownList, NoMemory>
    ensures { IfOk result (λ copy. copy ≡ values.now) }
{
    Ok(values.clone()?)
}

/// An entry that changes, as it is in its row.
fn as_changed(
    rows: &Rows,
    alloc: Global,
    row: &Row,
    id: Uid,
    before: Option<bool>,
    after: Option<bool>,
) -> Result<Changed, NoMemory>
    ensures { IfOk result (λ c. c ≡ changed_as rows.now row.now id before after) }
{
    let name = copied(&row.entry.rdn)?;
    let was = shown_before(rows, alloc, id, before)?;
    let is = shown(alloc, &row.entry, after)?;
    let attrs = copied_values(&row.shown)?;
    Ok(Changed {
        id,
        parent: row.entry.parent,
        name,
        before: was,
        after: is,
        glue: and(after.is_some(), !row.entry.is_live()),
        attrs,
    })
}

fn same_bool(a: bool, b: bool) -> bool
    ensures { result ≡ same_bool a b }
{
    if a { b } else { !b }
}

fn same_place(a: Option<bool>, b: Option<bool>) -> bool
    ensures { result ≡ same_place a b }
{
    match a {
        None => {
            match b {
                None => true,
                Some(_) => false,
            }
        }
        Some(a) => {
            match b {
                None => false,
                Some(b) => same_bool(a, b),
            }
        }
    }
}

/// The entry of a place after, if it is the target or stood elsewhere before.
fn push_changed(
    rows: &Rows,
    alloc: Global,
    new: &Row,
    id: Uid,
    after: Option<bool>,
    list: &mut ChangedList,
) -> Result<(), NoMemory>
    requires { IsTree rows.now None [] }
    ensures { OnOk result (list.new ≡ list.old ++ changes_of rows.now new.now (id, after)) }
{
    let before = place(rows, id);
    if same_id(id, new.entry.id) {
        list.push(as_changed(rows, alloc, new, id, before, after)?)?;
        return Ok(());
    }
    if same_place(before, after) {
        return Ok(());
    }
    if let Some(row) = row_of(rows, id) {
        list.push(as_changed(rows, alloc, row, id, before, after)?)?;
    }
    Ok(())
}

fn listed(rows: &Rows, alloc: Global, new: &Row, places: &Places) -> Result<ChangedList, NoMemory>
    requires { IsTree rows.now None [] }
    ensures { IfOk result (λ cs. cs ≡ flat_map (changes_of rows.now new.now) places.now.entries) }
{
    let mut list = Items::new(alloc);
    for (id, after) in places {
        push_changed(rows, alloc, new, *id, *after, &mut list)?;
    }
    Ok(list)
}

/// The target of a plan and the entries that differ, in rising order of id. For each a logarithm, and a copy of its
/// names and of its values.
pub(crate) fn changes(
    rows: &Rows,
    alloc: Global,
    steps: &[Step],
    new: &Row,
) -> Result<ChangedList, NoMemory>
    requires tree { IsTree rows.now None [] }
    requires way { IsWay (suc (length (facts_in rows.now.entries))) (facts_in rows.now.entries) new.now.entry steps.now }
    requires child { (steps.now ≡ []) ⊎ (uid_eq new.now.entry.id suffix_id ≡ false) }
    requires fresh { IsFreshRow new.now }
    requires below { HasParentBelow new.now.entry }
    requires rooted { is_among_entries (facts_in rows.now.entries) new.now.entry.parent ≡ true }
    requires root { IsLiveRoot new.now.entry }
    requires plain { IsPlain new.now.entry }
    ensures changed { IfOk result (λ cs. (suffix : List ℕ) → AreChanges (view_of_facts suffix (facts_in rows.now.entries)) (view_of_facts suffix (put_fact new.now.entry (facts_in rows.now.entries))) new.now.entry.id cs) }
    ensures moves { IfOk result (λ cs. (suffix : List ℕ) → IsViewMove (view_of_facts suffix (facts_in rows.now.entries)) (view_of_facts suffix (put_fact new.now.entry (facts_in rows.now.entries))) cs) }
{
    let _seats = seat_count(rows);
    let mut places = places_after(rows, alloc, steps)?;
    let target = new.entry_id();
    put_own(rows, target, &mut places)?;
    let _count = places.len();
    listed(rows, alloc, new, &places)
}

/// The entry in a seat, as it is. Two look-ups, and a copy of its names and of its values.
fn push_told(
    rows: &Rows,
    alloc: Global,
    id: Uid,
    seat: &Option<Row>,
    list: &mut ChangedList,
) -> Result<(), NoMemory>
    requires { IsTree rows.now None [] }
    ensures { OnOk result (list.new ≡ list.old ++ told_seat rows.now (id, seat.now)) }
{
    let after = place(rows, id);
    if let Some(row) = seat {
        list.push(as_changed(rows, alloc, row, id, None, after)?)?;
    }
    Ok(())
}

/// All entries, as a plan would tell them that adds them all.
pub(crate) fn told(rows: &Rows, alloc: Global) -> Result<ChangedList, NoMemory>
    requires { IsTree rows.now None [] }
    ensures { IfOk result (λ cs. (suffix : List ℕ) → IsViewMove (empty_view suffix) (view_of_facts suffix (facts_in rows.now.entries)) cs) }
{
    let _seats = seat_count(rows);
    let mut list = Items::new(alloc);
    for (id, seat) in rows {
        push_told(rows, alloc, *id, seat, &mut list)?;
    }
    Ok(list)
}
