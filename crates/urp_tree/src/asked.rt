//! What is asked of one entry: look-ups in the rows.
ghost use Rattle.std.specs.Prelude.{◌≡◌, ◌++◌, List, ℕ, true, false, not, Some, None, IfSome, IfOk, OnOk, []};
ghost use Rattle.std.specs.BTreeMap.{get};
ghost use Rattle.std.specs.Option.{option_copied};
ghost use Rattle.repl_data.specs.Presence.{present_of, is_among_entries};
ghost use Rattle.repl_data.specs.Names.{has_id, has_name};
ghost use Rattle.repl_data.specs.View.{view_of_facts, child_of, name_of, parent_of, tombstones_of};
ghost use Rattle.repl_data.specs.Lent.{own_of, standing_of};
ghost use Rattle.repl_data.specs.Order.{uid_cmp, uid_eq, suffix_id};
ghost use Rattle.urp_tree.specs.Rows.{row_at, fact_of, facts_in};
ghost use Rattle.urp_tree.specs.Known.{IsTree};
ghost use Rattle.urp_tree.specs.Seen.{IsPresentRow, IsGoneRow, IsKept, IsHere, IsAt, gone_ids};

use crate::room::seat_count;
use crate::row::Row;
use crate::seat::Rows;
use crate::way::{row_of, shows};
use repl_data::{Csn, Items, NoMemory, Rdn, Shown, Standing, Uid, UidList};
use stamp_entry::StampedEntry;
use std::alloc::Global;

/// The row of a present entry. One look-up.
pub(crate) fn present_row(rows: &Rows, id: Uid) -> Option<&Row>
    requires { IsTree rows.now None [] }
    ensures row { IsPresentRow (facts_in rows.now.entries) id (option_copied result) }
    ensures keeps { IfSome (option_copied result) (IsKept (facts_in rows.now.entries)) }
    ensures here { IfSome (option_copied result) (IsHere (facts_in rows.now.entries)) }
    ensures at { IfSome (option_copied result) (IsAt rows.now id) }
{
    let _seats = seat_count(rows);
    let Some(row) = row_of(rows, id) else {
        return None;
    };
    if shows(&row.entry, row.children) {
        return Some(row);
    }
    None
}

/// The row of a tombstone. One look-up.
pub(crate) fn gone_row(rows: &Rows, id: Uid) -> Option<&Row>
    requires { IsTree rows.now None [] }
    ensures row { IsGoneRow (facts_in rows.now.entries) id (option_copied result) }
    ensures keeps { IfSome (option_copied result) (IsKept (facts_in rows.now.entries)) }
{
    let _seats = seat_count(rows);
    let Some(row) = row_of(rows, id) else {
        return None;
    };
    if shows(&row.entry, row.children) {
        return None;
    }
    Some(row)
}

/// Another entry has the name that the entry contends for, or would. One look-up.
pub(crate) fn lost(rows: &Rows, entry: &StampedEntry) -> bool
    requires tree { IsTree rows.now None [] }
    requires parent { is_among_entries (facts_in rows.now.entries) entry.now.parent ≡ true }
    ensures { result ≡ not (has_name (present_of (facts_in rows.now.entries)) entry.now) }
{
    let _seats = seat_count(rows);
    match row_of(rows, entry.parent) {
        Some(row) => row.loses(&entry.rdn, !entry.is_live(), entry.named),
        None => false,
    }
}

/// The child that has a name without a part for the id. Two look-ups.
pub(crate) fn holder(rows: &Rows, parent: Uid, rdn: &Rdn) -> Option<Uid>
    requires { IsTree rows.now None [] }
    ensures { (suffix : List ℕ) → has_id rdn.now ≡ false → result ≡ child_of (view_of_facts suffix (facts_in rows.now.entries)) parent rdn.now }
{
    let _seats = seat_count(rows);
    match row_of(rows, parent) {
        Some(row) => row.holder(rdn),
        None => None,
    }
}

/// Whether a present entry is glue, and whether it lost its name. Two look-ups.
pub(crate) fn standing(rows: &Rows, id: Uid) -> Option<Standing>
    requires { IsTree rows.now None [] }
    ensures { (suffix : List ℕ) → result ≡ standing_of (view_of_facts suffix (facts_in rows.now.entries)) id }
{
    match present_row(rows, id) {
        Some(row) => {
            let lost = lost(rows, &row.entry);
            Some(Standing {
                glue: !row.entry.is_live(),
                lost,
            })
        }
        None => None,
    }
}

/// The user attributes that a present entry shows.
pub(crate) fn own(rows: &Rows, id: Uid) -> Option<&[Shown]>
    requires { IsTree rows.now None [] }
    ensures { (suffix : List ℕ) → option_copied result ≡ own_of (view_of_facts suffix (facts_in rows.now.entries)) id }
{
    match present_row(rows, id) {
        Some(row) => Some(row.shown.as_slice()),
        None => None,
    }
}

/// The name of a present entry or a tombstone. One look-up.
pub(crate) fn name(rows: &Rows, id: Uid) -> Option<&Rdn>
    requires { IsTree rows.now None [] }
    ensures { (suffix : List ℕ) → option_copied result ≡ name_of (view_of_facts suffix (facts_in rows.now.entries)) id }
{
    let _seats = seat_count(rows);
    match row_of(rows, id) {
        Some(row) => Some(&row.entry.rdn),
        None => None,
    }
}

pub(crate) fn is_root(id: Uid) -> bool
    ensures { result ≡ uid_eq id suffix_id }
{
    id.csn.compare(Csn::ZERO).is_eq()
}

/// The parent of a present entry or a tombstone. The suffix entry has none. One look-up.
pub(crate) fn parent(rows: &Rows, id: Uid) -> Option<Uid>
    requires { IsTree rows.now None [] }
    ensures { (suffix : List ℕ) → result ≡ parent_of (view_of_facts suffix (facts_in rows.now.entries)) id }
{
    let _seats = seat_count(rows);
    if is_root(id) {
        return None;
    }
    match row_of(rows, id) {
        Some(row) => Some(row.entry.parent),
        None => None,
    }
}

/// The id of a tombstone in a seat.
fn push_gone(rows: &Rows, id: Uid, seat: &Option<Row>, ids: &mut UidList) -> Result<(), NoMemory>
    requires tree { IsTree rows.now None [] }
    requires there { get uid_cmp rows.now id ≡ Some seat.now }
    ensures { OnOk result (ids.new ≡ ids.old ++ gone_ids (facts_in rows.now.entries) (fact_of seat.now)) }
{
    let _seats = seat_count(rows);
    let Some(row) = seat else {
        return Ok(());
    };
    if shows(&row.entry, row.children) {
        return Ok(());
    }
    ids.push(id)?;
    Ok(())
}

/// The tombstones in rising order of id. One look at each entry.
pub(crate) fn tombstones(rows: &Rows, alloc: Global) -> Result<UidList, NoMemory>
    requires { IsTree rows.now None [] }
    ensures { IfOk result (λ ids. (suffix : List ℕ) → ids ≡ tombstones_of (view_of_facts suffix (facts_in rows.now.entries))) }
{
    let _seats = seat_count(rows);
    let mut ids = Items::new(alloc);
    for (id, seat) in rows {
        push_gone(rows, *id, seat, &mut ids)?;
    }
    Ok(ids)
}
