//! Entries as they show: their printed names, and tombstones.
ghost use Rattle.std.specs.Prelude.{◌≡◌, ◌∷◌, List, ℕ, true, false, not, Some, None, [], IfOk, MatchOption, if◌then◌else◌};
ghost use Rattle.std.specs.Option.{option_copied};
ghost use Rattle.repl_data.specs.Order.{uid_eq, suffix_id};
ghost use Rattle.repl_data.specs.Facts.{EntryFacts};
ghost use Rattle.repl_data.specs.Presence.{is_live, present_of, is_among_entries};
ghost use Rattle.repl_data.specs.Names.{has_name, shown_rdn};
ghost use Rattle.repl_data.specs.View.{view_of_facts, path_of, dn_of, dn_below, entry_of, present_shown, tombstone_of, tombstone_rdn, tombstone_shown};
ghost use Rattle.repl_data.specs.Lent.{tombstone_own_of, tombstone_parent_of};
ghost use Rattle.stamp_entry.specs.Shown.{users_shown};
ghost use Rattle.urp_tree.specs.Rows.{row_at, facts_in};
ghost use Rattle.urp_tree.specs.Known.{IsTree};
ghost use Rattle.urp_tree.specs.Seen.{present_entry, tombstone, contested_dn, IsChildAt, IsKept, IsHere};

use crate::asked::{gone_row, is_root, lost, present_row};
use crate::room::seat_count;
use crate::row::Row;
use crate::seat::Rows;
use crate::way::row_of;
use repl_data::{Bytes, Items, NoMemory, Rdn, Shown, ShownEntry, Uid};
use shown_entry::{dn_text, tombstone_rdn, with_id};
use stamp_entry::StampedEntry;
use std::alloc::Global;

pub(crate) fn copied(rdn: &Rdn) -> Result<Rdn, NoMemory>
    ensures { IfOk result (λ copy. copy ≡ rdn.now) }
{
    Ok(rdn.clone()?)
}

/// The relative name that a present entry shows. One look-up, and a copy of the name.
pub(crate) fn shown_name(rows: &Rows, alloc: Global, entry: &StampedEntry) -> Result<Rdn, NoMemory>
    requires tree { IsTree rows.now None [] }
    requires parent { is_among_entries (facts_in rows.now.entries) entry.now.parent ≡ true }
    ensures { IfOk result (λ rdn. rdn ≡ shown_rdn (present_of (facts_in rows.now.entries)) entry.now) }
{
    if lost(rows, entry) {
        return with_id(alloc, entry.id, &entry.rdn);
    }
    copied(&entry.rdn)
}

fn above(entry: &StampedEntry) -> Uid
    ensures { result ≡ entry.now.parent }
{
    entry.parent
}

/// An entry that is not the suffix entry. One look-up.
fn child_at(rows: &Rows, id: Uid) -> Option<&StampedEntry>
    ensures { MatchOption result (uid_eq id suffix_id ≡ false → row_at rows.now id ≡ None) (λ e. IsChildAt rows.now id e.now) }
{
    if is_root(id) {
        return None;
    }
    let Some(row) = row_of(rows, id) else {
        return None;
    };
    Some(&row.entry)
}

/// The shown relative names from a present entry up to below the suffix entry. Two look-ups for each, and
/// a copy of its name.
fn path(rows: &Rows, alloc: Global, id: Uid) -> Result<Items<Rdn>, NoMemory>
    requires tree { IsTree rows.now None [] }
    requires there { is_among_entries (present_of (facts_in rows.now.entries)) id ≡ true }
    ensures { IfOk result (λ path. (suffix : List ℕ) → path ≡ path_of (view_of_facts suffix (facts_in rows.now.entries)) id) }
{
    let _seats = seat_count(rows);
    let mut path = Items::new(alloc);
    let mut at = id;
    while let Some(entry) = child_at(rows, at) {
        let name = shown_name(rows, alloc, entry)?;
        path.push(name)?;
        at = above(entry);
    }
    Ok(path)
}

/// The printed name of a present entry, below the printed name of the suffix.
fn dn(rows: &Rows, suffix: &[u8], alloc: Global, id: Uid) -> Result<Bytes, NoMemory>
    requires tree { IsTree rows.now None [] }
    requires there { is_among_entries (present_of (facts_in rows.now.entries)) id ≡ true }
    ensures { IfOk result (λ dn. dn ≡ dn_of (view_of_facts suffix.now (facts_in rows.now.entries)) id) }
{
    let path = path(rows, alloc, id)?;
    let dn = dn_text(alloc, suffix, path.as_slice())?;
    Ok(dn)
}

fn tombstone_dn(suffix: &[u8], alloc: Global, id: Uid) -> Result<Bytes, NoMemory>
    ensures { IfOk result (λ dn. (es : List EntryFacts) → dn ≡ dn_below (view_of_facts suffix.now es) (tombstone_rdn id ∷ [])) }
{
    let mut path = Items::new(alloc);
    path.push(tombstone_rdn(alloc, id)?)?;
    let dn = dn_text(alloc, suffix, path.as_slice())?;
    Ok(dn)
}

/// A tombstone as it shows, by its id directly below the suffix.
fn gone_shown(suffix: &[u8], alloc: Global, row: &Row) -> Result<ShownEntry, NoMemory>
    requires { row.now.shown ≡ users_shown row.now.entry }
    ensures { IfOk result (λ shown. (es : List EntryFacts) → shown ≡ tombstone_shown (view_of_facts suffix.now es) (tombstone row.now.entry)) }
{
    let id = row.entry_id();
    let parent = above(&row.entry);
    let dn = tombstone_dn(suffix, alloc, id)?;
    shown_entry::tombstone_shown(alloc, id, dn, parent, &row.shown)
}

/// A tombstone as it shows. One look-up, and a copy of its values.
pub(crate) fn tombstone(
    rows: &Rows,
    suffix: &[u8],
    alloc: Global,
    id: Uid,
) -> Result<Option<ShownEntry>, NoMemory>
    requires { IsTree rows.now None [] }
    ensures { IfOk result (λ shown. shown ≡ tombstone_of (view_of_facts suffix.now (facts_in rows.now.entries)) id) }
{
    match gone_row(rows, id) {
        Some(row) => Ok(Some(gone_shown(suffix, alloc, row)?)),
        None => Ok(None),
    }
}

/// The user attributes that a tombstone shows. One look-up.
pub(crate) fn tombstone_own(rows: &Rows, id: Uid) -> Option<&[Shown]>
    requires { IsTree rows.now None [] }
    ensures { (suffix : List ℕ) → option_copied result ≡ tombstone_own_of (view_of_facts suffix (facts_in rows.now.entries)) id }
{
    match gone_row(rows, id) {
        Some(row) => Some(row.shown.as_slice()),
        None => None,
    }
}

/// The parent that a tombstone had. One look-up.
pub(crate) fn tombstone_parent(rows: &Rows, id: Uid) -> Option<Uid>
    requires { IsTree rows.now None [] }
    ensures { (suffix : List ℕ) → result ≡ tombstone_parent_of (view_of_facts suffix (facts_in rows.now.entries)) id }
{
    match gone_row(rows, id) {
        Some(row) => Some(above(&row.entry)),
        None => None,
    }
}

fn own_name(entry: &StampedEntry) -> Result<Rdn, NoMemory>
    ensures { IfOk result (λ rdn. rdn ≡ entry.now.rdn) }
{
    copied(&entry.rdn)
}

/// The relative name that an entry contends for, and then its parent's shown ones.
fn contested_path(rows: &Rows, alloc: Global, entry: &StampedEntry) -> Result<Items<Rdn>, NoMemory>
    requires tree { IsTree rows.now None [] }
    requires parent { is_among_entries (present_of (facts_in rows.now.entries)) entry.now.parent ≡ true }
    ensures { IfOk result (λ names. (suffix : List ℕ) → names ≡ entry.now.rdn ∷ path_of (view_of_facts suffix (facts_in rows.now.entries)) entry.now.parent) }
{
    let mut names = Items::new(alloc);
    let own = own_name(entry)?;
    names.push(own)?;
    let up = above(entry);
    let more = path(rows, alloc, up)?;
    names.append(more)?;
    Ok(names)
}

/// The printed name that an entry contends for, below its parent's shown name.
fn contested_dn(
    rows: &Rows,
    suffix: &[u8],
    alloc: Global,
    entry: &StampedEntry,
) -> Result<Bytes, NoMemory>
    requires tree { IsTree rows.now None [] }
    requires parent { is_among_entries (present_of (facts_in rows.now.entries)) entry.now.parent ≡ true }
    ensures { IfOk result (λ dn. dn ≡ contested_dn (view_of_facts suffix.now (facts_in rows.now.entries)) entry.now) }
{
    let names = contested_path(rows, alloc, entry)?;
    let dn = dn_text(alloc, suffix, names.as_slice())?;
    Ok(dn)
}

/// The printed name that a present entry lost.
fn lost_dn(
    rows: &Rows,
    suffix: &[u8],
    alloc: Global,
    entry: &StampedEntry,
) -> Result<Option<Bytes>, NoMemory>
    requires tree { IsTree rows.now None [] }
    requires parent { is_among_entries (present_of (facts_in rows.now.entries)) entry.now.parent ≡ true }
    ensures { IfOk result (λ dn. dn ≡ (if has_name (present_of (facts_in rows.now.entries)) entry.now then None else Some (contested_dn (view_of_facts suffix.now (facts_in rows.now.entries)) entry.now))) }
{
    if lost(rows, entry) {
        let dn = contested_dn(rows, suffix, alloc, entry)?;
        return Ok(Some(dn));
    }
    Ok(None)
}

fn is_glue(entry: &StampedEntry) -> bool
    ensures { result ≡ not (is_live entry.now) }
{
    !entry.is_live()
}

fn present_shown(
    rows: &Rows,
    suffix: &[u8],
    alloc: Global,
    row: &Row,
) -> Result<ShownEntry, NoMemory>
    requires tree { IsTree rows.now None [] }
    requires keeps { IsKept (facts_in rows.now.entries) row.now }
    requires here { IsHere (facts_in rows.now.entries) row.now }
    ensures { IfOk result (λ shown. shown ≡ present_shown (view_of_facts suffix.now (facts_in rows.now.entries)) (present_entry (present_of (facts_in rows.now.entries)) row.now.entry)) }
{
    let id = row.entry_id();
    let dn = dn(rows, suffix, alloc, id)?;
    let lost = lost_dn(rows, suffix, alloc, &row.entry)?;
    let glue = is_glue(&row.entry);
    shown_entry::present_shown(alloc, id, dn, glue, lost, &row.shown)
}

/// A present entry as it shows. Takes a copy of its values and of its ancestors' names, and two look-ups
/// for each of them.
pub(crate) fn entry(
    rows: &Rows,
    suffix: &[u8],
    alloc: Global,
    id: Uid,
) -> Result<Option<ShownEntry>, NoMemory>
    requires { IsTree rows.now None [] }
    ensures { IfOk result (λ shown. shown ≡ entry_of (view_of_facts suffix.now (facts_in rows.now.entries)) id) }
{
    match present_row(rows, id) {
        Some(row) => Ok(Some(present_shown(rows, suffix, alloc, row)?)),
        None => Ok(None),
    }
}
