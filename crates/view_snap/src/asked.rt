//! What is asked of one entry: look-ups.
ghost use Rattle.std.specs.Prelude.{◌≡◌, ◌++◌, List, ℕ, IfOk, OnOk};
ghost use Rattle.std.specs.Option.{option_copied};
ghost use Rattle.repl_data.specs.Order.{uid_cmp};
ghost use Rattle.repl_data.specs.View.{name_of, parent_of, tombstones_of};
ghost use Rattle.repl_data.specs.Lent.{own_of, standing_of, tombstone_own_of, tombstone_parent_of};
ghost use Rattle.cow_map.specs.Rows.{IsRising};
ghost use Rattle.view_snap.specs.Told.{view_of_rows, present_only, gone_only, gone_ids};
ghost use Rattle.view_snap.specs.Maps.{told_at};

use crate::maps::Entries;
use crate::seen::Seen;
use crate::spot::is_root;
use repl_data::{Items, NoMemory, Rdn, Shown, Standing, Uid, UidList};
use std::alloc::Global;

/// What is kept under an id. One look-up.
pub(crate) fn found(entries: &Entries, id: Uid) -> Option<&Seen>
    ensures { option_copied result ≡ told_at entries.now id }
{
    entries.find(&id)
}

/// The name of a present entry or a tombstone. One look-up.
pub(crate) fn name(entries: &Entries, id: Uid) -> Option<&Rdn>
    requires { IsRising uid_cmp entries.now }
    ensures { (suffix : List ℕ) → option_copied result ≡ name_of (view_of_rows suffix entries.now) id }
{
    match found(entries, id) {
        Some(seen) => Some(seen.name()),
        None => None,
    }
}

/// The parent of a present entry or a tombstone. The suffix entry has none. One look-up.
pub(crate) fn parent(entries: &Entries, id: Uid) -> Option<Uid>
    requires { IsRising uid_cmp entries.now }
    ensures { (suffix : List ℕ) → result ≡ parent_of (view_of_rows suffix entries.now) id }
{
    if is_root(id) {
        return None;
    }
    match found(entries, id) {
        Some(seen) => Some(seen.parent()),
        None => None,
    }
}

/// What is kept of a present entry. One look-up.
pub(crate) fn present(entries: &Entries, id: Uid) -> Option<&Seen>
    ensures { option_copied result ≡ present_only (told_at entries.now id) }
{
    let Some(seen) = found(entries, id) else {
        return None;
    };
    if seen.is_present() {
        return Some(seen);
    }
    None
}

/// What is kept of a tombstone. One look-up.
pub(crate) fn gone(entries: &Entries, id: Uid) -> Option<&Seen>
    ensures { option_copied result ≡ gone_only (told_at entries.now id) }
{
    let Some(seen) = found(entries, id) else {
        return None;
    };
    if seen.is_present() {
        return None;
    }
    Some(seen)
}

/// The user attributes that a present entry shows. One look-up.
pub(crate) fn own(entries: &Entries, id: Uid) -> Option<&[Shown]>
    requires { IsRising uid_cmp entries.now }
    ensures { (suffix : List ℕ) → option_copied result ≡ own_of (view_of_rows suffix entries.now) id }
{
    match present(entries, id) {
        Some(seen) => Some(seen.users().as_slice()),
        None => None,
    }
}

/// Whether a present entry is glue, and whether it lost its name. One look-up.
pub(crate) fn standing(entries: &Entries, id: Uid) -> Option<Standing>
    requires { IsRising uid_cmp entries.now }
    ensures { (suffix : List ℕ) → result ≡ standing_of (view_of_rows suffix entries.now) id }
{
    match present(entries, id) {
        Some(seen) => Some(seen.standing()),
        None => None,
    }
}

/// The user attributes that a tombstone shows. One look-up.
pub(crate) fn tombstone_own(entries: &Entries, id: Uid) -> Option<&[Shown]>
    requires { IsRising uid_cmp entries.now }
    ensures { (suffix : List ℕ) → option_copied result ≡ tombstone_own_of (view_of_rows suffix entries.now) id }
{
    match gone(entries, id) {
        Some(seen) => Some(seen.users().as_slice()),
        None => None,
    }
}

/// The parent that a tombstone had. One look-up.
pub(crate) fn tombstone_parent(entries: &Entries, id: Uid) -> Option<Uid>
    requires { IsRising uid_cmp entries.now }
    ensures { (suffix : List ℕ) → result ≡ tombstone_parent_of (view_of_rows suffix entries.now) id }
{
    match gone(entries, id) {
        Some(seen) => Some(seen.parent()),
        None => None,
    }
}

/// The id of a tombstone.
fn push_gone(id: Uid, seen: &Seen, ids: &mut UidList) -> Result<(), NoMemory>
    ensures { OnOk result (ids.new ≡ ids.old ++ gone_ids (id, seen.now)) }
{
    if seen.is_present() {
        return Ok(());
    }
    ids.push(id)?;
    Ok(())
}

/// The tombstones in rising order of id. One look at each entry.
pub(crate) fn tombstones(entries: &Entries, alloc: Global) -> Result<UidList, NoMemory>
    ensures { IfOk result (λ ids. (suffix : List ℕ) → ids ≡ tombstones_of (view_of_rows suffix entries.now)) }
{
    let mut ids = Items::new(alloc);
    let Ok(walk) = entries.walk(alloc) else {
        return Err(NoMemory);
    };
    for (id, seen) in walk {
        push_gone(*id, seen, &mut ids)?;
    }
    Ok(ids)
}
