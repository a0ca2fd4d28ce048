//! Entries as they show: their printed names, and tombstones.
ghost use Rattle.std.specs.Prelude.{◌≡◌, ◌∷◌, List, ℕ, None, [], IfOk, MatchOption};
ghost use Rattle.repl_data.specs.declared.csn.Uid.{Uid};
ghost use Rattle.repl_data.specs.Order.{uid_cmp};
ghost use Rattle.repl_data.specs.View.{path_of, dn_of, dn_below, entry_of, tombstone_of, tombstone_rdn};
ghost use Rattle.cow_map.specs.Rows.{IsRising};
ghost use Rattle.view_snap.specs.Told.{Told, view_of_rows};
ghost use Rattle.view_snap.specs.Maps.{told_at, spot_in, above};
ghost use Rattle.view_snap.specs.Shown.{IsPresentChild, lost_with, shown_with, gone_with};

use crate::asked::{found, gone, present};
use crate::maps::Entries;
use crate::seen::{Seen, copied};
use crate::spot::is_root;
use repl_data::{Bytes, Items, NoMemory, Rdn, ShownEntry, Uid};
use shown_entry::{dn_text, tombstone_rdn};
use std::alloc::Global;

/// A present entry that is not the suffix entry. One look-up.
fn child_at(entries: &Entries, id: Uid) -> Option<&Seen>
    ensures { MatchOption result (spot_in id (told_at entries.now id) ≡ None) (λ s. IsPresentChild entries.now id s.now) }
{
    if is_root(id) {
        return None;
    }
    let Some(seen) = found(entries, id) else {
        return None;
    };
    if seen.is_present() {
        return Some(seen);
    }
    None
}

/// Its parent, if that is below it, and else the suffix entry.
fn above(seen: &Seen, id: Uid) -> Uid
    ensures { result ≡ above seen.now.parent id }
{
    let parent = seen.parent();
    if parent.csn.compare(id.csn).is_lt() {
        return parent;
    }
    Uid::SUFFIX
}

/// The shown relative names from an entry up to below the suffix entry. One look-up for each, and a copy of its name.
fn path(entries: &Entries, alloc: Global, id: Uid) -> Result<Items<Rdn>, NoMemory>
    requires { IsRising uid_cmp entries.now }
    ensures { IfOk result (λ path. (suffix : List ℕ) → path ≡ path_of (view_of_rows suffix entries.now) id) }
{
    let mut path = Items::new(alloc);
    let mut at = id;
    while let Some(seen) = child_at(entries, at) {
        let name = seen.shown_name()?;
        path.push(name)?;
        at = above(seen, at);
    }
    Ok(path)
}

/// The printed name of an entry, below the printed name of the suffix.
fn dn(entries: &Entries, suffix: &[u8], alloc: Global, id: Uid) -> Result<Bytes, NoMemory>
    requires { IsRising uid_cmp entries.now }
    ensures { IfOk result (λ dn. dn ≡ dn_of (view_of_rows suffix.now entries.now) id) }
{
    let path = path(entries, alloc, id)?;
    let dn = dn_text(alloc, suffix, path.as_slice())?;
    Ok(dn)
}

/// A relative name, and then the shown ones from an entry up.
fn path_below(
    entries: &Entries,
    alloc: Global,
    name: &Rdn,
    parent: Uid,
) -> Result<Items<Rdn>, NoMemory>
    requires { IsRising uid_cmp entries.now }
    ensures { IfOk result (λ names. (suffix : List ℕ) → names ≡ name.now ∷ path_of (view_of_rows suffix entries.now) parent) }
{
    let mut names = Items::new(alloc);
    let own = copied(name)?;
    names.push(own)?;
    let more = path(entries, alloc, parent)?;
    names.append(more)?;
    Ok(names)
}

/// The printed name that an entry lost.
fn lost_dn(
    entries: &Entries,
    suffix: &[u8],
    alloc: Global,
    seen: &Seen,
) -> Result<Option<Bytes>, NoMemory>
    requires { IsRising uid_cmp entries.now }
    ensures { IfOk result (λ dn. dn ≡ lost_with (view_of_rows suffix.now entries.now) seen.now) }
{
    if seen.lost() {
        let names = path_below(entries, alloc, seen.name(), seen.parent())?;
        let dn = dn_text(alloc, suffix, names.as_slice())?;
        return Ok(Some(dn));
    }
    Ok(None)
}

fn present_shown(
    entries: &Entries,
    suffix: &[u8],
    alloc: Global,
    id: Uid,
    seen: &Seen,
) -> Result<ShownEntry, NoMemory>
    requires { IsRising uid_cmp entries.now }
    ensures { IfOk result (λ shown. shown ≡ shown_with (view_of_rows suffix.now entries.now) id seen.now) }
{
    let dn = dn(entries, suffix, alloc, id)?;
    let lost = lost_dn(entries, suffix, alloc, seen)?;
    shown_entry::present_shown(alloc, id, dn, seen.glue(), lost, seen.users())
}

/// A present entry as it shows. A copy of its values and of its ancestors' names, and a look-up for each of them.
pub(crate) fn entry(
    entries: &Entries,
    suffix: &[u8],
    alloc: Global,
    id: Uid,
) -> Result<Option<ShownEntry>, NoMemory>
    requires { IsRising uid_cmp entries.now }
    ensures { IfOk result (λ shown. shown ≡ entry_of (view_of_rows suffix.now entries.now) id) }
{
    match present(entries, id) {
        Some(seen) => Ok(Some(present_shown(entries, suffix, alloc, id, seen)?)),
        None => Ok(None),
    }
}

fn tombstone_dn(suffix: &[u8], alloc: Global, id: Uid) -> Result<Bytes, NoMemory>
    ensures { IfOk result (λ dn. (rows : List (Uid × Told)) → dn ≡ dn_below (view_of_rows suffix.now rows) (tombstone_rdn id ∷ [])) }
{
    let mut path = Items::new(alloc);
    path.push(tombstone_rdn(alloc, id)?)?;
    let dn = dn_text(alloc, suffix, path.as_slice())?;
    Ok(dn)
}

/// A tombstone as it shows, by its id directly below the suffix.
fn gone_shown(suffix: &[u8], alloc: Global, id: Uid, seen: &Seen) -> Result<ShownEntry, NoMemory>
    ensures { IfOk result (λ shown. (rows : List (Uid × Told)) → shown ≡ gone_with (view_of_rows suffix.now rows) id seen.now) }
{
    let dn = tombstone_dn(suffix, alloc, id)?;
    shown_entry::tombstone_shown(alloc, id, dn, seen.parent(), seen.users())
}

/// A tombstone as it shows. One look-up, and a copy of its values.
pub(crate) fn tombstone(
    entries: &Entries,
    suffix: &[u8],
    alloc: Global,
    id: Uid,
) -> Result<Option<ShownEntry>, NoMemory>
    requires { IsRising uid_cmp entries.now }
    ensures { IfOk result (λ shown. shown ≡ tombstone_of (view_of_rows suffix.now entries.now) id) }
{
    match gone(entries, id) {
        Some(seen) => Ok(Some(gone_shown(suffix, alloc, id, seen)?)),
        None => Ok(None),
    }
}
