//! What a view answers, as text.

use case_changes::next_uid;
use case_lines::{CaseFault, Fields, or_memory};
use case_views::tell_entry;
use repl_data::{ShownEntry, Uid, View};
use std::alloc::Global;
use std::fmt::Write;

/// All that the view answers of each present entry, in the order of a listing, and then of each tombstone.
pub fn all<V: View>(alloc: Global, view: &V) -> Result<String, CaseFault> {
    let mut ids = present(alloc, view)?;
    let gone = or_memory(view.tombstones(alloc))?;
    ids.extend_from_slice(gone.as_slice())?;
    let mut told = String::new(alloc);
    for id in ids.as_slice() {
        tell_one(alloc, view, *id, &mut told)?;
    }
    Ok(told)
}

/// The present entries, parents first and siblings as the view lists them.
fn present<V: View>(alloc: Global, view: &V) -> Result<Vec<Uid>, CaseFault> {
    let mut ids = Vec::new(alloc);
    let mut next = Vec::new(alloc);
    next.push(view.root())?;
    for _ in 0..u64::MAX {
        let Some(id) = next.pop() else {
            break;
        };
        ids.push(id)?;
        push_children(alloc, view, id, &mut next)?;
    }
    Ok(ids)
}

/// Appends the children, the first one last.
fn push_children<V: View>(
    alloc: Global,
    view: &V,
    id: Uid,
    next: &mut Vec<Uid>,
) -> Result<(), CaseFault> {
    let children = or_memory(view.children(alloc, id))?;
    for child in children.as_slice().iter().rev() {
        next.push(*child)?;
    }
    Ok(())
}

/// An entry as it shows, its parent, its name and who has that name, how it stands, and the values that it lends.
fn tell_one<V: View>(alloc: Global, view: &V, id: Uid, told: &mut String) -> Result<(), CaseFault> {
    let entry = shown(alloc, view, id)?;
    tell_shown(&entry, told)?;
    let (parent, name, holder) = (view.parent(id), view.name(id), holder(view, id));
    let (standing, own) = (view.standing(id), view.own(id));
    writeln!(told, " {parent:?} {name:?} {holder:?} {standing:?} {own:?}")?;
    Ok(())
}

/// A present entry or a tombstone, as it shows.
fn shown<V: View>(alloc: Global, view: &V, id: Uid) -> Result<Option<ShownEntry>, CaseFault> {
    match or_memory(view.entry(alloc, id))? {
        Some(entry) => Ok(Some(entry)),
        None => or_memory(view.tombstone(alloc, id)),
    }
}

fn tell_shown(entry: &Option<ShownEntry>, told: &mut String) -> Result<(), CaseFault> {
    match entry {
        Some(entry) => tell_entry(told, entry),
        None => {
            told.push_str("none")?;
            Ok(())
        }
    }
}

/// Who shows the name of this entry.
fn holder<V: View>(view: &V, id: Uid) -> Option<Uid> {
    let parent = view.parent(id)?;
    view.child(parent, view.name(id)?)
}

/// The present entry or the tombstone of the next id, as it shows, or `none`.
pub fn entry<V: View>(
    alloc: Global,
    view: &V,
    fields: &mut Fields<'_>,
    told: &mut String,
) -> Result<(), CaseFault> {
    let entry = shown(alloc, view, next_uid(fields)?)?;
    tell_shown(&entry, told)
}

/// How many entries are present, how many of these are glue or lost their names, and how many are tombstones.
pub fn counts<V: View>(alloc: Global, view: &V, told: &mut String) -> Result<(), CaseFault> {
    let ids = present(alloc, view)?;
    let (mut glue, mut lost) = (0u64, 0u64);
    for id in ids.as_slice() {
        if let Some(standing) = view.standing(*id) {
            glue = glue.saturating_add(standing.glue as u64);
            lost = lost.saturating_add(standing.lost as u64);
        }
    }
    let (present, gone) = (ids.len(), or_memory(view.tombstones(alloc))?.len());
    write!(
        told,
        "{present} present, {glue} glue, {lost} lost, {gone} gone"
    )?;
    Ok(())
}
