//! What a view shows, as text.

use case_lines::{CaseFault, or_memory};
use case_views::tell_entry;
use repl_data::{ShownEntry, Uid, View};
use std::alloc::Global;

/// All that the view shows but the suffix entry: the present entries, parents first and siblings in order, and then
/// the tombstones. A comma stands before each.
pub fn shown<V: View>(alloc: Global, view: &V) -> Result<String, CaseFault> {
    let mut told = String::new(alloc);
    tell_present(alloc, view, &mut told)?;
    tell_gone(alloc, view, &mut told)?;
    Ok(told)
}

/// Appends the present entries below the suffix entry.
fn tell_present<V: View>(alloc: Global, view: &V, told: &mut String) -> Result<(), CaseFault> {
    let mut next = Vec::new(alloc);
    push_children(alloc, view, view.root(), &mut next)?;
    for _ in 0..u64::MAX {
        let Some(id) = next.pop() else {
            break;
        };
        let entry = or_memory(view.entry(alloc, id))?;
        tell_behind(told, ", ", &entry)?;
        push_children(alloc, view, id, &mut next)?;
    }
    Ok(())
}

/// Appends the children, the first one last.
fn push_children<V: View>(
    alloc: Global,
    view: &V,
    id: Uid,
    next: &mut Vec<Uid>,
) -> Result<(), CaseFault> {
    let children = or_memory(view.children(alloc, id))?;
    for child in children.as_slice().iter().rev() {
        next.push(*child)?;
    }
    Ok(())
}

/// Appends the tombstones in order of id.
fn tell_gone<V: View>(alloc: Global, view: &V, told: &mut String) -> Result<(), CaseFault> {
    let ids = or_memory(view.tombstones(alloc))?;
    for id in ids.as_slice() {
        let entry = or_memory(view.tombstone(alloc, *id))?;
        tell_behind(told, ", gone ", &entry)?;
    }
    Ok(())
}

/// Appends an entry behind a mark.
fn tell_behind(told: &mut String, mark: &str, entry: &Option<ShownEntry>) -> Result<(), CaseFault> {
    told.push_str(mark)?;
    match entry {
        Some(entry) => tell_entry(told, entry),
        None => {
            told.push_str("none")?;
            Ok(())
        }
    }
}
