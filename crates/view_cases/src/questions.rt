//! Questions that a view answers.

use case_changes::{next_rdn, next_uid};
use case_lines::{CaseFault, Fields, or_memory};
use case_views::{tell_attrs, tell_entry, tell_optional_uid, tell_uids};
use plain_view::PlainView;
use repl_data::{Shown, ShownEntry, View};
use std::alloc::Global;
use std::fmt::Write;

/// Whether the view knows of an entry, present or not.
pub fn known(
    view: &PlainView,
    fields: &mut Fields<'_>,
    told: &mut String,
) -> Result<(), CaseFault> {
    let known = view.is_known(next_uid(fields)?);
    write!(told, "{known}")?;
    Ok(())
}

/// The answer of any view.
pub fn answer<V: View>(
    view: &V,
    alloc: Global,
    subject: &str,
    fields: &mut Fields<'_>,
    told: &mut String,
) -> Result<(), CaseFault> {
    match subject {
        "root" => tell_optional_uid(told, Some(view.root())),
        "tombstones" => tell_uids(told, or_memory(view.tombstones(alloc))?.as_slice()),
        "children" => {
            let id = next_uid(fields)?;
            tell_uids(told, or_memory(view.children(alloc, id))?.as_slice())
        }
        "child" => child(view, alloc, fields, told),
        "parent" => tell_optional_uid(told, view.parent(next_uid(fields)?)),
        "named" => {
            let named = view.name(next_uid(fields)?).is_some();
            write!(told, "{named}")?;
            Ok(())
        }
        "entry" => {
            let entry = or_memory(view.entry(alloc, next_uid(fields)?))?;
            tell_found(told, &entry)
        }
        "tombstone" => {
            let entry = or_memory(view.tombstone(alloc, next_uid(fields)?))?;
            tell_found(told, &entry)
        }
        "tombstone-parent" => tell_optional_uid(told, view.tombstone_parent(next_uid(fields)?)),
        "tombstone-own" => tell_own(told, view.tombstone_own(next_uid(fields)?)),
        _ => Err(CaseFault::Subject),
    }
}

fn child<V: View>(
    view: &V,
    alloc: Global,
    fields: &mut Fields<'_>,
    told: &mut String,
) -> Result<(), CaseFault> {
    let parent = next_uid(fields)?;
    let rdn = next_rdn(alloc, fields)?;
    tell_optional_uid(told, view.child(parent, &rdn))
}

fn tell_found(told: &mut String, entry: &Option<ShownEntry>) -> Result<(), CaseFault> {
    match entry {
        Some(entry) => tell_entry(told, entry),
        None => tell_none(told),
    }
}

fn tell_own(told: &mut String, own: Option<&[Shown]>) -> Result<(), CaseFault> {
    match own {
        Some(own) => {
            told.push_str("own")?;
            tell_attrs(told, own)
        }
        None => tell_none(told),
    }
}

fn tell_none(told: &mut String) -> Result<(), CaseFault> {
    told.push_str("none")?;
    Ok(())
}
