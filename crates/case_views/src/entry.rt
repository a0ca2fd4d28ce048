//! Entries and ids as answers.

use case_changes::tell_uid;
use case_lines::{CaseFault, tell_text};
use repl_data::{Shown, ShownEntry, Uid};
use std::str;

/// Appends the printed name of the entry, and each value behind its attribute's name.
pub fn tell_entry(told: &mut String, entry: &ShownEntry) -> Result<(), CaseFault> {
    told.push_str("dn ")?;
    tell_text(told, entry.dn.as_slice())?;
    tell_attrs(told, entry.attrs.as_slice())
}

/// Appends each value behind its attribute's name.
pub fn tell_attrs(told: &mut String, attrs: &[Shown]) -> Result<(), CaseFault> {
    for shown in attrs {
        let Ok(name) = str::from_utf8(shown.attr.name.as_slice()) else {
            return Err(CaseFault::Argument);
        };
        for val in shown.vals.as_slice() {
            told.push_str(" ")?;
            told.push_str(name)?;
            told.push_str(" ")?;
            tell_text(told, val.spelled.as_slice())?;
        }
    }
    Ok(())
}

/// Appends the entries but that of the suffix, with a comma between each two.
pub fn tell_entries(told: &mut String, entries: &[ShownEntry]) -> Result<(), CaseFault> {
    let mut mark = "";
    for entry in entries {
        if entry.id != Uid::SUFFIX {
            told.push_str(mark)?;
            tell_entry(told, entry)?;
            mark = ", ";
        }
    }
    Ok(())
}

/// Appends the word of this id, or `none`.
pub fn tell_optional_uid(told: &mut String, uid: Option<Uid>) -> Result<(), CaseFault> {
    match uid {
        Some(uid) => tell_uid(told, uid),
        None => {
            told.push_str("none")?;
            Ok(())
        }
    }
}

/// Appends the words of these ids, with a space between each two.
pub fn tell_uids(told: &mut String, uids: &[Uid]) -> Result<(), CaseFault> {
    let mut mark = "";
    for uid in uids {
        told.push_str(mark)?;
        tell_uid(told, *uid)?;
        mark = " ";
    }
    Ok(())
}
