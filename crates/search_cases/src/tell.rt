//! What a search answers, as a line: the code, the matched name if there is one, and for each entry its name and its
//! attributes.

use case_lines::{CaseFault, tell_text};
use ldap_types::LdapResult;
use repl_data::{Shown, ShownEntry};
use search_core::Found;
use std::fmt::Write;
use std::str;

fn tell_attr(told: &mut String, shown: &Shown) -> Result<(), CaseFault> {
    let Ok(name) = str::from_utf8(shown.attr.name.as_slice()) else {
        return Err(CaseFault::Argument);
    };
    write!(told, " {name}:")?;
    for val in shown.vals.as_slice() {
        told.push_str(" ")?;
        tell_text(told, val.spelled.as_slice())?;
    }
    Ok(())
}

fn tell_entry(told: &mut String, entry: &ShownEntry) -> Result<(), CaseFault> {
    told.push_str(", dn ")?;
    tell_text(told, entry.dn.as_slice())?;
    for shown in entry.attrs.as_slice() {
        tell_attr(told, shown)?;
    }
    Ok(())
}

fn tell_ending(told: &mut String, ending: &LdapResult) -> Result<(), CaseFault> {
    let number = ending.code.number;
    write!(told, "{number}")?;
    if !ending.matched.is_empty() {
        told.push_str(" ")?;
        tell_text(told, ending.matched.as_slice())?;
    }
    Ok(())
}

/// Appends what was found.
pub fn tell_found(told: &mut String, found: &Found) -> Result<(), CaseFault> {
    tell_ending(told, &found.result)?;
    for entry in found.entries.as_slice() {
        tell_entry(told, entry)?;
    }
    Ok(())
}
