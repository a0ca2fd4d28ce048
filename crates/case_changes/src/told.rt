//! Changes, written as words.

use crate::csn::{tell_csn, tell_uid};
use case_lines::{CaseFault, tell_text};
use repl_data::{Attr, Ava, Body, Change, Mod, ModKind, Rdn, Uid, Val};

fn is_plain(byte: &u8) -> bool {
    byte.is_ascii_alphanumeric() || *byte == b'-'
}

fn tell_piece(told: &mut String, bytes: &[u8]) -> Result<(), CaseFault> {
    match std::str::from_utf8(bytes) {
        Ok(text) if !bytes.is_empty() && bytes.iter().all(is_plain) => {
            told.push_str(text)?;
            Ok(())
        }
        _ => tell_text(told, bytes),
    }
}

fn tell_val(told: &mut String, val: &Val) -> Result<(), CaseFault> {
    tell_piece(told, val.key.as_slice())?;
    if val.key.as_slice() != val.spelled.as_slice() {
        told.push_str("/")?;
        tell_piece(told, val.spelled.as_slice())?;
    }
    Ok(())
}

fn tell_vals(told: &mut String, vals: &[Val]) -> Result<(), CaseFault> {
    let mut between = ":";
    for val in vals {
        told.push_str(between)?;
        tell_val(told, val)?;
        between = ",";
    }
    Ok(())
}

fn tell_avas(told: &mut String, avas: &[Ava]) -> Result<(), CaseFault> {
    let mut between = "";
    for ava in avas {
        told.push_str(between)?;
        tell_piece(told, ava.attr.name.as_slice())?;
        told.push_str(":")?;
        tell_val(told, &ava.val)?;
        between = "+";
    }
    tell_none(told, avas.is_empty())
}

fn tell_attrs(told: &mut String, attrs: &[Attr]) -> Result<(), CaseFault> {
    let mut between = "";
    for attr in attrs {
        told.push_str(between)?;
        tell_piece(told, attr.attr.name.as_slice())?;
        tell_vals(told, attr.vals.as_slice())?;
        between = ";";
    }
    tell_none(told, attrs.is_empty())
}

fn tell_mods(told: &mut String, mods: &[Mod]) -> Result<(), CaseFault> {
    let mut between = "";
    for one in mods {
        told.push_str(between)?;
        told.push_str(kind_text(one.kind))?;
        tell_piece(told, one.attr.name.as_slice())?;
        tell_vals(told, one.vals.as_slice())?;
        between = ";";
    }
    tell_none(told, mods.is_empty())
}

fn kind_text(kind: ModKind) -> &'static str {
    match kind {
        ModKind::Add => "add:",
        ModKind::Delete => "delete:",
        ModKind::Replace => "replace:",
    }
}

fn tell_none(told: &mut String, none: bool) -> Result<(), CaseFault> {
    if none {
        told.push_str("-")?;
    }
    Ok(())
}

/// Appends the word of this relative name.
pub fn tell_rdn(told: &mut String, rdn: &Rdn) -> Result<(), CaseFault> {
    tell_avas(told, rdn.avas.as_slice())
}

/// Appends the words of this change.
pub fn tell_change(told: &mut String, change: &Change) -> Result<(), CaseFault> {
    told.push_str(body_text(&change.body))?;
    tell_csn(told, change.csn)?;
    told.push_str(" ")?;
    tell_uid(told, change.target)?;
    tell_body(told, &change.body)
}

fn body_text(body: &Body) -> &'static str {
    match body {
        Body::Add { .. } => "add ",
        Body::Mod { .. } => "mod ",
        Body::Ren { .. } => "ren ",
        Body::Del => "del ",
    }
}

fn tell_body(told: &mut String, body: &Body) -> Result<(), CaseFault> {
    match body {
        Body::Add { parent, rdn, attrs } => tell_add(told, *parent, rdn, attrs.as_slice()),
        Body::Mod { mods } => {
            told.push_str(" ")?;
            tell_mods(told, mods.as_slice())
        }
        Body::Ren { rdn, dropped } => tell_rename(told, rdn, dropped.as_slice()),
        Body::Del => Ok(()),
    }
}

fn tell_add(told: &mut String, parent: Uid, rdn: &Rdn, attrs: &[Attr]) -> Result<(), CaseFault> {
    told.push_str(" ")?;
    tell_uid(told, parent)?;
    told.push_str(" ")?;
    tell_rdn(told, rdn)?;
    told.push_str(" ")?;
    tell_attrs(told, attrs)
}

fn tell_rename(told: &mut String, rdn: &Rdn, dropped: &[Ava]) -> Result<(), CaseFault> {
    told.push_str(" ")?;
    tell_rdn(told, rdn)?;
    told.push_str(" ")?;
    tell_avas(told, dropped)
}
