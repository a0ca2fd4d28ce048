//! Changes.

use crate::csn::{next_csn, next_uid};
use crate::part::{attrs, avas, mods};
use case_lines::{CaseFault, Fields};
use repl_data::{Body, Change, Rdn};
use std::alloc::Global;

/// The relative name that the next word writes.
pub fn next_rdn(alloc: Global, fields: &mut Fields<'_>) -> Result<Rdn, CaseFault> {
    let word = fields.word()?;
    let avas = avas(alloc, word.as_bytes())?;
    Ok(Rdn { avas })
}

/// The change that the next words write.
pub fn next_change(alloc: Global, fields: &mut Fields<'_>) -> Result<Change, CaseFault> {
    let kind = fields.word()?;
    let csn = next_csn(fields)?;
    let target = next_uid(fields)?;
    let body = match kind {
        "add" => next_add(alloc, fields),
        "mod" => next_modify(alloc, fields),
        "ren" => next_rename(alloc, fields),
        "del" => Ok(Body::Del),
        _ => Err(CaseFault::Argument),
    };
    let body = body?;
    Ok(Change { csn, target, body })
}

fn next_add(alloc: Global, fields: &mut Fields<'_>) -> Result<Body, CaseFault> {
    let parent = next_uid(fields)?;
    let rdn = next_rdn(alloc, fields)?;
    let word = fields.word()?;
    let attrs = attrs(alloc, word.as_bytes())?;
    Ok(Body::Add { parent, rdn, attrs })
}

fn next_modify(alloc: Global, fields: &mut Fields<'_>) -> Result<Body, CaseFault> {
    let word = fields.word()?;
    let mods = mods(alloc, word.as_bytes())?;
    Ok(Body::Mod { mods })
}

fn next_rename(alloc: Global, fields: &mut Fields<'_>) -> Result<Body, CaseFault> {
    let rdn = next_rdn(alloc, fields)?;
    let word = fields.word()?;
    let dropped = avas(alloc, word.as_bytes())?;
    Ok(Body::Ren { rdn, dropped })
}
