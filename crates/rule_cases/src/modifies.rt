//! Modifies of entries: why they are refused, and what they write.

use crate::adds::{judged, tell_judged};
use crate::entries::tell_verdict;
use crate::requests::{next_bytes, next_controls, put_one, raw_attr, read_identity};
use case_lines::{CaseFault, Fields, or_memory};
use ldap_rules::{JudgeFault, Judged};
use ldap_types::{Op, RawAttr, RawAttrList, RawMod, RawModList, Request};
use plain_view::PlainView;
use repl_data::Items;
use std::alloc::Global;

/// What a modification does: `add`, `delete`, `replace`, or the number of the message.
fn read_kind(word: &str) -> Result<i64, CaseFault> {
    match word {
        "add" => Ok(0),
        "delete" => Ok(1),
        "replace" => Ok(2),
        _ => match word.parse::<i64>() {
            Ok(kind) => Ok(kind),
            Err(_) => Err(CaseFault::Argument),
        },
    }
}

/// A name, and after an equals sign values with a comma between each two.
fn next_attr(alloc: Global, fields: &mut Fields<'_>) -> Result<RawAttr, CaseFault> {
    let text = fields.bytes(alloc)?;
    or_memory(raw_attr(alloc, text.as_slice()))
}

/// One modification of an attribute.
fn put_mod(mods: &mut RawModList, kind: i64, attr: RawAttr) -> Result<(), CaseFault> {
    let RawAttr { name, vals } = attr;
    or_memory(mods.push(RawMod { kind, name, vals }))
}

/// The same modification, so many times.
fn put_times(
    alloc: Global,
    fields: &mut Fields<'_>,
    mods: &mut RawModList,
) -> Result<(), CaseFault> {
    let count = fields.number()?;
    let kind = read_kind(fields.word()?)?;
    let attr = next_attr(alloc, fields)?;
    for _ in 0..count {
        put_mod(mods, kind, or_memory(attr.clone())?)?;
    }
    Ok(())
}

/// So many attributes of this name, each with a value of its own.
fn own_values(alloc: Global, name: &[u8], count: u64) -> Result<RawAttrList, CaseFault> {
    let mut attrs = Items::new(alloc);
    for i in 0..count {
        let value = format!(in alloc; "x{i}")?;
        or_memory(put_one(alloc, name, value.as_bytes(), &mut attrs))?;
    }
    Ok(attrs)
}

/// So many modifications of one attribute, each with a value of its own.
fn put_each(
    alloc: Global,
    fields: &mut Fields<'_>,
    mods: &mut RawModList,
) -> Result<(), CaseFault> {
    let count = fields.number()?;
    let kind = read_kind(fields.word()?)?;
    let name = fields.bytes(alloc)?;
    let attrs = own_values(alloc, name.as_slice(), count)?;
    for attr in attrs.as_slice() {
        put_mod(mods, kind, or_memory(attr.clone())?)?;
    }
    Ok(())
}

/// Appends what the next words write: a modification, or so many.
fn put_next(
    alloc: Global,
    fields: &mut Fields<'_>,
    mods: &mut RawModList,
) -> Result<(), CaseFault> {
    match fields.word()? {
        "times" => put_times(alloc, fields, mods),
        "each" => put_each(alloc, fields, mods),
        word => {
            let kind = read_kind(word)?;
            let attr = next_attr(alloc, fields)?;
            put_mod(mods, kind, attr)
        }
    }
}

/// The modifications of all words that are left.
fn read_mods(alloc: Global, fields: &mut Fields<'_>) -> Result<RawModList, CaseFault> {
    let mut mods = Items::new(alloc);
    for _ in 0..u64::MAX {
        if fields.is_empty() {
            break;
        }
        put_next(alloc, fields, &mut mods)?;
    }
    Ok(mods)
}

/// A modify: controls, the name, and the modifications.
fn read_modify(alloc: Global, fields: &mut Fields<'_>) -> Result<Request, CaseFault> {
    let controls = next_controls(alloc, fields)?;
    let object = next_bytes(alloc, fields)?;
    let mods = read_mods(alloc, fields)?;
    let op = Op::Modify { object, mods };
    Ok(Request {
        id: 2,
        op,
        controls,
    })
}

/// Judges the identity's modify.
fn judge_next(
    alloc: Global,
    view: &PlainView,
    fields: &mut Fields<'_>,
) -> Result<Result<Judged, JudgeFault>, CaseFault> {
    let bound = read_identity(fields.word()?)?;
    let request = read_modify(alloc, fields)?;
    Ok(judged(alloc, view, &request, bound))
}

/// What becomes of a modify: who asks, controls, the name, and the modifications.
pub fn modify(
    alloc: Global,
    view: &PlainView,
    fields: &mut Fields<'_>,
    told: &mut String,
) -> Result<(), CaseFault> {
    let verdict = judge_next(alloc, view, fields)?;
    tell_verdict(told, &verdict)
}

/// The code of a modify's refusal and the matched name, and `0` for what is not refused.
pub fn code(
    alloc: Global,
    view: &PlainView,
    fields: &mut Fields<'_>,
    told: &mut String,
) -> Result<(), CaseFault> {
    let verdict = judge_next(alloc, view, fields)?;
    tell_judged(told, &verdict)
}
