//! Deletes, modify DNs and compares of entries: why they are refused, what they write, and what is answered.

use crate::adds::{judged, tell_judged, tell_refusal};
use crate::bodies::{tell_mods, tell_parts, tell_rdn};
use crate::requests::{next_bytes, next_controls, read_identity};
use case_lines::{CaseFault, Fields};
use case_views::tell_optional_uid;
use ldap_rules::{Identity, JudgeFault, Judged};
use ldap_types::{Bytes, ControlList, Op, Request};
use plain_view::PlainView;
use repl_data::{Body, Uid};
use std::alloc::Global;

/// A delete: the name.
fn next_delete(alloc: Global, fields: &mut Fields<'_>) -> Result<Op, CaseFault> {
    let object = next_bytes(alloc, fields)?;
    Ok(Op::Delete { object })
}

/// Whether the values of the old name go (`drop`) or stay (`keep`).
fn next_delete_old(fields: &mut Fields<'_>) -> Result<bool, CaseFault> {
    match fields.word()? {
        "drop" => Ok(true),
        "keep" => Ok(false),
        _ => Err(CaseFault::Argument),
    }
}

/// The new superior, if a word is left.
fn next_superior(alloc: Global, fields: &mut Fields<'_>) -> Result<Option<Bytes>, CaseFault> {
    if fields.is_empty() {
        return Ok(None);
    }
    Ok(Some(next_bytes(alloc, fields)?))
}

/// A modify DN: the name, the new relative name, `drop` or `keep`, and the new superior, if there is one.
fn next_rename(alloc: Global, fields: &mut Fields<'_>) -> Result<Op, CaseFault> {
    let object = next_bytes(alloc, fields)?;
    let new_rdn = next_bytes(alloc, fields)?;
    let delete_old = next_delete_old(fields)?;
    let new_superior = next_superior(alloc, fields)?;
    Ok(Op::Rename {
        object,
        new_rdn,
        delete_old,
        new_superior,
    })
}

/// A compare: the name, an attribute and a value.
fn next_compare(alloc: Global, fields: &mut Fields<'_>) -> Result<Op, CaseFault> {
    let object = next_bytes(alloc, fields)?;
    let name = next_bytes(alloc, fields)?;
    let value = next_bytes(alloc, fields)?;
    Ok(Op::Compare {
        object,
        name,
        value,
    })
}

/// Appends the entry that is changed, and `del`, or `ren` with the new name and the values that go, or `mod` with
/// the modifications.
fn tell_change(told: &mut String, target: Option<Uid>, body: &Body) -> Result<(), CaseFault> {
    tell_optional_uid(told, target)?;
    match body {
        Body::Del => {
            told.push_str(" del")?;
            Ok(())
        }
        Body::Ren { rdn, dropped } => {
            told.push_str(" ren ")?;
            tell_rdn(told, rdn)?;
            told.push_str("|")?;
            tell_parts(told, dropped.as_slice())
        }
        Body::Mod { mods } => {
            told.push_str(" mod ")?;
            tell_mods(told, mods.as_slice())
        }
        _ => Err(CaseFault::Argument),
    }
}

/// Appends the refusal, the answer, or what is written.
pub fn tell_verdict(
    told: &mut String,
    verdict: &Result<Judged, JudgeFault>,
) -> Result<(), CaseFault> {
    match verdict {
        Ok(Judged::Write { target, body }) => tell_change(told, *target, body),
        Ok(Judged::Answer(answer)) => {
            told.push_str("answer ")?;
            tell_refusal(told, answer)
        }
        Err(JudgeFault::NoMemory) => Err(CaseFault::NoMemory),
        Err(JudgeFault::Refused(answer)) => tell_refusal(told, answer),
    }
}

/// Judges a request of the identity.
fn verdict(
    alloc: Global,
    view: &PlainView,
    bound: Identity,
    controls: ControlList,
    op: Op,
    told: &mut String,
) -> Result<(), CaseFault> {
    let request = Request {
        id: 2,
        op,
        controls,
    };
    let verdict = judged(alloc, view, &request, bound);
    tell_verdict(told, &verdict)
}

/// What becomes of a delete: who asks, controls, and the name.
pub fn delete(
    alloc: Global,
    view: &PlainView,
    fields: &mut Fields<'_>,
    told: &mut String,
) -> Result<(), CaseFault> {
    let bound = read_identity(fields.word()?)?;
    let controls = next_controls(alloc, fields)?;
    let op = next_delete(alloc, fields)?;
    verdict(alloc, view, bound, controls, op, told)
}

/// What becomes of a modify DN: who asks, controls, and what `next_rename` reads.
pub fn rename(
    alloc: Global,
    view: &PlainView,
    fields: &mut Fields<'_>,
    told: &mut String,
) -> Result<(), CaseFault> {
    let bound = read_identity(fields.word()?)?;
    let controls = next_controls(alloc, fields)?;
    let op = next_rename(alloc, fields)?;
    verdict(alloc, view, bound, controls, op, told)
}

/// The code of a modify DN's refusal, and `0` for what is not refused.
pub fn rename_code(
    alloc: Global,
    view: &PlainView,
    fields: &mut Fields<'_>,
    told: &mut String,
) -> Result<(), CaseFault> {
    let bound = read_identity(fields.word()?)?;
    let controls = next_controls(alloc, fields)?;
    let op = next_rename(alloc, fields)?;
    let request = Request {
        id: 2,
        op,
        controls,
    };
    let verdict = judged(alloc, view, &request, bound);
    tell_judged(told, &verdict)
}

/// What a compare is answered: who asks, controls, and what `next_compare` reads.
pub fn compare(
    alloc: Global,
    view: &PlainView,
    fields: &mut Fields<'_>,
    told: &mut String,
) -> Result<(), CaseFault> {
    let bound = read_identity(fields.word()?)?;
    let controls = next_controls(alloc, fields)?;
    let op = next_compare(alloc, fields)?;
    verdict(alloc, view, bound, controls, op, told)
}
