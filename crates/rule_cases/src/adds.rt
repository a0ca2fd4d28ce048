//! Which adds are refused, and why.

use crate::requests::{read_add, read_identity};
use case_lines::{CaseFault, Fields, tell_text};
use ldap_rules::{Identity, JudgeFault, Judged, is_change, is_judged, is_update, judge};
use ldap_types::{LdapResult, Request};
use plain_view::PlainView;
use std::alloc::Global;
use std::fmt::Write;

/// Judges a write or a compare; an operation that is not judged answers no case.
pub fn judged(
    alloc: Global,
    view: &PlainView,
    request: &Request,
    bound: Identity,
) -> Result<Judged, JudgeFault> {
    if !is_judged(&request.op) {
        return Err(JudgeFault::NoMemory);
    }
    if is_change(&request.op) && is_update(request, bound) {
        return Err(JudgeFault::NoMemory);
    }
    judge(alloc, view, request, bound)
}

/// Appends the code, and the matched name and the text where there is one.
pub fn tell_refusal(told: &mut String, answer: &LdapResult) -> Result<(), CaseFault> {
    let code = answer.code.number;
    write!(told, "{code}")?;
    if !answer.matched.is_empty() {
        told.push_str(" ")?;
        tell_text(told, answer.matched.as_slice())?;
    }
    if !answer.text.is_empty() {
        told.push_str(" says ")?;
        tell_text(told, answer.text.as_slice())?;
    }
    Ok(())
}

/// Appends the refusal, and `0` for what is not refused.
pub fn tell_judged(
    told: &mut String,
    judged: &Result<Judged, JudgeFault>,
) -> Result<(), CaseFault> {
    match judged {
        Ok(_) => {
            told.push_str("0")?;
            Ok(())
        }
        Err(JudgeFault::NoMemory) => Err(CaseFault::NoMemory),
        Err(JudgeFault::Refused(answer)) => tell_refusal(told, answer),
    }
}

/// The refusal of the identity's add, and `0` for what is not refused.
pub fn refusal(
    alloc: Global,
    view: &PlainView,
    fields: &mut Fields<'_>,
    told: &mut String,
) -> Result<(), CaseFault> {
    let bound = read_identity(fields.word()?)?;
    let request = read_add(alloc, fields)?;
    let judged = judged(alloc, view, &request, bound);
    tell_judged(told, &judged)
}
