//! `judge`: what becomes of a write or a compare.

ghost use Rattle.std.specs.Prelude.{◌≡◌, true, false, IsTrue};
ghost use Rattle.std.specs.Option.{option_copied};
ghost use Rattle.ldap_rules.specs.Verdict.{is_update, is_change, is_judged, verdict_of, IsVerdict};

use crate::add::judge_add;
use crate::compare::judge_compare;
use crate::delete::judge_delete;
use crate::fault::Judged;
use crate::modify::judge_modify;
use crate::rename::judge_rename;
use crate::writes::{has_update_control, is_supplier};
use dn_text::{JudgeFault, refused};
use ldap_types::{Code, Identity, Op, Request};
use repl_data::{Bytes, View};
use std::alloc::Global;

/// Whether a request is an update of another server: it has the update control, and its sender is bound
/// as one. `judge` does not judge these.
pub fn is_update(request: &Request, bound: Identity) -> bool
    ensures { result ≡ is_update request.now bound }
{
    is_supplier(bound) && has_update_control(request.controls.as_slice())
}

/// Whether this operation writes, and `judge` has its rules: an add, a modify, a delete or a modify DN.
pub fn is_change(op: &Op) -> bool
    ensures { result ≡ is_change op.now }
{
    match op {
        Op::Add { .. } => true,
        Op::Modify { .. } => true,
        Op::Delete { .. } => true,
        Op::Rename { .. } => true,
        _ => false,
    }
}

/// Whether `judge` has the rules of this operation: an add, a modify, a delete, a modify DN or a compare.
pub fn is_judged(op: &Op) -> bool
    ensures { result ≡ is_judged op.now }
{
    match op {
        Op::Compare { .. } => true,
        Op::Add { .. } => true,
        Op::Modify { .. } => true,
        Op::Delete { .. } => true,
        Op::Rename { .. } => true,
        _ => false,
    }
}

fn superior(text: &Option<Bytes>) -> Option<&[u8]>
    ensures { option_copied result ≡ text.now }
{
    match text {
        Some(text) => Some(text.as_slice()),
        None => None,
    }
}

/// What becomes of a write or a compare: the change that it makes, its answer, or its refusal (RFC 4511, sections
/// 4.6 to 4.10).
///
/// An update of another server is not judged here. What is refused, and in which order, is the definitions' list
/// of cases of each operation; each refusal has an empty text, and a `matched` name only with `noSuchObject`. A
/// body has its attributes and values in order of key, and is taken by `check` at any CSN above the id of the
/// entry that it needs, where the view is that of sound changes.
///
/// Looks up, with `View::child`, each relative name from the suffix down; where the entry isn't there, also the
/// nearest one above it, with `View::entry`, for its shown name. An add looks for its own name below the parent,
/// a modify looks at the entry's own name and values, a delete lists the children of its entry, a modify DN looks
/// for the new name below the parent and at the entry's own values, and a compare copies what the entry shows. n
/// values of an add or a modify take n times the logarithm of n, in whatever order they come; a modify looks at each
/// attribute of its entry once for each attribute that it names, and copies the values of those that it names.
pub fn judge<V: View>(
    alloc: Global,
    view: &V,
    request: &Request,
    bound: Identity,
) -> Result<Judged, JudgeFault>
    requires judged { IsTrue (is_judged request.now.op) }
    requires no_update { is_change request.now.op ≡ true → is_update request.now bound ≡ false }
    ensures exact { IsVerdict result (verdict_of (V.view view.now) request.now bound) }
{
    let controls = request.controls.as_slice();
    match &request.op {
        Op::Add { object, attrs } => {
            let text = object.as_slice();
            let body = judge_add(alloc, view, controls, bound, text, attrs.as_slice())?;
            Ok(Judged::Write { target: None, body })
        }
        Op::Modify { object, mods } => {
            let text = object.as_slice();
            let (id, body) = judge_modify(alloc, view, controls, bound, text, mods.as_slice())?;
            let target = Some(id);
            Ok(Judged::Write { target, body })
        }
        Op::Delete { object } => {
            let (id, body) = judge_delete(alloc, view, controls, bound, object.as_slice())?;
            let target = Some(id);
            Ok(Judged::Write { target, body })
        }
        Op::Rename {
            object,
            new_rdn,
            delete_old,
            new_superior,
        } => {
            let text = object.as_slice();
            let new = new_rdn.as_slice();
            let above = superior(new_superior);
            let (id, body) = judge_rename(
                alloc,
                view,
                controls,
                bound,
                text,
                new,
                *delete_old,
                above,
            )?;
            let target = Some(id);
            Ok(Judged::Write { target, body })
        }
        Op::Compare {
            object,
            name,
            value,
        } => {
            let text = object.as_slice();
            let answer = judge_compare(
                alloc,
                view,
                controls,
                text,
                name.as_slice(),
                value.as_slice(),
            )?;
            Ok(Judged::Answer(answer))
        }
        _ => Err(refused(alloc, Code::UNWILLING_TO_PERFORM)),
    }
}
