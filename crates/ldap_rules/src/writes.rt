//! The cases of all writes, and the last one.

ghost use Rattle.std.specs.Prelude.{◌≡◌, ◌&&◌, not, nat_lt};
ghost use Rattle.repl_data.specs.Check.{greatest_weight, weight};
ghost use Rattle.std.specs.List.{list_any};
ghost use Rattle.ldap_rules.specs.Case.{Gives};
ghost use Rattle.ldap_rules.specs.Writes.{is_update_control, is_unknown, is_manager, is_supplier, all_writes, not_too_heavy, light_change};

use crate::case::refuse_if;
use dn_text::{JudgeFault, RdnList, object, rdns_above};
use ldap_types::{Code, Control, Identity};
use repl_data::{Body, GREATEST_WEIGHT, Uid, same_bytes, weight};
use std::alloc::Global;

/// The control of an update that one server sends to another.
pub const UPDATE_CONTROL: &[u8] = b"2.999.389.3";

fn is_update_control(control: &Control) -> bool
    ensures { result ≡ is_update_control control.now }
{
    same_bytes(control.oid.as_slice(), UPDATE_CONTROL)
}

fn is_unknown(control: &Control) -> bool
    ensures { result ≡ is_unknown control.now }
{
    control.critical && !is_update_control(control)
}

fn has_unknown(controls: &[Control]) -> bool
    ensures { result ≡ list_any is_unknown controls.now }
{
    controls.iter().any(|control| is_unknown(control))
}

pub(crate) fn has_update_control(controls: &[Control]) -> bool
    ensures { result ≡ list_any is_update_control controls.now }
{
    controls.iter().any(|control| is_update_control(control))
}

fn is_manager(bound: Identity) -> bool
    ensures { result ≡ is_manager bound }
{
    match bound {
        Identity::Manager => true,
        Identity::Anonymous | Identity::Supplier => false,
    }
}

pub(crate) fn is_supplier(bound: Identity) -> bool
    ensures { result ≡ is_supplier bound }
{
    match bound {
        Identity::Supplier => true,
        Identity::Anonymous | Identity::Manager => false,
    }
}

fn is_misused(controls: &[Control], bound: Identity) -> bool
    ensures { result ≡ (list_any is_update_control controls.now && not (is_supplier bound)) }
{
    let update = has_update_control(controls);
    update && !is_supplier(bound)
}

/// The cases of all writes: the relative names of the name above the suffix.
/// `suffix` is the text of the suffix.
#[tactic(auto, unfolding(crate::specs::Writes::all_writes))]
pub(crate) fn all_writes(
    alloc: Global,
    suffix: &[u8],
    controls: &[Control],
    bound: Identity,
    text: &[u8],
) -> Result<RdnList, JudgeFault>
    ensures { Gives result (all_writes suffix.now controls.now bound text.now) }
{
    refuse_if(
        alloc,
        has_unknown(controls),
        Code::UNAVAILABLE_CRITICAL_EXTENSION,
    )?;
    refuse_if(
        alloc,
        is_misused(controls, bound),
        Code::INSUFFICIENT_ACCESS_RIGHTS,
    )?;
    refuse_if(alloc, !is_manager(bound), Code::INSUFFICIENT_ACCESS_RIGHTS)?;
    let name = object(alloc, text)?;
    rdns_above(alloc, name, suffix)
}

fn is_too_heavy(body: &Body) -> bool
    ensures { result ≡ nat_lt greatest_weight (weight body.now) }
{
    weight(body) > GREATEST_WEIGHT
}

/// The last case of every write.
pub(crate) fn not_too_heavy(alloc: Global, body: Body) -> Result<Body, JudgeFault>
    ensures { Gives result (not_too_heavy body) }
{
    refuse_if(alloc, is_too_heavy(&body), Code::ADMIN_LIMIT_EXCEEDED)?;
    Ok(body)
}

/// The last case of a change of an entry that is there.
pub(crate) fn light_change(alloc: Global, change: (Uid, Body)) -> Result<(Uid, Body), JudgeFault>
    ensures { Gives result (light_change change) }
{
    let (target, body) = change;
    let body = not_too_heavy(alloc, body)?;
    Ok((target, body))
}
