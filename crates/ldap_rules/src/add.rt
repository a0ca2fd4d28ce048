//! The cases of an add.

ghost use Rattle.std.specs.Prelude.{◌≡◌, ◌∷◌, is_some, IfOk};
ghost use Rattle.repl_data.specs.View.{child_of};
ghost use Rattle.ldap_rules.specs.Case.{Gives};
ghost use Rattle.ldap_rules.specs.Add.{add_body, add_verdict};

use crate::case::refuse_if;
use crate::derived::has_derived_part;
use crate::values::entry_attributes;
use crate::writes::{all_writes, not_too_heavy};
use dn_text::{JudgeFault, entry_at, refused};
use ldap_types::{Code, Control, Identity, RawAttr};
use repl_data::{Body, NoMemory, Rdn, Uid, View};
use std::alloc::Global;

/// A child shows this relative name.
fn is_taken<V: View>(view: &V, parent: Uid, rdn: &Rdn) -> bool
    ensures { result ≡ is_some (child_of (V.view view.now) parent rdn.now) }
{
    match view.child(parent, rdn) {
        Some(_) => true,
        None => false,
    }
}

fn copy(rdn: &Rdn) -> Result<Rdn, NoMemory>
    ensures { IfOk result (λ copy. copy ≡ rdn.now) }
{
    let copy = rdn.clone()?;
    Ok(copy)
}

/// What an add of a name makes, which is this relative name and those above it up to the suffix.
#[tactic(auto, unfolding(crate::specs::Add::add_body))]
fn add_below<V: View>(
    alloc: Global,
    view: &V,
    given: &[RawAttr],
    rdn: &Rdn,
    above: &[Rdn],
) -> Result<Body, JudgeFault>
    ensures { Gives result (add_body (V.view view.now) given.now (rdn.now ∷ above.now)) }
{
    refuse_if(
        alloc,
        has_derived_part(rdn.avas.as_slice()),
        Code::NAMING_VIOLATION,
    )?;
    let parent = entry_at(alloc, view, above)?;
    refuse_if(
        alloc,
        is_taken(view, parent, rdn),
        Code::ENTRY_ALREADY_EXISTS,
    )?;
    let attrs = entry_attributes(alloc, rdn, given)?;
    let rdn = copy(rdn)?;
    Ok(Body::Add { parent, rdn, attrs })
}

/// What an add of a name makes, by the relative names above the suffix.
#[tactic(auto, unfolding(crate::specs::Add::add_body))]
fn add_body<V: View>(
    alloc: Global,
    view: &V,
    given: &[RawAttr],
    rdns: &[Rdn],
) -> Result<Body, JudgeFault>
    ensures { Gives result (add_body (V.view view.now) given.now rdns.now) }
{
    match rdns {
        [] => Err(refused(alloc, Code::ENTRY_ALREADY_EXISTS)),
        [rdn, above @ ..] => add_below(alloc, view, given, rdn, above),
    }
}

/// What an add makes.
pub(crate) fn judge_add<V: View>(
    alloc: Global,
    view: &V,
    controls: &[Control],
    bound: Identity,
    object: &[u8],
    given: &[RawAttr],
) -> Result<Body, JudgeFault>
    ensures { Gives result (add_verdict (V.view view.now) controls.now bound object.now given.now) }
{
    let rdns = all_writes(alloc, view.suffix_name(), controls, bound, object)?;
    let body = add_body(alloc, view, given, rdns.as_slice())?;
    not_too_heavy(alloc, body)
}
