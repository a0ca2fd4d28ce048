//! The cases of a modify.

ghost use Rattle.ldap_rules.specs.Case.{Gives, coded};
ghost use Rattle.rule_values.specs.Modify.{modifications};
ghost use Rattle.ldap_rules.specs.Modify.{own_name, modify_made, modify_verdict};
ghost use Rattle.ldap_rules.specs.Rename.{own_values};

use crate::rename::own_values;
use crate::values::modifications;
use crate::writes::{all_writes, light_change};
use dn_text::{JudgeFault, entry_at};
use ldap_types::{Control, Identity, RawMod};
use repl_data::{AvaList, Body, ModList, Rdn, Uid, View};
use std::alloc::Global;

/// What is written of the modifications of an entry.
fn mods_of<V: View>(
    alloc: Global,
    view: &V,
    id: Uid,
    given: &[RawMod],
) -> Result<ModList, JudgeFault>
    ensures { Gives result (coded (modifications (own_name (V.view view.now) id) (own_values (V.view view.now) id) given.now)) }
{
    let own = own_values(view, id);
    match view.name(id) {
        Some(name) => modifications(alloc, name, own, given),
        None => {
            let avas = AvaList::new(alloc);
            modifications(alloc, &Rdn { avas }, own, given)
        }
    }
}

/// What a modify of a name makes, by the relative names above the suffix.
#[tactic(auto, unfolding(crate::specs::Modify::modify_made))]
fn modify_made<V: View>(
    alloc: Global,
    view: &V,
    given: &[RawMod],
    rdns: &[Rdn],
) -> Result<(Uid, Body), JudgeFault>
    ensures { Gives result (modify_made (V.view view.now) given.now rdns.now) }
{
    let id = entry_at(alloc, view, rdns)?;
    let mods = mods_of(alloc, view, id, given)?;
    Ok((id, Body::Mod { mods }))
}

/// What a modify makes (RFC 4511, section 4.6): the entry that is modified, and the body.
pub(crate) fn judge_modify<V: View>(
    alloc: Global,
    view: &V,
    controls: &[Control],
    bound: Identity,
    object: &[u8],
    given: &[RawMod],
) -> Result<(Uid, Body), JudgeFault>
    ensures { Gives result (modify_verdict (V.view view.now) controls.now bound object.now given.now) }
{
    let rdns = all_writes(alloc, view.suffix_name(), controls, bound, object)?;
    let change = modify_made(alloc, view, given, rdns.as_slice())?;
    light_change(alloc, change)
}
