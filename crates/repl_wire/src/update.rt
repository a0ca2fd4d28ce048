//! Updates as requests.

ghost use Rattle.std.specs.Prelude.{◌≡◌, take, drop, IfOk, MatchResult, Ok, Err};
ghost use Rattle.std.specs.List.{list_any};
ghost use Rattle.repl_wire.specs.Fault.{Gives};
ghost use Rattle.repl_wire.specs.Keys.{HasKeysOfSpellings};
ghost use Rattle.repl_wire.specs.Update.{is_update, carried, control_of, object_of, target_of, one_rdn, rdn_of, add_of, no_origin, no_fields, mods_of, delete_of, fits, rename_of, body_of, update_of};
ghost use Rattle.repl_wire.specs.UpdateForm.{update_name};

use crate::control::{Dropped, Fields, control_at, uid_of};
use crate::fault::{WireFault, WireWhy};
use crate::keyed::{attrs_of, mods_of, parts_of};
use dn_text::{RdnList, read_dn};
use ldap_types::{Bytes, Control, Op, RawAttrList, RawModList, Request};
use repl_data::{Body, Change, Items, Rdn, Uid, Update};
use std::alloc::Global;

/// The name of the control of updates.
#[tactic(auto, unfolding(crate::specs::UpdateForm::update_name))]
pub fn update_name() -> &'static [u8]
    ensures { result.now ≡ update_name }
{
    b"2.999.389.3".as_slice()
}

/// Whether the control has the name of updates.
pub fn is_update(control: &Control) -> bool
    ensures { result ≡ is_update control.now }
{
    control.oid.as_slice() == update_name()
}

fn has_update(controls: &[Control]) -> bool
    ensures { result ≡ list_any is_update controls.now }
{
    controls.iter().any(|control| is_update(control))
}

/// The value of a control that is critical.
fn carried(control: &Control) -> Result<&[u8], WireFault>
    ensures { MatchResult result (λ v. carried control.now ≡ Ok v.now) (λ e. carried control.now ≡ Err e) }
{
    if !control.critical {
        return Err(WireFault::Bad {
            place: 0,
            why: WireWhy::Control,
        });
    }
    match &control.value {
        Some(value) => Ok(value.as_slice()),
        None => Err(WireFault::Bad {
            place: 0,
            why: WireWhy::NoValue,
        }),
    }
}

/// The value of the one control of updates.
fn control_of(controls: &[Control]) -> Result<&[u8], WireFault>
    ensures { MatchResult result (λ v. control_of controls.now ≡ Ok v.now) (λ e. control_of controls.now ≡ Err e) }
{
    match controls {
        [] => Err(WireFault::Bad {
            place: 0,
            why: WireWhy::Control,
        }),
        [first, rest @ ..] => {
            if !is_update(first) {
                control_of(rest)
            } else if has_update(rest) {
                Err(WireFault::Bad {
                    place: 0,
                    why: WireWhy::Control,
                })
            } else {
                carried(first)
            }
        }
    }
}

/// The entry that a write names.
fn object_of(op: &Op) -> Result<&[u8], WireFault>
    ensures { MatchResult result (λ v. object_of op.now ≡ Ok v.now) (λ e. object_of op.now ≡ Err e) }
{
    match op {
        Op::Add { object, .. }
        | Op::Modify { object, .. }
        | Op::Rename { object, .. }
        | Op::Delete { object } => Ok(object.as_slice()),
        _ => Err(WireFault::Bad {
            place: 0,
            why: WireWhy::Op,
        }),
    }
}

const FIELD: WireFault = WireFault::Bad {
    place: 0,
    why: WireWhy::Field,
};

fn front(name: &[u8]) -> &[u8]
    ensures { result.now ≡ take 11 name.now }
{
    if name.len() > 11 { &name[..11] } else { name }
}

fn behind(name: &[u8]) -> &[u8]
    ensures { result.now ≡ drop 11 name.now }
{
    if name.len() > 11 { &name[11..] } else { &[] }
}

/// The id that an entry goes by.
fn target_of(alloc: Global, object: &[u8]) -> Result<Uid, WireFault>
    ensures { Gives result (target_of object.now) }
{
    if front(object) != b"nsuniqueid=".as_slice() {
        return Err(WireFault::Bad {
            place: 0,
            why: WireWhy::Target,
        });
    }
    match uid_of(alloc, behind(object))? {
        Some(uid) => Ok(uid),
        None => Err(WireFault::Bad {
            place: 0,
            why: WireWhy::Target,
        }),
    }
}

fn one_rdn(rdns: RdnList) -> Result<Rdn, WireFault>
    ensures { result ≡ one_rdn rdns }
{
    let mut rdns = rdns;
    if rdns.len() != 1 {
        return Err(WireFault::Bad {
            place: 0,
            why: WireWhy::Rdn,
        });
    }
    Ok(rdns.remove(0))
}

/// The relative name that a text is, with the keys of its values.
#[tactic(auto, unfolding(crate::specs::Update::rdn_of))]
fn rdn_of(alloc: Global, text: &[u8]) -> Result<Rdn, WireFault>
    ensures { Gives result (rdn_of text.now) }
{
    let dn = read_dn(alloc, text)?;
    one_rdn(dn.rdns)
}

#[tactic(auto, unfolding(crate::specs::Update::add_of))]
fn add_of(alloc: Global, fields: &Fields, attrs: &RawAttrList) -> Result<Body, WireFault>
    ensures { Gives result (add_of fields.now attrs.now) }
{
    let Some(parent) = fields.parent else {
        return Err(FIELD);
    };
    let Some(name) = &fields.name else {
        return Err(FIELD);
    };
    if fields.dropped.is_some() {
        return Err(FIELD);
    }
    let rdn = rdn_of(alloc, name.as_slice())?;
    let attrs = attrs_of(alloc, attrs)?;
    Ok(Body::Add { parent, rdn, attrs })
}

/// Neither a parent nor a name is there.
#[tactic(auto, unfolding(crate::specs::Update::no_origin))]
fn no_origin(fields: &Fields) -> Result<(), WireFault>
    ensures { result ≡ no_origin fields.now }
{
    if fields.parent.is_some() {
        return Err(FIELD);
    }
    if fields.name.is_some() {
        return Err(FIELD);
    }
    Ok(())
}

#[tactic(auto, unfolding(crate::specs::Update::no_fields))]
fn no_fields(fields: &Fields) -> Result<(), WireFault>
    ensures { result ≡ no_fields fields.now }
{
    no_origin(fields)?;
    if fields.dropped.is_some() {
        return Err(FIELD);
    }
    Ok(())
}

#[tactic(auto, unfolding(crate::specs::Update::mods_of))]
fn modify_of(alloc: Global, fields: &Fields, mods: &RawModList) -> Result<Body, WireFault>
    ensures { Gives result (mods_of fields.now mods.now) }
{
    no_fields(fields)?;
    let mods = mods_of(alloc, mods)?;
    Ok(Body::Mod { mods })
}

#[tactic(auto, unfolding(crate::specs::Update::delete_of))]
fn delete_of(fields: &Fields) -> Result<Body, WireFault>
    ensures { Gives result (delete_of fields.now) }
{
    no_fields(fields)?;
    Ok(Body::Del)
}

/// The old relative name is marked for deletion exactly where something of it is dropped, and the entry
/// does not move.
fn fits(
    dropped: &Items<Dropped>,
    delete_old: bool,
    superior: &Option<Bytes>,
) -> Result<(), WireFault>
    ensures { result ≡ fits dropped.now delete_old superior.now }
{
    if superior.is_some() {
        return Err(FIELD);
    }
    if delete_old == dropped.is_empty() {
        return Err(FIELD);
    }
    Ok(())
}

#[tactic(auto, unfolding(crate::specs::Update::rename_of))]
fn rename_of(
    alloc: Global,
    fields: &Fields,
    text: &[u8],
    delete_old: bool,
    superior: &Option<Bytes>,
) -> Result<Body, WireFault>
    ensures { Gives result (rename_of fields.now text.now delete_old superior.now) }
{
    no_origin(fields)?;
    let Some(dropped) = &fields.dropped else {
        return Err(FIELD);
    };
    fits(dropped, delete_old, superior)?;
    let rdn = rdn_of(alloc, text)?;
    let dropped = parts_of(alloc, dropped)?;
    Ok(Body::Ren { rdn, dropped })
}

fn body_of(alloc: Global, fields: &Fields, op: &Op) -> Result<Body, WireFault>
    ensures { Gives result (body_of fields.now op.now) }
{
    match op {
        Op::Add { attrs, .. } => add_of(alloc, fields, attrs),
        Op::Modify { mods, .. } => modify_of(alloc, fields, mods),
        Op::Rename {
            new_rdn,
            delete_old,
            new_superior,
            ..
        } => rename_of(alloc, fields, new_rdn.as_slice(), *delete_old, new_superior),
        Op::Delete { .. } => delete_of(fields),
        _ => Err(WireFault::Bad {
            place: 0,
            why: WireWhy::Op,
        }),
    }
}

#[tactic(auto, unfolding(crate::specs::Update::update_of))]
fn find_update(alloc: Global, request: &Request) -> Result<Update, WireFault>
    ensures { Gives result (update_of request.now) }
{
    let object = object_of(&request.op)?;
    let value = control_of(request.controls.as_slice())?;
    let fields = control_at(alloc, value)?;
    let target = target_of(alloc, object)?;
    let body = body_of(alloc, &fields, &request.op)?;
    Ok(Update {
        change: Change {
            csn: fields.csn,
            target,
            body,
        },
        prev: fields.prev,
    })
}

/// The update that a request is: an add, modify, modify DN or delete of an entry that goes by its id, with
/// exactly one control named 2.999.389.3, which is critical; other controls are not looked at. The control's
/// value has the change's CSN and the one before it, and for an add the parent's id and the relative name,
/// for a modify DN what is dropped of the old name. CSNs are read in either case, ids only as they are
/// printed, and lengths may be longer than needed.
///
/// The fault is the first one: the operation, the control, its value, the entry, the fields, and then
/// what the operation does.
pub fn read_update(alloc: Global, request: &Request) -> Result<Update, WireFault>
    ensures exact { Gives result (update_of request.now) }

    // The keys of what is read are those of its spellings.
    ensures keys { IfOk result HasKeysOfSpellings }
{
    find_update(alloc, request)
}
