//! Attributes and values with the keys of their spellings.

ghost use Rattle.std.specs.Prelude.{◌≡◌};
ghost use Rattle.repl_wire.specs.Fault.{Gives};
ghost use Rattle.repl_wire.specs.Keys.{attr_key, val_of, each_from, vals_of};
ghost use Rattle.repl_wire.specs.Update.{attr_of, kind_of_number, mod_of, part_of};

use crate::control::Dropped;
use crate::fault::{WireFault, WireWhy};
use attr_keys::{KeyFault, value_key};
use ldap_types::{Bytes, BytesList, RawAttr, RawAttrList, RawMod, RawModList};
use repl_data::{
    Attr, AttrKey, AttrList, Ava, AvaList, Items, Mod, ModKind, ModList, Val, ValList,
};
use std::alloc::Global;

/// The key of the name of the attribute with this number.
#[tactic(auto, unfolding(crate::specs::Keys::attr_key))]
fn attr_key(alloc: Global, at: usize, name: &[u8]) -> Result<AttrKey, WireFault>
    ensures { Gives result (attr_key at name.now) }
{
    match attr_keys::attr_key(alloc, name) {
        Ok(attr) => Ok(attr),
        Err(KeyFault::BadName { .. }) => Err(WireFault::Bad {
            place: at,
            why: WireWhy::Key,
        }),
        Err(_) => Err(WireFault::NoMemory),
    }
}

/// A value of the attribute with this number, and its key.
#[tactic(auto, unfolding(crate::specs::Keys::val_of))]
fn val_of(alloc: Global, at: usize, attr: &AttrKey, spelled: &Bytes) -> Result<Val, WireFault>
    ensures { Gives result (val_of at attr.now spelled.now) }
{
    match value_key(alloc, attr, spelled.as_slice()) {
        Ok(key) => Ok(Val {
            key,
            spelled: Bytes::from_slice(alloc, spelled.as_slice())?,
        }),
        Err(KeyFault::BadValue { .. }) => Err(WireFault::Bad {
            place: at,
            why: WireWhy::Key,
        }),
        Err(_) => Err(WireFault::NoMemory),
    }
}

fn vals_of(
    alloc: Global,
    at: usize,
    attr: &AttrKey,
    spelled: &BytesList,
) -> Result<ValList, WireFault>
    ensures { Gives result (vals_of at attr.now spelled.now) }
{
    let mut all = ValList::new(alloc);
    let items = spelled.as_slice();
    for one in items {
        let val = val_of(alloc, at, attr, one)?;
        all.push(val)?;
    }
    Ok(all)
}

#[tactic(auto, unfolding(crate::specs::Update::attr_of))]
fn attr_of(alloc: Global, at: usize, raw: &RawAttr) -> Result<Attr, WireFault>
    ensures { Gives result (attr_of at raw.now) }
{
    let attr = attr_key(alloc, at, raw.name.as_slice())?;
    let vals = vals_of(alloc, at, &attr, &raw.vals)?;
    Ok(Attr { attr, vals })
}

/// The attributes of an add.
pub(crate) fn attrs_of(alloc: Global, attrs: &RawAttrList) -> Result<AttrList, WireFault>
    ensures { Gives result (each_from attr_of 0 attrs.now) }
{
    let mut all = AttrList::new(alloc);
    let items = attrs.as_slice();
    for (at, raw) in items.iter().enumerate() {
        let attr = attr_of(alloc, at, raw)?;
        all.push(attr)?;
    }
    Ok(all)
}

fn kind_of_number(at: usize, kind: i64) -> Result<ModKind, WireFault>
    ensures { result ≡ kind_of_number at kind }
{
    match kind {
        0 => Ok(ModKind::Add),
        1 => Ok(ModKind::Delete),
        2 => Ok(ModKind::Replace),
        _ => Err(WireFault::Bad {
            place: at,
            why: WireWhy::Kind,
        }),
    }
}

#[tactic(auto, unfolding(crate::specs::Update::mod_of))]
fn mod_of(alloc: Global, at: usize, raw: &RawMod) -> Result<Mod, WireFault>
    ensures { Gives result (mod_of at raw.now) }
{
    let kind = kind_of_number(at, raw.kind)?;
    let attr = attr_key(alloc, at, raw.name.as_slice())?;
    let vals = vals_of(alloc, at, &attr, &raw.vals)?;
    Ok(Mod { kind, attr, vals })
}

/// The modifications of a modify.
pub(crate) fn mods_of(alloc: Global, mods: &RawModList) -> Result<ModList, WireFault>
    ensures { Gives result (each_from mod_of 0 mods.now) }
{
    let mut all = ModList::new(alloc);
    let items = mods.as_slice();
    for (at, raw) in items.iter().enumerate() {
        let one = mod_of(alloc, at, raw)?;
        all.push(one)?;
    }
    Ok(all)
}

#[tactic(auto, unfolding(crate::specs::Update::part_of))]
fn part_of(alloc: Global, at: usize, raw: &Dropped) -> Result<Ava, WireFault>
    ensures { Gives result (part_of at raw.now) }
{
    let attr = attr_key(alloc, at, raw.name.as_slice())?;
    let val = val_of(alloc, at, &attr, &raw.spelled)?;
    Ok(Ava { attr, val })
}

/// The dropped values of a modify DN.
pub(crate) fn parts_of(alloc: Global, dropped: &Items<Dropped>) -> Result<AvaList, WireFault>
    ensures { Gives result (each_from part_of 0 dropped.now) }
{
    let mut all = AvaList::new(alloc);
    let items = dropped.as_slice();
    for (at, raw) in items.iter().enumerate() {
        let part = part_of(alloc, at, raw)?;
        all.push(part)?;
    }
    Ok(all)
}
