//! What the acts of a change do to values.

ghost use Rattle.std.specs.Prelude.{◌≡◌, ◌++◌, ◌+◌, ◌<◌, ◌^◌, [], ◌∷◌, IfOk, OnOk, List, map, flat_map, filter, length, codes, if◌then◌else◌};
ghost use Rattle.std.specs.Option.{option_to_list, option_copied};
ghost use Rattle.repl_data.specs.declared.change.Ava.{Ava};
ghost use Rattle.repl_data.specs.declared.change.Attr.{Attr};
ghost use Rattle.repl_data.specs.declared.change.Change.{Change};
ghost use Rattle.repl_data.specs.Order.{zero_csn, bytes_eq, uid_eq, suffix_id, stamp};
ghost use Rattle.repl_data.specs.Stamps.{Adds, Deletes, Clears, adds, mod_acts, mods_acts, body_acts, suffix_acts, of_entry, acts_on};
ghost use Rattle.repl_data.specs.Facts.{attr_of, is_act_on, keys_named, additions, deletions, clearings};
ghost use Rattle.plain_view.specs.Seen.{act_of};

use crate::copied::Copied;
use crate::stamp::Stamp;
use repl_data::{
    Attr, AttrKey, Ava, Body, Bytes, BytesList, Change, Csn, Items, Mod, ModKind, NoMemory, Suffix,
    Uid, Val, same_id, text_val,
};
use std::alloc::Global;

/// One act of a change on a value, or on a whole attribute.
#[derive(Clone, Drop)]
pub(crate) enum Act {
    Adds {
        stamp: Stamp,
        attr: AttrKey,
        val: Val,
    },
    Deletes {
        stamp: Stamp,
        attr: AttrKey,
        val: Val,
    },
    Clears {
        stamp: Stamp,
        attr: AttrKey,
    },
}

impl Copied for Act {
    fn copied(&self) -> Result<Act, NoMemory> {
        Ok(self.clone()?)
    }
}

pub(crate) type ActList = Items<Act>;

/// Appends an add of a value.
#[tactic(auto, using(repl_data::proofs::Loops::map_append))]
fn add_value(stamp: Stamp, attr: &AttrKey, val: &Val, acts: &mut ActList) -> Result<(), NoMemory>
    ensures { OnOk result (map act_of acts.new ≡ map act_of acts.old ++ Adds stamp attr.now val.now ∷ []) }
{
    acts.push(Act::Adds {
        stamp,
        attr: attr.copied()?,
        val: val.copied()?,
    })?;
    Ok(())
}

/// Appends a delete of a value.
#[tactic(auto, using(repl_data::proofs::Loops::map_append))]
fn delete_value(stamp: Stamp, attr: &AttrKey, val: &Val, acts: &mut ActList) -> Result<(), NoMemory>
    ensures { OnOk result (map act_of acts.new ≡ map act_of acts.old ++ Deletes stamp attr.now val.now ∷ []) }
{
    acts.push(Act::Deletes {
        stamp,
        attr: attr.copied()?,
        val: val.copied()?,
    })?;
    Ok(())
}

/// Appends a delete of a whole attribute.
#[tactic(auto, using(repl_data::proofs::Loops::map_append))]
fn clear(stamp: Stamp, attr: &AttrKey, acts: &mut ActList) -> Result<(), NoMemory>
    ensures { OnOk result (map act_of acts.new ≡ map act_of acts.old ++ Clears stamp attr.now ∷ []) }
{
    acts.push(Act::Clears {
        stamp,
        attr: attr.copied()?,
    })?;
    Ok(())
}

#[tactic(auto, using(repl_data::proofs::Loops::map_more))]
fn add_values(
    stamp: Stamp,
    attr: &AttrKey,
    vals: &[Val],
    acts: &mut ActList,
) -> Result<(), NoMemory>
    ensures { OnOk result (map act_of acts.new ≡ map act_of acts.old ++ adds stamp attr.now vals.now) }
{
    for val in vals {
        add_value(stamp, attr, val, acts)?;
    }
    Ok(())
}

#[tactic(auto, using(repl_data::proofs::Loops::map_more))]
fn delete_values(
    stamp: Stamp,
    attr: &AttrKey,
    vals: &[Val],
    acts: &mut ActList,
) -> Result<(), NoMemory>
    ensures { OnOk result (map act_of acts.new ≡ map act_of acts.old ++ map (Deletes stamp attr.now) vals.now) }
{
    for val in vals {
        delete_value(stamp, attr, val, acts)?;
    }
    Ok(())
}

/// A delete without values, and each replace, deletes the whole attribute.
fn mod_acts(stamp: Stamp, m: &Mod, acts: &mut ActList) -> Result<(), NoMemory>
    ensures { OnOk result (map act_of acts.new ≡ map act_of acts.old ++ mod_acts stamp m.now) }
{
    match m.kind {
        ModKind::Add => add_values(stamp, &m.attr, m.vals.as_slice(), acts),
        ModKind::Delete => {
            if m.vals.is_empty() {
                clear(stamp, &m.attr, acts)
            } else {
                delete_values(stamp, &m.attr, m.vals.as_slice(), acts)
            }
        }
        ModKind::Replace => {
            clear(stamp, &m.attr, acts)?;
            add_values(stamp, &m.attr, m.vals.as_slice(), acts)
        }
    }
}

/// The modifications, each at its stamp.
fn mods_acts(csn: Csn, mods: &[Mod], acts: &mut ActList) -> Result<(), NoMemory>
    ensures { OnOk result (map act_of acts.new ≡ map act_of acts.old ++ mods_acts csn 1 mods.now) }
{
    for (i, m) in mods.iter().enumerate() {
        mod_acts(Stamp::part(csn, i + 1), m, acts)?;
    }
    Ok(())
}

#[tactic(auto, using(repl_data::proofs::Loops::flat_map_more))]
fn attrs_acts(csn: Csn, attrs: &[Attr], acts: &mut ActList) -> Result<(), NoMemory>
    ensures { OnOk result (map act_of acts.new ≡ map act_of acts.old ++ flat_map (λ (a : Attr). adds (stamp csn 0) a.attr a.vals) attrs.now) }
{
    for a in attrs {
        add_values(Stamp::part(csn, 0), &a.attr, a.vals.as_slice(), acts)?;
    }
    Ok(())
}

/// Appends an add of each part of a name.
#[tactic(auto, using(repl_data::proofs::Loops::map_more))]
fn add_parts(stamp: Stamp, parts: &[Ava], acts: &mut ActList) -> Result<(), NoMemory>
    ensures { OnOk result (map act_of acts.new ≡ map act_of acts.old ++ map (λ (a : Ava). Adds stamp a.attr a.val) parts.now) }
{
    for a in parts {
        add_value(stamp, &a.attr, &a.val, acts)?;
    }
    Ok(())
}

#[tactic(auto, using(repl_data::proofs::Loops::map_more))]
fn delete_parts(stamp: Stamp, parts: &[Ava], acts: &mut ActList) -> Result<(), NoMemory>
    ensures { OnOk result (map act_of acts.new ≡ map act_of acts.old ++ map (λ (a : Ava). Deletes stamp a.attr a.val) parts.now) }
{
    for a in parts {
        delete_value(stamp, &a.attr, &a.val, acts)?;
    }
    Ok(())
}

/// What a change does to the values of its target.
fn body_acts(csn: Csn, body: &Body, acts: &mut ActList) -> Result<(), NoMemory>
    ensures { OnOk result (map act_of acts.new ≡ map act_of acts.old ++ body_acts csn body.now) }
{
    match body {
        Body::Add { attrs, .. } => attrs_acts(csn, attrs.as_slice(), acts),
        Body::Mod { mods } => mods_acts(csn, mods.as_slice(), acts),
        Body::Ren { rdn, dropped } => {
            delete_parts(Stamp::part(csn, 0), dropped.as_slice(), acts)?;
            add_parts(Stamp::part(csn, 1), rdn.avas.as_slice(), acts)
        }
        Body::Del => Ok(()),
    }
}

fn text(alloc: Global, bytes: &[u8]) -> Result<Bytes, NoMemory>
    ensures { IfOk result (λ t. t ≡ bytes.now) }
{
    Bytes::from_slice(alloc, bytes)
}

pub(crate) fn named(alloc: Global, name: &[u8]) -> Result<AttrKey, NoMemory>
    ensures { IfOk result (λ t. t.name ≡ name.now) }
{
    Ok(AttrKey {
        name: text(alloc, name)?,
    })
}

/// The values that the suffix entry has from the start, at the zero stamp.
fn suffix_acts(alloc: Global, suffix: &Suffix) -> Result<ActList, NoMemory>
    ensures { IfOk result (λ acts. map act_of acts ≡ suffix_acts suffix.now) }
{
    let mut acts = Items::new(alloc);
    add_parts(Stamp::zero(), suffix.rdn.avas.as_slice(), &mut acts)?;
    let class = named(alloc, b"objectclass".as_slice())?;
    let top = text_val(alloc, b"top".as_slice())?;
    let domain = text_val(alloc, b"domain".as_slice())?;
    add_value(Stamp::zero(), &class, &top, &mut acts)?;
    add_value(Stamp::zero(), &class, &domain, &mut acts)?;
    Ok(acts)
}

fn first_acts(alloc: Global, suffix: &Suffix, id: Uid) -> Result<ActList, NoMemory>
    ensures { IfOk result (λ acts. map act_of acts ≡ (if uid_eq id suffix_id then suffix_acts suffix.now else [])) }
{
    if same_id(id, Uid::SUFFIX) {
        suffix_acts(alloc, suffix)
    } else {
        Ok(Items::new(alloc))
    }
}

/// All acts on an entry, of its own changes.
#[tactic(auto, using(repl_data::proofs::Loops::flat_map_more))]
pub(crate) fn acts_on(
    alloc: Global,
    suffix: &Suffix,
    id: Uid,
    own: &[Change],
) -> Result<ActList, NoMemory>
    ensures { IfOk result (λ acts. map act_of acts ≡ acts_on suffix.now id own.now) }
{
    let mut acts = first_acts(alloc, suffix, id)?;
    for c in own {
        body_acts(c.csn, &c.body, &mut acts)?;
    }
    Ok(acts)
}
