//! What the acts of a change do to attributes and values.

ghost use Rattle.std.specs.Prelude.{◌≡◌, ◌≤◌, ◌<◌, ◌++◌, ◌∷◌, [], ℕ, List, map, flat_map, length, OnOk, IfOk, IsTrue};
ghost use Rattle.repl_data.specs.declared.change.AttrKey.{AttrKey};
ghost use Rattle.repl_data.specs.declared.change.Ava.{Ava};
ghost use Rattle.repl_data.specs.declared.change.Attr.{Attr};
ghost use Rattle.repl_data.specs.Order.{zero_csn, stamp, put_by, bytes_cmp};
ghost use Rattle.repl_data.specs.Closed.{is_sound};
ghost use Rattle.repl_data.specs.Stamps.{Adds, Deletes, Clears, adds, mod_acts, mods_acts, body_acts};
ghost use Rattle.repl_data.specs.Facts.{AttrFacts};
ghost use Rattle.repl_data.specs.Ordered.{Rises};
ghost use Rattle.stamp_entry.specs.Ordered.{AreOrdered, HasRisingVals, attr_name, val_key};
ghost use Rattle.stamp_entry.specs.Raised.{raised_val, val_at, raised_attr, attr_at, raised, raised_by};

use crate::entry::{StampedAttr, StampedAttrList, StampedVal, StampedValList, later_of};
use repl_data::{
    Attr, AttrKey, Ava, Body, Bytes, Change, Csn, Items, Mod, ModKind, NoMemory, Val, found_by_key,
    place_of, put_by_key, same_bytes,
};
use std::alloc::Global;

impl StampedVal {
    /// The value after an add of a value.
    fn add(self, stamp: Csn, val: &Val) -> Result<StampedVal, NoMemory>
        ensures { IfOk result (λ v. (t : AttrKey) → v ≡ raised_val (Adds stamp t val.now) self) }
    {
        if same_bytes(self.key.as_slice(), val.key.as_slice()) {
            if self.up.compare(stamp).is_lt() {
                let spelled = val.spelled.clone()?;
                return Ok(StampedVal {
                    spelled,
                    up: stamp,
                    ..self
                });
            }
        }
        Ok(self)
    }

    /// The value after a delete of a value.
    fn delete(self, stamp: Csn, val: &Val) -> StampedVal
        ensures { (t : AttrKey) → result ≡ raised_val (Deletes stamp t val.now) self }
    {
        if same_bytes(self.key.as_slice(), val.key.as_slice()) {
            StampedVal {
                down: later_of(self.down, stamp),
                ..self
            }
        } else {
            self
        }
    }

    /// The value after a delete of the whole attribute.
    fn clear(self, stamp: Csn) -> StampedVal
        ensures { (t : AttrKey) → result ≡ raised_val (Clears stamp t) self }
    {
        StampedVal {
            down: later_of(self.down, stamp),
            ..self
        }
    }
}

fn copied(val: &StampedVal) -> Result<StampedVal, NoMemory>
    ensures { IfOk result (λ copy. copy ≡ val.now) }
{
    Ok(val.clone()?)
}

/// The values after a delete of all of them.
fn clear_vals(alloc: Global, stamp: Csn, vals: &[StampedVal]) -> Result<StampedValList, NoMemory>
    ensures { IfOk result (λ cleared. (t : AttrKey) → cleared ≡ map (raised_val (Clears stamp t)) vals.now) }
{
    let mut cleared = Items::new(alloc);
    for val in vals {
        let copy = copied(val)?;
        cleared.push(copy.clear(stamp))?;
    }
    Ok(cleared)
}

impl StampedAttr {
    /// The value at a key, or what it is where no change named it yet.
    fn val_at(&self, alloc: Global, key: &Bytes) -> Result<StampedVal, NoMemory>
        requires { HasRisingVals self.now }
        ensures { IfOk result (λ v. v ≡ val_at key.now self.now) }
    {
        match found_by_key(self.vals.as_slice(), key.as_slice()) {
            Some(val) => Ok(val.clone()?),
            None => Ok(StampedVal {
                key: key.clone()?,
                spelled: Items::new(alloc),
                up: Csn::ZERO,
                down: self.whole,
            }),
        }
    }

    fn add(&mut self, alloc: Global, stamp: Csn, val: &Val) -> Result<(), NoMemory>
        requires { HasRisingVals self.old }
        ensures { OnOk result ((t : AttrKey) → self.new ≡ raised_attr (Adds stamp t val.now) self.old) }
    {
        let raised = self.val_at(alloc, &val.key)?.add(stamp, val)?;
        put_by_key(raised, &mut self.vals)?;
        Ok(())
    }

    fn delete(&mut self, alloc: Global, stamp: Csn, val: &Val) -> Result<(), NoMemory>
        requires { HasRisingVals self.old }
        ensures { OnOk result ((t : AttrKey) → self.new ≡ raised_attr (Deletes stamp t val.now) self.old) }
    {
        let raised = self.val_at(alloc, &val.key)?.delete(stamp, val);
        put_by_key(raised, &mut self.vals)?;
        Ok(())
    }

    fn clear(&mut self, alloc: Global, stamp: Csn) -> Result<(), NoMemory>
        ensures { OnOk result ((t : AttrKey) → self.new ≡ raised_attr (Clears stamp t) self.old) }
    {
        let vals = clear_vals(alloc, stamp, self.vals.as_slice())?;
        self.vals = vals;
        self.whole = later_of(self.whole, stamp);
        Ok(())
    }
}

/// An attribute of which nothing is known.
fn blank_attr(alloc: Global, attr: &AttrKey) -> Result<StampedAttr, NoMemory>
    ensures { IfOk result (λ a. a ≡ record { attr = attr.now; whole = zero_csn; vals = [] }) }
{
    Ok(StampedAttr {
        attr: attr.clone()?,
        whole: Csn::ZERO,
        vals: Items::new(alloc),
    })
}

/// Takes the attribute out, or makes what it is where no change named it yet.
pub(crate) fn take(
    alloc: Global,
    attr: &AttrKey,
    attrs: &mut StampedAttrList,
) -> Result<StampedAttr, NoMemory>
    requires { AreOrdered attrs.old }
    ensures attr { IfOk result (λ a. a ≡ attr_at attr.now attrs.old) }
    ensures name { IfOk result (λ a. a.attr.name ≡ attr.now.name) }
    ensures vals { IfOk result HasRisingVals }
    ensures rest { OnOk result ((x : AttrFacts) → x.attr.name ≡ attr.now.name → put_by attr_name bytes_cmp x attrs.new ≡ put_by attr_name bytes_cmp x attrs.old) }
    ensures ordered { OnOk result (AreOrdered attrs.new) }
{
    match place_of(attrs.as_slice(), attr.name.as_slice()) {
        Ok(at) => Ok(attrs.remove(at)),
        Err(_) => {
            let blank = blank_attr(alloc, attr)?;
            Ok(blank)
        }
    }
}

/// Adds a value.
fn add_value(
    alloc: Global,
    stamp: Csn,
    attr: &AttrKey,
    val: &Val,
    attrs: &mut StampedAttrList,
) -> Result<(), NoMemory>
    requires { AreOrdered attrs.old }
    ensures raised { OnOk result (attrs.new ≡ raised (Adds stamp attr.now val.now) attrs.old) }
    ensures ordered { OnOk result (AreOrdered attrs.new) }
{
    let mut taken = take(alloc, attr, attrs)?;
    taken.add(alloc, stamp, val)?;
    put_by_key(taken, attrs)?;
    Ok(())
}

/// Deletes a value.
fn delete_value(
    alloc: Global,
    stamp: Csn,
    attr: &AttrKey,
    val: &Val,
    attrs: &mut StampedAttrList,
) -> Result<(), NoMemory>
    requires { AreOrdered attrs.old }
    ensures raised { OnOk result (attrs.new ≡ raised (Deletes stamp attr.now val.now) attrs.old) }
    ensures ordered { OnOk result (AreOrdered attrs.new) }
{
    let mut taken = take(alloc, attr, attrs)?;
    taken.delete(alloc, stamp, val)?;
    put_by_key(taken, attrs)?;
    Ok(())
}

/// Deletes a whole attribute, with the values of it that no change named yet.
fn clear(
    alloc: Global,
    stamp: Csn,
    attr: &AttrKey,
    attrs: &mut StampedAttrList,
) -> Result<(), NoMemory>
    requires { AreOrdered attrs.old }
    ensures raised { OnOk result (attrs.new ≡ raised (Clears stamp attr.now) attrs.old) }
    ensures ordered { OnOk result (AreOrdered attrs.new) }
{
    let mut taken = take(alloc, attr, attrs)?;
    taken.clear(alloc, stamp)?;
    put_by_key(taken, attrs)?;
    Ok(())
}

#[tactic(auto, using(crate::proofs::Raising::raised_map_more))]
fn add_values(
    alloc: Global,
    stamp: Csn,
    attr: &AttrKey,
    vals: &[Val],
    attrs: &mut StampedAttrList,
) -> Result<(), NoMemory>
    requires { AreOrdered attrs.old }
    ensures raised { OnOk result (attrs.new ≡ raised_by attrs.old (adds stamp attr.now vals.now)) }
    ensures ordered { OnOk result (AreOrdered attrs.new) }
{
    for val in vals {
        add_value(alloc, stamp, attr, val, attrs)?;
    }
    Ok(())
}

#[tactic(auto, using(crate::proofs::Raising::raised_map_more))]
fn delete_values(
    alloc: Global,
    stamp: Csn,
    attr: &AttrKey,
    vals: &[Val],
    attrs: &mut StampedAttrList,
) -> Result<(), NoMemory>
    requires { AreOrdered attrs.old }
    ensures raised { OnOk result (attrs.new ≡ raised_by attrs.old (map (Deletes stamp attr.now) vals.now)) }
    ensures ordered { OnOk result (AreOrdered attrs.new) }
{
    for val in vals {
        delete_value(alloc, stamp, attr, val, attrs)?;
    }
    Ok(())
}

/// One modification. A delete without values, and each replace, deletes the whole attribute.
fn raise_mod(
    alloc: Global,
    stamp: Csn,
    m: &Mod,
    attrs: &mut StampedAttrList,
) -> Result<(), NoMemory>
    requires { AreOrdered attrs.old }
    ensures raised { OnOk result (attrs.new ≡ raised_by attrs.old (mod_acts stamp m.now)) }
    ensures ordered { OnOk result (AreOrdered attrs.new) }
{
    match m.kind {
        ModKind::Add => add_values(alloc, stamp, &m.attr, m.vals.as_slice(), attrs),
        ModKind::Delete => {
            if m.vals.is_empty() {
                clear(alloc, stamp, &m.attr, attrs)
            } else {
                delete_values(alloc, stamp, &m.attr, m.vals.as_slice(), attrs)
            }
        }
        ModKind::Replace => {
            clear(alloc, stamp, &m.attr, attrs)?;
            add_values(alloc, stamp, &m.attr, m.vals.as_slice(), attrs)
        }
    }
}

/// The modifications, each at its stamp.
fn raise_mods(
    alloc: Global,
    csn: Csn,
    mods: &[Mod],
    attrs: &mut StampedAttrList,
) -> Result<(), NoMemory>
    requires ordered { AreOrdered attrs.old }
    requires few { length mods.now ≤ 1000 }
    ensures raised { OnOk result (attrs.new ≡ raised_by attrs.old (mods_acts csn 1 mods.now)) }
    ensures ordered { OnOk result (AreOrdered attrs.new) }
{
    for (i, m) in mods.iter().enumerate() {
        raise_mod(alloc, csn.part((i + 1) as u16), m, attrs)?;
    }
    Ok(())
}

/// The values of an Add.
#[tactic(auto, using(crate::proofs::Raising::raised_flat_map_more))]
fn add_attrs(
    alloc: Global,
    csn: Csn,
    given: &[Attr],
    attrs: &mut StampedAttrList,
) -> Result<(), NoMemory>
    requires { AreOrdered attrs.old }
    ensures raised { OnOk result (attrs.new ≡ raised_by attrs.old (flat_map (λ (a : Attr). adds (stamp csn 0) a.attr a.vals) given.now)) }
    ensures ordered { OnOk result (AreOrdered attrs.new) }
{
    for a in given {
        add_values(alloc, csn.part(0), &a.attr, a.vals.as_slice(), attrs)?;
    }
    Ok(())
}

/// Adds each part of a name.
#[tactic(auto, using(crate::proofs::Raising::raised_map_more))]
fn add_parts(
    alloc: Global,
    stamp: Csn,
    parts: &[Ava],
    attrs: &mut StampedAttrList,
) -> Result<(), NoMemory>
    requires { AreOrdered attrs.old }
    ensures raised { OnOk result (attrs.new ≡ raised_by attrs.old (map (λ (a : Ava). Adds stamp a.attr a.val) parts.now)) }
    ensures ordered { OnOk result (AreOrdered attrs.new) }
{
    for a in parts {
        add_value(alloc, stamp, &a.attr, &a.val, attrs)?;
    }
    Ok(())
}

#[tactic(auto, using(crate::proofs::Raising::raised_map_more))]
fn delete_parts(
    alloc: Global,
    stamp: Csn,
    parts: &[Ava],
    attrs: &mut StampedAttrList,
) -> Result<(), NoMemory>
    requires { AreOrdered attrs.old }
    ensures raised { OnOk result (attrs.new ≡ raised_by attrs.old (map (λ (a : Ava). Deletes stamp a.attr a.val) parts.now)) }
    ensures ordered { OnOk result (AreOrdered attrs.new) }
{
    for a in parts {
        delete_value(alloc, stamp, &a.attr, &a.val, attrs)?;
    }
    Ok(())
}

/// Deletes the dropped values of a rename and adds those of the new name.
#[tactic(auto, using(crate::proofs::Raising::raised_by_append))]
fn rename_parts(
    alloc: Global,
    csn: Csn,
    parts: &[Ava],
    dropped: &[Ava],
    attrs: &mut StampedAttrList,
) -> Result<(), NoMemory>
    requires { AreOrdered attrs.old }
    ensures raised { OnOk result (attrs.new ≡ raised_by attrs.old (map (λ (a : Ava). Deletes (stamp csn 0) a.attr a.val) dropped.now ++ map (λ (a : Ava). Adds (stamp csn 1) a.attr a.val) parts.now)) }
    ensures ordered { OnOk result (AreOrdered attrs.new) }
{
    delete_parts(alloc, csn.part(0), dropped, attrs)?;
    add_parts(alloc, csn.part(1), parts, attrs)
}

/// What a change does to the values of its target.
pub(crate) fn raise_body(
    alloc: Global,
    change: &Change,
    attrs: &mut StampedAttrList,
) -> Result<(), NoMemory>
    requires ordered { AreOrdered attrs.old }
    requires sound { IsTrue (is_sound change.now) }
    ensures raised { OnOk result (attrs.new ≡ raised_by attrs.old (body_acts change.now.csn change.now.body)) }
    ensures ordered { OnOk result (AreOrdered attrs.new) }
{
    match &change.body {
        Body::Add { attrs: given, .. } => add_attrs(alloc, change.csn, given.as_slice(), attrs),
        Body::Mod { mods } => raise_mods(alloc, change.csn, mods.as_slice(), attrs),
        Body::Ren { rdn, dropped } => rename_parts(
            alloc,
            change.csn,
            rdn.avas.as_slice(),
            dropped.as_slice(),
            attrs,
        ),
        Body::Del => Ok(()),
    }
}
