//! The suffix entry before any change.

ghost use Rattle.std.specs.Prelude.{◌≡◌, ◌∷◌, [], codes, IfOk, OnOk};
ghost use Rattle.repl_data.specs.declared.change.AttrKey.{AttrKey};
ghost use Rattle.repl_data.specs.Order.{suffix_id};
ghost use Rattle.repl_data.specs.Stamps.{suffix_acts, text_val};
ghost use Rattle.repl_data.specs.Facts.{attrs_facts, own_facts};
ghost use Rattle.stamp_entry.specs.Ordered.{AreOrdered, IsOrdered, HasRisingVals};
ghost use Rattle.stamp_entry.specs.First.{first_val, first_attr, given_first, given_parts};

use crate::entry::{StampedAttr, StampedAttrList, StampedEntry, StampedVal};
use crate::raise::take;
use repl_data::{
    AttrKey, Ava, Bytes, Csn, Items, NoMemory, Rdn, Suffix, Uid, Val, put_by_key, text_val,
};
use std::alloc::Global;

/// A value that an entry has from the start.
fn first_val(val: &Val) -> Result<StampedVal, NoMemory>
    ensures { IfOk result (λ v. v ≡ first_val val.now) }
{
    Ok(StampedVal {
        key: val.key.clone()?,
        spelled: val.spelled.clone()?,
        up: Csn::ZERO,
        down: Csn::ZERO,
    })
}

impl StampedAttr {
    /// Puts a value that the entry has from the start.
    fn give(&mut self, val: &Val) -> Result<(), NoMemory>
        requires { HasRisingVals self.old }
        ensures { OnOk result (self.new ≡ first_attr val.now self.old) }
    {
        let first = first_val(val)?;
        put_by_key(first, &mut self.vals)?;
        Ok(())
    }
}

fn give_value(
    alloc: Global,
    attr: &AttrKey,
    val: &Val,
    attrs: &mut StampedAttrList,
) -> Result<(), NoMemory>
    requires { AreOrdered attrs.old }
    ensures given { OnOk result (attrs.new ≡ given_first attr.now val.now attrs.old) }
    ensures ordered { OnOk result (AreOrdered attrs.new) }
{
    let mut taken = take(alloc, attr, attrs)?;
    taken.give(val)?;
    put_by_key(taken, attrs)?;
    Ok(())
}

/// Gives the parts of a name, from the last to the first, so that of two with one key the first
/// stays.
fn give_parts(alloc: Global, parts: &[Ava], attrs: &mut StampedAttrList) -> Result<(), NoMemory>
    requires { AreOrdered attrs.old }
    ensures given { OnOk result (attrs.new ≡ given_parts parts.now attrs.old) }
    ensures ordered { OnOk result (AreOrdered attrs.new) }
{
    let mut left = parts.len();
    while left > 0 {
        left -= 1;
        let part = &parts[left];
        give_value(alloc, &part.attr, &part.val, attrs)?;
    }
    Ok(())
}

fn class_attr(alloc: Global) -> Result<AttrKey, NoMemory>
    ensures { IfOk result (λ t. t ≡ record { name = codes "objectclass" }) }
{
    Ok(AttrKey {
        name: Bytes::from_slice(alloc, b"objectclass".as_slice())?,
    })
}

/// The classes of the suffix entry.
fn give_classes(alloc: Global, attrs: &mut StampedAttrList) -> Result<(), NoMemory>
    requires { AreOrdered attrs.old }
    ensures given { OnOk result (attrs.new ≡ given_first (record { name = codes "objectclass" }) (text_val (codes "top")) (given_first (record { name = codes "objectclass" }) (text_val (codes "domain")) attrs.old)) }
    ensures ordered { OnOk result (AreOrdered attrs.new) }
{
    let class = class_attr(alloc)?;
    let domain = text_val(alloc, b"domain".as_slice())?;
    give_value(alloc, &class, &domain, attrs)?;
    let top = text_val(alloc, b"top".as_slice())?;
    give_value(alloc, &class, &top, attrs)?;
    Ok(())
}

/// The values that the suffix entry has from the start, at the zero stamp.
fn root_attrs(alloc: Global, suffix: &Suffix) -> Result<StampedAttrList, NoMemory>
    ensures given { IfOk result (λ attrs. attrs ≡ attrs_facts (suffix_acts suffix.now)) }
    ensures ordered { IfOk result AreOrdered }
{
    let mut attrs = Items::new(alloc);
    give_classes(alloc, &mut attrs)?;
    give_parts(alloc, suffix.rdn.avas.as_slice(), &mut attrs)?;
    Ok(attrs)
}

fn copied_rdn(rdn: &Rdn) -> Result<Rdn, NoMemory>
    ensures { IfOk result (λ copy. copy ≡ rdn.now) }
{
    Ok(rdn.clone()?)
}

impl StampedEntry {
    /// The suffix entry before any change of it: the values of its name and the classes `top` and
    /// `domain`, all at the zero stamp. Its changes come by `applied`, as those of any other entry.
    pub fn root(alloc: Global, suffix: &Suffix) -> Result<StampedEntry, NoMemory>
        // What no change at all says of the suffix entry.
        ensures facts { IfOk result (λ e. e ≡ own_facts suffix.now suffix_id []) }

        ensures ordered { IfOk result IsOrdered }
    {
        let attrs = root_attrs(alloc, suffix)?;
        let rdn = copied_rdn(&suffix.rdn)?;
        Ok(StampedEntry {
            id: Uid::SUFFIX,
            parent: Uid::SUFFIX,
            named: Csn::ZERO,
            dead: Csn::ZERO,
            rdn,
            attrs,
        })
    }
}
