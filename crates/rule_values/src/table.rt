//! Attributes in order of name, each with its values as a set.

ghost use Rattle.std.specs.Prelude.{◌≡◌, List, IfOk, OnOk};
ghost use Rattle.repl_data.specs.declared.change.Val.{Val};
ghost use Rattle.repl_data.specs.Ordered.{Rises};
ghost use Rattle.repl_data.specs.View.{put_attr, vals_at};
ghost use Rattle.rule_values.specs.Having.{attr_name};

use crate::val_set::ValSet;
use repl_data::{Attr, AttrKey, AttrList, Items, Keyed, NoMemory, place_of, put_by_key};
use std::alloc::Global;
use std::marker::Model;

/// An attribute with its values.
#[derive(Debug, Drop)]
pub(crate) struct HeldAttr {
    pub(crate) attr: AttrKey,
    pub(crate) vals: ValSet,
}

impl Model for HeldAttr {
    ghost use Rattle.repl_data.specs.declared.change.Attr.{Attr};

    ghost Value = { Attr };

    ghost view = { λ h. record { attr = h.attr; vals = h.vals } };
}

pub(crate) type Table = Items<HeldAttr>;

impl Keyed for HeldAttr {
    ghost key_of = { λ a. a.attr.name };

    fn key(&self) -> &[u8] {
        self.attr.name.as_slice()
    }
}

impl HeldAttr {
    pub(crate) fn values(&self) -> &ValSet
        ensures { result.now ≡ self.now.vals }
    {
        &self.vals
    }

    fn into_vals(self) -> ValSet
        ensures { result ≡ self.vals }
    {
        let HeldAttr { vals, .. } = self;
        vals
    }
}

/// Takes out the values of an attribute, which is to be put again.
pub(crate) fn take_values(alloc: Global, attrs: &mut Table, attr: &AttrKey) -> ValSet
    requires { Rises attr_name attrs.old }
    ensures value { result ≡ vals_at attr.now.name attrs.old }
    ensures put { (vals : List Val) → put_attr (record { attr = attr.now; vals = vals }) attrs.new ≡ put_attr (record { attr = attr.now; vals = vals }) attrs.old }
    ensures ordered { Rises attr_name attrs.new }
{
    match place_of(attrs.as_slice(), attr.name.as_slice()) {
        Ok(at) => attrs.remove(at).into_vals(),
        Err(_) => ValSet::new(alloc),
    }
}

/// Puts an attribute to its place, instead of one of the same name.
pub(crate) fn put_attribute(attrs: &mut Table, attr: AttrKey, vals: ValSet) -> Result<(), NoMemory>
    requires { Rises attr_name attrs.old }
    ensures value { OnOk result (attrs.new ≡ put_attr (record { attr = attr; vals = vals }) attrs.old) }
    ensures ordered { OnOk result (Rises attr_name attrs.new) }
{
    put_by_key(HeldAttr { attr, vals }, attrs)?;
    Ok(())
}

fn to_attribute(alloc: Global, held: HeldAttr) -> Result<Attr, NoMemory>
    ensures { IfOk result (λ attr. attr ≡ held) }
{
    let HeldAttr { attr, vals } = held;
    let vals = vals.into_list(alloc)?;
    Ok(Attr { attr, vals })
}

/// The attributes with their values as lists, which move.
pub(crate) fn to_attributes(alloc: Global, table: Table) -> Result<AttrList, NoMemory>
    ensures { IfOk result (λ attrs. attrs ≡ table) }
{
    let mut attrs = AttrList::new(alloc);
    for held in table.into_vec() {
        attrs.push(to_attribute(alloc, held)?)?;
    }
    Ok(attrs)
}
