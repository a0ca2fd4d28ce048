//! What shows of a stamped entry.

ghost use Rattle.std.specs.Prelude.{◌≡◌, IfOk, OnOk, ◌++◌, map, flat_map};
ghost use Rattle.repl_data.specs.View.{user};
ghost use Rattle.repl_data.specs.Facts.{AttrFacts, vals_shown, with_values, attrs_shown};
ghost use Rattle.stamp_entry.specs.Shown.{users_shown};

use crate::entry::{StampedAttr, StampedEntry, StampedVal};
use crate::held::{HeldVal, vals_shown};
use repl_data::{Attr, AttrKey, AttrList, Bytes, Items, NoMemory, Rdn, Shown, ShownList, ValList};
use std::alloc::Global;
use std::cmp::Ordering;

impl HeldVal for StampedVal {
    ghost facts = { λ v. v };

    fn key(&self) -> &Bytes {
        &self.key
    }

    fn spelled(&self) -> &Bytes {
        &self.spelled
    }

    fn is_up(&self) -> bool {
        self.down.compare(self.up).is_le()
    }

    fn compare_up(&self, other: &StampedVal) -> Ordering {
        self.up.compare(other.up)
    }
}

fn attr_shown(alloc: Global, rdn: &Rdn, a: &StampedAttr) -> Result<ValList, NoMemory>
    ensures { IfOk result (λ vals. vals ≡ vals_shown rdn.now a.now) }
{
    let vals = vals_shown(alloc, rdn, &a.attr, a.vals.as_slice())?;
    Ok(vals)
}

/// Appends the attribute, unless it has no value.
fn push_attr(attr: &AttrKey, vals: ValList, attrs: &mut AttrList) -> Result<(), NoMemory>
    ensures { OnOk result (attrs.new ≡ attrs.old ++ with_values attr.now vals) }
{
    if !vals.is_empty() {
        let attr = attr.clone()?;
        attrs.push(Attr { attr, vals })?;
    }
    Ok(())
}

fn push_shown(
    alloc: Global,
    rdn: &Rdn,
    a: &StampedAttr,
    attrs: &mut AttrList,
) -> Result<(), NoMemory>
    ensures { OnOk result (attrs.new ≡ attrs.old ++ with_values a.now.attr (vals_shown rdn.now a.now)) }
{
    let vals = attr_shown(alloc, rdn, a)?;
    push_attr(&a.attr, vals, attrs)
}

#[tactic(auto, using(repl_data::proofs::Loops::flat_map_more))]
fn each_shown(alloc: Global, rdn: &Rdn, facts: &[StampedAttr]) -> Result<AttrList, NoMemory>
    ensures { IfOk result (λ attrs. attrs ≡ flat_map (λ (a : AttrFacts). with_values a.attr (vals_shown rdn.now a)) facts.now) }
{
    let mut attrs = Items::new(alloc);
    for a in facts {
        push_shown(alloc, rdn, a, &mut attrs)?;
    }
    Ok(attrs)
}

fn user(attr: &Attr) -> Result<Shown, NoMemory>
    ensures { IfOk result (λ shown. shown ≡ user attr.now) }
{
    Ok(Shown {
        attr: attr.attr.clone()?,
        vals: attr.vals.clone()?,
        operational: false,
    })
}

#[tactic(auto, using(repl_data::proofs::Loops::map_more))]
fn users(alloc: Global, attrs: &[Attr]) -> Result<ShownList, NoMemory>
    ensures { IfOk result (λ shown. shown ≡ map user attrs.now) }
{
    let mut all = Items::new(alloc);
    for a in attrs {
        let shown = user(a)?;
        all.push(shown)?;
    }
    Ok(all)
}

impl StampedEntry {
    fn attrs_shown(&self, alloc: Global) -> Result<AttrList, NoMemory>
        ensures { IfOk result (λ attrs. attrs ≡ attrs_shown self.now) }
    {
        each_shown(alloc, &self.rdn, self.attrs.as_slice())
    }

    /// The user attributes that show, in rising order of name, each with its values in rising order
    /// of key: those of the present entry and of the tombstone alike. The derived attributes and
    /// classes, which depend on other entries, are not among them.
    ///
    /// Takes time in proportion to the values that are known, and quadratic time in those of a
    /// single-valued type.
    pub fn shown(&self, alloc: Global) -> Result<ShownList, NoMemory>
        ensures { IfOk result (λ shown. shown ≡ users_shown self.now) }
    {
        let attrs = self.attrs_shown(alloc)?;
        users(alloc, attrs.as_slice())
    }
}
