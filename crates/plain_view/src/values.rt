//! The attributes that show, by what is known of their values.

ghost use Rattle.std.specs.Prelude.{◌≡◌, ◌++◌, IfOk, OnOk, map, flat_map};
ghost use Rattle.repl_data.specs.Facts.{AttrFacts, vals_shown, with_values, attrs_shown};
ghost use Rattle.repl_data.specs.View.{user};

use crate::copied::Copied;
use crate::facts::{AttrFacts, EntryFacts, ValFacts};
use crate::rows::UserAttrs;
use repl_data::{AttrKey, Bytes, Items, NoMemory, Rdn, Shown, ShownList, ValList};
use stamp_entry::{HeldVal, vals_shown};
use std::alloc::Global;
use std::cmp::Ordering;

impl HeldVal for ValFacts {
    ghost facts = { λ v. v };

    fn key(&self) -> &Bytes {
        &self.key
    }

    fn spelled(&self) -> &Bytes {
        &self.spelled
    }

    fn is_up(&self) -> bool {
        self.down.is_within(self.up)
    }

    fn compare_up(&self, other: &ValFacts) -> Ordering {
        self.up.compare(other.up)
    }
}

fn attr_shown(alloc: Global, rdn: &Rdn, a: &AttrFacts) -> Result<ValList, NoMemory>
    ensures { IfOk result (λ vals. vals ≡ vals_shown rdn.now a.now) }
{
    let vals = vals_shown(alloc, rdn, &a.attr, a.vals.as_slice())?;
    Ok(vals)
}

/// Appends the attribute, unless it has no value.
fn push_attr(attr: &AttrKey, vals: ValList, users: &mut ShownList) -> Result<(), NoMemory>
    ensures { OnOk result (users.new ≡ users.old ++ map user (with_values attr.now vals)) }
{
    if !vals.is_empty() {
        let attr = attr.copied()?;
        users.push(Shown {
            attr,
            vals,
            operational: false,
        })?;
    }
    Ok(())
}

fn push_shown(
    alloc: Global,
    rdn: &Rdn,
    a: &AttrFacts,
    users: &mut ShownList,
) -> Result<(), NoMemory>
    ensures { OnOk result (users.new ≡ users.old ++ map user (with_values a.now.attr (vals_shown rdn.now a.now))) }
{
    let vals = attr_shown(alloc, rdn, a)?;
    push_attr(&a.attr, vals, users)
}

#[tactic(auto, using(crate::proofs::Views::map_flat_map_more))]
fn each_shown(alloc: Global, rdn: &Rdn, facts: &[AttrFacts]) -> Result<ShownList, NoMemory>
    ensures { IfOk result (λ users. users ≡ map user (flat_map (λ (a : AttrFacts). with_values a.attr (vals_shown rdn.now a)) facts.now)) }
{
    let mut users = Items::new(alloc);
    for a in facts {
        push_shown(alloc, rdn, a, &mut users)?;
    }
    Ok(users)
}

impl EntryFacts {
    fn users_shown(&self, alloc: Global) -> Result<ShownList, NoMemory>
        ensures { IfOk result (λ users. users ≡ map user (attrs_shown self.now)) }
    {
        each_shown(alloc, &self.rdn, self.attrs.as_slice())
    }

    /// The attributes, without those that have no value.
    pub(crate) fn attrs_shown(&self, alloc: Global) -> Result<UserAttrs, NoMemory>
        ensures { IfOk result (λ attrs. attrs ≡ attrs_shown self.now) }
    {
        let users = self.users_shown(alloc)?;
        Ok(UserAttrs::of(users))
    }
}
