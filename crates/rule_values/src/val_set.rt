//! Values in order of key, that are put and taken in any order.

ghost use Rattle.std.specs.Prelude.{◌≡◌, true, [], filter, not, length, IfOk, find, is_some};
ghost use Rattle.repl_data.specs.declared.change.Val.{Val};
ghost use Rattle.repl_data.specs.Order.{bytes_eq};
ghost use Rattle.repl_data.specs.Check.{is_empty};
ghost use Rattle.repl_data.specs.Ordered.{Rises};
ghost use Rattle.repl_data.specs.Plain.{add_values};
ghost use Rattle.repl_data.specs.View.{put_val};
ghost use Rattle.rule_values.specs.Having.{val_key};
ghost use Rattle.rule_values.specs.Listed.{has_key};
ghost use Rattle.rule_values.specs.Entries.{vals_of};

use crate::head_key::HeadKey;
use crate::spelled::{self, Spelled};
use repl_data::{NoMemory, Val, ValList, found_by_key, is_below};
use std::alloc::Global;
use std::marker::Model;

/// How values are kept.
#[derive(Debug, Drop)]
pub(crate) enum Kept {
    /// As they were given, in order of key.
    Rising(ValList),
    /// As a tree, since one was put or taken.
    Tree(Spelled),
}

/// Values of one attribute. The first value that is put or taken makes a tree of those that there are; each further
/// one, and a look-up, takes time logarithmic in the values.
#[derive(Debug, Drop)]
pub(crate) struct ValSet {
    kept: Kept,
}

impl Model for ValSet {
    ghost use Rattle.std.specs.Prelude.{List};
    ghost use Rattle.repl_data.specs.declared.change.Val.{Val};
    ghost use Rattle.rule_values.specs.Sets.{vals_in, IsKept};

    ghost Value = { List Val };

    ghost view = { λ s. vals_in s.kept };

    ghost invariant = { λ s. IsKept s.kept };
}

fn is_found(vals: &[Val], key: &[u8]) -> bool
    requires { Rises val_key vals.now }
    ensures { result ≡ is_some (find (λ (v : Val). bytes_eq key.now v.key) vals.now) }
{
    match found_by_key(vals, key) {
        Some(_) => true,
        None => false,
    }
}

/// Whether values in order of key have one of this key.
fn is_listed(vals: &ValList, key: &HeadKey) -> bool
    requires { Rises val_key vals.now }
    ensures { result ≡ has_key key.now vals.now }
{
    is_found(vals.as_slice(), key.as_slice())
}

impl ValSet {
    pub(crate) fn new(alloc: Global) -> ValSet
        ensures { result ≡ [] }
    {
        ValSet::of(ValList::new(alloc))
    }

    /// Values in order of key, which move.
    pub(crate) fn of(vals: ValList) -> ValSet
        requires { Rises val_key vals }
        ensures { result ≡ vals }
    {
        let kept = Kept::Rising(vals);
        ValSet { kept }
    }

    /// How many there are.
    pub(crate) fn len(&self) -> usize
        ensures { result ≡ length self.now }
    {
        match &self.kept {
            Kept::Rising(vals) => vals.len(),
            Kept::Tree(tree) => spelled::count(tree),
        }
    }

    pub(crate) fn is_empty(&self) -> bool
        ensures { result ≡ is_empty self.now }
    {
        match &self.kept {
            Kept::Rising(vals) => is_none(vals),
            Kept::Tree(tree) => spelled::is_empty(tree),
        }
    }

    pub(crate) fn has(&self, key: &HeadKey) -> bool
        ensures { result ≡ has_key key.now self.now }
    {
        match &self.kept {
            Kept::Rising(vals) => is_listed(vals, key),
            Kept::Tree(tree) => spelled::has(tree, key),
        }
    }

    /// The values as a tree, which move.
    fn into_tree(self, alloc: Global) -> Result<Spelled, NoMemory>
        ensures { IfOk result (λ tree. vals_of tree.entries ≡ self) }
    {
        let ValSet { kept } = self;
        match kept {
            Kept::Rising(vals) => spelled::from_list(alloc, vals),
            Kept::Tree(tree) => Ok(tree),
        }
    }

    /// With this value, instead of one of the same key, and whether there was one.
    pub(crate) fn with(self, alloc: Global, val: Val) -> Result<(ValSet, bool), NoMemory>
        ensures { IfOk result (λ r. (r.0 ≡ put_val val self) × (r.1 ≡ has_key val.key self)) }
    {
        let mut tree = self.into_tree(alloc)?;
        let was = spelled::put(&mut tree, val)?;
        let kept = Kept::Tree(tree);
        Ok((ValSet { kept }, was))
    }

    /// Without the value of this key, and whether there was one.
    pub(crate) fn without(self, alloc: Global, key: &HeadKey) -> Result<(ValSet, bool), NoMemory>
        ensures { IfOk result (λ r. (r.0 ≡ filter (λ (v : Val). not (bytes_eq v.key key.now)) self) × (r.1 ≡ has_key key.now self)) }
    {
        let mut tree = self.into_tree(alloc)?;
        let was = spelled::take(&mut tree, key);
        let kept = Kept::Tree(tree);
        Ok((ValSet { kept }, was))
    }

    /// The values in order of key, which move.
    pub(crate) fn into_list(self, alloc: Global) -> Result<ValList, NoMemory>
        ensures value { IfOk result (λ vals. vals ≡ self) }
        ensures rises { IfOk result (Rises val_key) }
    {
        let ValSet { kept } = self;
        match kept {
            Kept::Rising(vals) => Ok(vals),
            Kept::Tree(tree) => spelled::into_list(alloc, tree),
        }
    }

    /// A copy of the values in order of key.
    pub(crate) fn to_list(&self, alloc: Global) -> Result<ValList, NoMemory>
        ensures { IfOk result (λ vals. vals ≡ self.now) }
    {
        match &self.kept {
            Kept::Rising(vals) => copy_list(vals),
            Kept::Tree(tree) => spelled::to_list(alloc, tree),
        }
    }
}

fn is_none(vals: &ValList) -> bool
    ensures { result ≡ is_empty vals.now }
{
    match vals.as_slice().first() {
        Some(_) => false,
        None => true,
    }
}

/// A copy of values.
pub(crate) fn copy_list(vals: &ValList) -> Result<ValList, NoMemory>
    ensures { IfOk result (λ copy. copy ≡ vals.now) }
{
    let copy = vals.clone()?;
    Ok(copy)
}

/// A copy of a value.
pub(crate) fn copy(val: &Val) -> Result<Val, NoMemory>
    ensures { IfOk result (λ copy. copy ≡ val.now) }
{
    let copy = val.clone()?;
    Ok(copy)
}

/// Whether each key is below the next one.
fn is_rising(vals: &[Val]) -> bool
    ensures { result ≡ true → Rises val_key vals.now }
{
    vals.is_sorted_by(|a, b| is_below(a.key.as_slice(), b.key.as_slice()))
}

/// The values with copies of others, put one after the other.
fn with_all(alloc: Global, before: ValSet, vals: &[Val]) -> Result<ValSet, NoMemory>
    ensures { IfOk result (λ all. all ≡ add_values vals.now before) }
{
    let mut all = before;
    for val in vals {
        let (next, _was) = all.with(alloc, copy(val)?)?;
        all = next;
    }
    Ok(all)
}

/// Copies of values: as they are, where they are in order of key.
fn copies(alloc: Global, vals: &ValList) -> Result<ValSet, NoMemory>
    ensures { IfOk result (λ all. all ≡ add_values vals.now []) }
{
    if is_rising(vals.as_slice()) {
        let copy = copy_list(vals)?;
        return Ok(ValSet::of(copy));
    }
    with_all(alloc, ValSet::new(alloc), vals.as_slice())
}

/// The values with copies of others.
pub(crate) fn with_copies(alloc: Global, before: ValSet, vals: &ValList) -> Result<ValSet, NoMemory>
    ensures { IfOk result (λ all. all ≡ add_values vals.now before) }
{
    if before.is_empty() {
        return copies(alloc, vals);
    }
    with_all(alloc, before, vals.as_slice())
}
