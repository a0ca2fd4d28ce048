//! How values are spelled, by their keys: a tree that stands for values in order of key.

ghost use Rattle.std.specs.Prelude.{◌≡◌, filter, not, length, IfOk, OnOk};
ghost use Rattle.repl_data.specs.declared.change.Val.{Val};
ghost use Rattle.repl_data.specs.Order.{bytes_eq};
ghost use Rattle.repl_data.specs.Check.{is_empty};
ghost use Rattle.repl_data.specs.Ordered.{Rises};
ghost use Rattle.repl_data.specs.View.{put_val};
ghost use Rattle.rule_values.specs.Having.{val_key};
ghost use Rattle.rule_values.specs.Listed.{has_key};
ghost use Rattle.rule_values.specs.Entries.{vals_of};

use crate::head_key::HeadKey;
use repl_data::{Bytes, NoMemory, Val, ValList};
use std::alloc::Global;
use std::collections::BTreeMap;

/// How each value is spelled, by its key.
pub(crate) type Spelled = BTreeMap<HeadKey, Bytes>;

/// How many values there are.
pub(crate) fn count(spelled: &Spelled) -> usize
    ensures { result ≡ length (vals_of spelled.now.entries) }
{
    spelled.len()
}

pub(crate) fn is_empty(spelled: &Spelled) -> bool
    ensures { result ≡ is_empty (vals_of spelled.now.entries) }
{
    spelled.len() == 0
}

pub(crate) fn has(spelled: &Spelled, key: &HeadKey) -> bool
    ensures { result ≡ has_key key.now (vals_of spelled.now.entries) }
{
    spelled.contains_key(key)
}

/// Puts a value, instead of one of the same key, and answers whether there was one. One look-up.
pub(crate) fn put(spelled: &mut Spelled, val: Val) -> Result<bool, NoMemory>
    ensures put { OnOk result (vals_of spelled.new.entries ≡ put_val val (vals_of spelled.old.entries)) }
    ensures was { IfOk result (λ was. was ≡ has_key val.key (vals_of spelled.old.entries)) }
{
    let Val { key, spelled: text } = val;
    let old = spelled.insert(HeadKey::of(key), text)?;
    Ok(old.is_some())
}

/// Takes out the value of this key, and answers whether there was one. One look-up.
pub(crate) fn take(spelled: &mut Spelled, key: &HeadKey) -> bool
    ensures take { vals_of spelled.new.entries ≡ filter (λ (v : Val). not (bytes_eq v.key key.now)) (vals_of spelled.old.entries) }
    ensures was { result ≡ has_key key.now (vals_of spelled.old.entries) }
{
    let _count = spelled.len();
    let old = spelled.remove(key);
    old.is_some()
}

/// The values in order of key, which move.
pub(crate) fn into_list(alloc: Global, spelled: Spelled) -> Result<ValList, NoMemory>
    ensures value { IfOk result (λ vals. vals ≡ vals_of spelled.entries) }
    ensures rises { IfOk result (Rises val_key) }
{
    let _count = spelled.len();
    let mut vals = ValList::new(alloc);
    for (whole, text) in spelled {
        let key = whole.into_key();
        vals.push(Val { key, spelled: text })?;
    }
    Ok(vals)
}

fn copy_value(alloc: Global, key: &HeadKey, text: &Bytes) -> Result<Val, NoMemory>
    ensures { IfOk result (λ (v : Val). v ≡ record { key = key.now; spelled = text.now }) }
{
    let key = Bytes::from_slice(alloc, key.as_slice())?;
    let spelled = Bytes::from_slice(alloc, text.as_slice())?;
    Ok(Val { key, spelled })
}

/// A copy of the values in order of key.
pub(crate) fn to_list(alloc: Global, spelled: &Spelled) -> Result<ValList, NoMemory>
    ensures { IfOk result (λ vals. vals ≡ vals_of spelled.now.entries) }
{
    let mut vals = ValList::new(alloc);
    for (whole, text) in spelled {
        vals.push(copy_value(alloc, whole, text)?)?;
    }
    Ok(vals)
}

/// The tree of values in order of key, which move.
pub(crate) fn from_list(alloc: Global, vals: ValList) -> Result<Spelled, NoMemory>
    requires { Rises val_key vals }
    ensures { IfOk result (λ tree. vals_of tree.entries ≡ vals) }
{
    let mut tree = BTreeMap::new(alloc);
    for val in vals.into_vec() {
        put(&mut tree, val)?;
    }
    Ok(tree)
}
