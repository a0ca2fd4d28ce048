//! The attributes of an add, each read beside those before it.

ghost use Rattle.std.specs.Prelude.{◌≡◌, ◌&&◌, ◌∷◌, [], List, IfOk};
ghost use Rattle.std.specs.List.{list_any};
ghost use Rattle.repl_data.specs.declared.change.Attr.{Attr};
ghost use Rattle.repl_data.specs.Check.{has_value, is_empty};
ghost use Rattle.repl_data.specs.Order.{bytes_eq};
ghost use Rattle.repl_data.specs.Ordered.{Rises};
ghost use Rattle.rule_values.specs.Refusing.{Gives};
ghost use Rattle.rule_values.specs.Having.{attr_name};
ghost use Rattle.rule_values.specs.Listed.{has_key, put_new, value_beside, values_beside, attribute_beside, attributes_beside, with_part, with_name, has_too_many_values, is_class, entry_attributes};

use crate::case::refuse_if;
use crate::counting::has_too_many;
use crate::fault::{Refusal, ValueFault};
use crate::head_key::HeadKey;
use crate::headed::copy_key;
use crate::reading::{read_name, read_value};
use crate::sorted::sorted_values;
use crate::table::{HeldAttr, Table, put_attribute, take_values, to_attributes};
use crate::val_set::ValSet;
use ldap_types::RawAttr;
use repl_data::{
    AttrKey, AttrList, Ava, Bytes, NoMemory, Rdn, Val, is_derived_attribute, is_derived_value,
    is_single, same_bytes,
};
use std::alloc::Global;

/// Puts a value beside others, none of which may have its key.
#[tactic(auto, unfolding(crate::specs::Listed::value_beside))]
fn put_new(alloc: Global, before: ValSet, val: Val) -> Result<ValSet, ValueFault>
    ensures { Gives result (put_new val before) }
{
    let (vals, was) = before.with(alloc, val)?;
    refuse_if(was, Refusal::ListedTwice)?;
    Ok(vals)
}

/// One value more, beside those of its attribute that came before.
#[tactic(auto, unfolding(crate::specs::Listed::value_beside))]
fn value_beside(
    alloc: Global,
    attr: &AttrKey,
    before: ValSet,
    spelled: &[u8],
) -> Result<ValSet, ValueFault>
    ensures { Gives result (value_beside attr.now before spelled.now) }
{
    let val = read_value(alloc, attr, spelled)?;
    refuse_if(is_derived_value(attr, &val), Refusal::Derived)?;
    put_new(alloc, before, val)
}

/// The values given, beside those of their attribute that came before.
fn values_beside(
    alloc: Global,
    attr: &AttrKey,
    before: ValSet,
    given: &[Bytes],
) -> Result<ValSet, ValueFault>
    ensures { Gives result (values_beside attr.now before given.now) }
{
    let mut vals = before;
    for spelled in given {
        vals = value_beside(alloc, attr, vals, spelled.as_slice())?;
    }
    Ok(vals)
}

/// The same. Where none came before, they are sorted once.
fn values_with(
    alloc: Global,
    attr: &AttrKey,
    before: ValSet,
    given: &[Bytes],
) -> Result<ValSet, ValueFault>
    ensures { Gives result (values_beside attr.now before given.now) }
{
    if before.is_empty() {
        let vals = sorted_values(alloc, attr, given)?;
        return Ok(ValSet::of(vals));
    }
    values_beside(alloc, attr, before, given)
}

pub(crate) fn has_no_value(vals: &[Bytes]) -> bool
    ensures { result ≡ is_empty vals.now }
{
    match vals.first() {
        Some(_) => false,
        None => true,
    }
}

/// One attribute of the list, beside those that came before.
#[tactic(auto, unfolding(crate::specs::Listed::attribute_beside))]
fn attribute_beside(alloc: Global, before: Table, given: &RawAttr) -> Result<Table, ValueFault>
    requires { Rises attr_name before }
    ensures gives { Gives result (attribute_beside before given.now) }
    ensures ordered { IfOk result (Rises attr_name) }
{
    let attr = read_name(alloc, given.name.as_slice())?;
    refuse_if(is_derived_attribute(&attr), Refusal::Derived)?;
    refuse_if(has_no_value(given.vals.as_slice()), Refusal::NoValue)?;
    let mut attrs = before;
    let own = take_values(alloc, &mut attrs, &attr);
    let vals = values_with(alloc, &attr, own, given.vals.as_slice())?;
    put_attribute(&mut attrs, attr, vals)?;
    Ok(attrs)
}

/// The attributes of a list, in order of name and each with its values in order of key.
fn attributes(alloc: Global, given: &[RawAttr]) -> Result<Table, ValueFault>
    ensures gives { Gives result (attributes_beside [] given.now) }
    ensures ordered { IfOk result (Rises attr_name) }
{
    let mut attrs = Table::new(alloc);
    for one in given {
        attrs = attribute_beside(alloc, attrs, one)?;
    }
    Ok(attrs)
}

fn is_value_of(attr: &HeldAttr, name: &[u8], key: &HeadKey) -> bool
    ensures { result ≡ (bytes_eq attr.now.attr.name name.now && has_key key.now attr.now.vals) }
{
    same_bytes(attr.attr.name.as_slice(), name) && attr.vals.has(key)
}

fn any_has(attrs: &[HeldAttr], name: &[u8], key: &HeadKey) -> bool
    ensures { result ≡ list_any (λ (a : Attr). bytes_eq a.attr.name name.now && has_key key.now a.vals) attrs.now }
{
    attrs.iter().any(|attr| is_value_of(attr, name, key))
}

fn has_value(attrs: &[HeldAttr], ava: &Ava) -> Result<bool, NoMemory>
    ensures { IfOk result (λ has. has ≡ has_value attrs.now ava.now) }
{
    let key = copy_key(&ava.val)?;
    Ok(any_has(attrs, ava.attr.name.as_slice(), &key))
}

fn copy(ava: &Ava) -> Result<Ava, NoMemory>
    ensures { IfOk result (λ copy. copy ≡ ava.now) }
{
    let copy = ava.clone()?;
    Ok(copy)
}

/// The attributes with a value of the name, where they lack it.
fn with_part(alloc: Global, before: Table, ava: &Ava) -> Result<Table, NoMemory>
    requires { Rises attr_name before }
    ensures value { IfOk result (λ attrs. attrs ≡ with_part before ava.now) }
    ensures ordered { IfOk result (Rises attr_name) }
{
    let has = has_value(before.as_slice(), ava)?;
    if has {
        return Ok(before);
    }
    let mut attrs = before;
    let Ava { attr, val } = copy(ava)?;
    let own = take_values(alloc, &mut attrs, &attr);
    let (vals, _was) = own.with(alloc, val)?;
    put_attribute(&mut attrs, attr, vals)?;
    Ok(attrs)
}

/// The attributes with the values of the name that they lack.
#[tactic(auto, unfolding(crate::specs::Listed::with_name))]
fn with_name(alloc: Global, rdn: &Rdn, before: Table) -> Result<Table, NoMemory>
    requires { Rises attr_name before }
    ensures { IfOk result (λ attrs. attrs ≡ with_name rdn.now before) }
{
    let mut attrs = before;
    for ava in rdn.avas.as_slice() {
        attrs = with_part(alloc, attrs, ava)?;
    }
    Ok(attrs)
}

fn has_too_many_values(attr: &HeldAttr) -> bool
    ensures { result ≡ has_too_many_values attr.now }
{
    is_single(&attr.attr) && attr.vals.len() > 1
}

/// Whether a single-valued type has more than one value.
fn any_has_too_many_values(attrs: &[HeldAttr]) -> bool
    ensures { result ≡ list_any has_too_many_values attrs.now }
{
    attrs.iter().any(|attr| has_too_many_values(attr))
}

fn is_class(attr: &HeldAttr) -> bool
    ensures { result ≡ is_class attr.now }
{
    same_bytes(attr.attr.name.as_slice(), b"objectclass".as_slice())
}

/// Whether there is a class.
fn has_class(attrs: &[HeldAttr]) -> bool
    ensures { result ≡ list_any is_class attrs.now }
{
    attrs.iter().any(|attr| is_class(attr))
}

/// The attributes of an add of an entry of this relative name (RFC 4511, section 4.7): those of the list, with the
/// values of the name that they lack, in order of name and key.
///
/// The first case that fits refuses: more than 500 attributes; then, attribute by attribute and value by value in
/// the order given, what can't be read, is derived, is missing or stands twice; then a single-valued type with more
/// than one value; then no class.
///
/// n values cost n times the logarithm of n comparisons, in whatever order they come.
#[tactic(auto, unfolding(crate::specs::Listed::entry_attributes))]
pub fn entry_attributes(alloc: Global, rdn: &Rdn, given: &[RawAttr]) -> Result<AttrList, ValueFault>
    ensures { Gives result (entry_attributes rdn.now given.now) }
{
    let too_many = has_too_many(alloc, rdn, given)?;
    refuse_if(too_many, Refusal::TooManyAttributes)?;
    let attrs = attributes(alloc, given)?;
    let whole = with_name(alloc, rdn, attrs)?;
    refuse_if(
        any_has_too_many_values(whole.as_slice()),
        Refusal::SecondValue,
    )?;
    refuse_if(!has_class(whole.as_slice()), Refusal::NoClass)?;
    let attrs = to_attributes(alloc, whole)?;
    Ok(attrs)
}
