//! What an entry has while the modifications are carried out. The values of an attribute are looked up once and then
//! kept as a set; all other attributes stay where the view has them.

ghost use Rattle.std.specs.Prelude.{◌≡◌, [], List, IfOk, OnOk, is_some, length, if◌then◌else◌};
ghost use Rattle.std.specs.Option.{option_copied};
ghost use Rattle.std.specs.Prelude.{find};
ghost use Rattle.repl_data.specs.declared.change.Attr.{Attr};
ghost use Rattle.repl_data.specs.declared.change.Shown.{Shown};
ghost use Rattle.repl_data.specs.declared.change.Val.{Val};
ghost use Rattle.repl_data.specs.Check.{is_empty};
ghost use Rattle.repl_data.specs.Order.{bytes_eq};
ghost use Rattle.repl_data.specs.Ordered.{Rises};
ghost use Rattle.repl_data.specs.Plain.{add_values};
ghost use Rattle.repl_data.specs.View.{put_attr};
ghost use Rattle.rule_values.specs.Having.{attr_name, held};
ghost use Rattle.rule_values.specs.Listed.{has_key};
ghost use Rattle.rule_values.specs.Modify.{shown_values};

use crate::head_key::HeadKey;
use crate::table::{HeldAttr, Table, take_values};
use crate::val_set::{ValSet, with_copies};
use repl_data::{AttrKey, NoMemory, Shown, ValList, found_by_key, same_bytes};
use std::alloc::Global;

/// The values with those of an attribute that is shown, if it has this name.
fn with_shown(alloc: Global, before: ValSet, shown: &Shown, name: &[u8]) -> Result<ValSet, NoMemory>
    ensures { IfOk result (λ vals. vals ≡ add_values (if bytes_eq shown.now.attr.name name.now then shown.now.vals else []) before) }
{
    if same_bytes(shown.attr.name.as_slice(), name) {
        with_copies(alloc, before, &shown.vals)
    } else {
        Ok(before)
    }
}

/// A copy of the values that are shown of the attribute with this name.
pub(crate) fn shown_values(alloc: Global, own: &[Shown], name: &[u8]) -> Result<ValSet, NoMemory>
    ensures { IfOk result (λ vals. vals ≡ shown_values own.now name.now) }
{
    let mut vals = ValSet::new(alloc);
    for shown in own {
        vals = with_shown(alloc, vals, shown, name)?;
    }
    Ok(vals)
}

/// The attribute among those that were touched.
fn touched_at<'a>(touched: &'a Table, name: &[u8]) -> Option<&'a HeldAttr>
    requires { Rises attr_name touched.now }
    ensures { option_copied result ≡ find (λ (a : Attr). bytes_eq name.now a.attr.name) touched.now }
{
    found_by_key(touched.as_slice(), name)
}

/// How many values the entry has of an attribute.
pub(crate) fn count_held(
    alloc: Global,
    own: &[Shown],
    touched: &Table,
    name: &[u8],
) -> Result<usize, NoMemory>
    requires { Rises attr_name touched.now }
    ensures { IfOk result (λ count. count ≡ length (held own.now touched.now name.now)) }
{
    match touched_at(touched, name) {
        Some(attr) => Ok(attr.values().len()),
        None => {
            let vals = shown_values(alloc, own, name)?;
            Ok(vals.len())
        }
    }
}

/// Whether the entry has no value of an attribute.
pub(crate) fn is_without(
    alloc: Global,
    own: &[Shown],
    touched: &Table,
    name: &[u8],
) -> Result<bool, NoMemory>
    requires { Rises attr_name touched.now }
    ensures { IfOk result (λ is. is ≡ is_empty (held own.now touched.now name.now)) }
{
    match touched_at(touched, name) {
        Some(attr) => Ok(attr.values().is_empty()),
        None => {
            let vals = shown_values(alloc, own, name)?;
            Ok(vals.is_empty())
        }
    }
}

/// Whether the entry has this value of an attribute.
pub(crate) fn is_held(
    alloc: Global,
    own: &[Shown],
    touched: &Table,
    name: &[u8],
    key: &HeadKey,
) -> Result<bool, NoMemory>
    requires { Rises attr_name touched.now }
    ensures { IfOk result (λ is. is ≡ has_key key.now (held own.now touched.now name.now)) }
{
    match touched_at(touched, name) {
        Some(attr) => Ok(attr.values().has(key)),
        None => {
            let vals = shown_values(alloc, own, name)?;
            Ok(vals.has(key))
        }
    }
}

/// A copy of the values that the entry has of an attribute.
pub(crate) fn copy_held(
    alloc: Global,
    own: &[Shown],
    touched: &Table,
    name: &[u8],
) -> Result<ValList, NoMemory>
    requires { Rises attr_name touched.now }
    ensures { IfOk result (λ vals. vals ≡ held own.now touched.now name.now) }
{
    match touched_at(touched, name) {
        Some(attr) => attr.values().to_list(alloc),
        None => {
            let vals = shown_values(alloc, own, name)?;
            vals.into_list(alloc)
        }
    }
}

fn is_touched(touched: &Table, name: &[u8]) -> bool
    requires { Rises attr_name touched.now }
    ensures { result ≡ is_some (find (λ (a : Attr). bytes_eq name.now a.attr.name) touched.now) }
{
    match touched_at(touched, name) {
        Some(_) => true,
        None => false,
    }
}

/// Takes out the values that the entry has of an attribute, which is to be put again.
pub(crate) fn take_held(
    alloc: Global,
    own: &[Shown],
    touched: &mut Table,
    attr: &AttrKey,
) -> Result<ValSet, NoMemory>
    requires { Rises attr_name touched.old }
    ensures value { IfOk result (λ vals. vals ≡ held own.now touched.old attr.now.name) }
    ensures put { (vals : List Val) → put_attr (record { attr = attr.now; vals = vals }) touched.new ≡ put_attr (record { attr = attr.now; vals = vals }) touched.old }
    ensures ordered { Rises attr_name touched.new }
{
    if is_touched(touched, attr.name.as_slice()) {
        Ok(take_values(alloc, touched, attr))
    } else {
        shown_values(alloc, own, attr.name.as_slice())
    }
}
