//! One attribute and value of a name.

ghost use Rattle.std.specs.Prelude.{◌≡◌, ◌+◌, ◌<◌, ◌^◌, length, bytes_eq};
ghost use Rattle.attr_keys.specs.Table.{kind_of};
ghost use Rattle.attr_keys.specs.Value.{bad_value};
ghost use Rattle.dn_text.specs.Fault.{Gives};
ghost use Rattle.dn_text.specs.Reading.{attr_in, begins_hash, keyed, value_in, has_attr, without_equals, part_in};

use crate::escape::{check_escapes, value};
use crate::fault::{DnFault, DnWhy};
use crate::split::{bare_len, space_count, trimmed};
use attr_keys::{KeyFault, attr_key, value_key};
use repl_data::{AttrKey, Ava, Bytes, Val};
use std::alloc::Global;

/// The key of the attribute name, which begins at the place `start`.
#[tactic(auto, unfolding(crate::specs::Reading::attr_in))]
fn attr(alloc: Global, start: usize, name: &[u8]) -> Result<AttrKey, DnFault>
    requires { start + length name.now < 2 ^ 64 }
    ensures { Gives result (attr_in (record { start = start; text = name.now })) }
{
    match attr_key(alloc, name) {
        Ok(attr) => Ok(attr),
        Err(KeyFault::BadName { place }) => Err(DnFault::BadDn {
            place: start + place,
            why: DnWhy::Char,
        }),
        Err(_) => Err(DnFault::NoMemory),
    }
}

fn begins_hash(text: &[u8]) -> bool
    ensures { result ≡ begins_hash text.now }
{
    match text.first() {
        Some(b) => *b == b'#',
        None => false,
    }
}

/// The part with this value, which begins at the place `start`.
fn keyed(alloc: Global, attr: AttrKey, start: usize, spelled: Bytes) -> Result<Ava, DnFault>
    ensures { Gives result (keyed attr start spelled (bad_value (kind_of attr.name) spelled)) }
{
    match value_key(alloc, &attr, spelled.as_slice()) {
        Ok(key) => Ok(Ava {
            attr,
            val: Val { key, spelled },
        }),
        Err(KeyFault::BadValue { .. }) => Err(DnFault::BadDn {
            place: start,
            why: DnWhy::Value,
        }),
        Err(_) => Err(DnFault::NoMemory),
    }
}

/// The part of this attribute whose value has this text, which begins at the place `start`.
#[tactic(auto, unfolding(crate::specs::Reading::value_in))]
fn value_part(alloc: Global, attr: AttrKey, start: usize, text: &[u8]) -> Result<Ava, DnFault>
    requires { start + length text.now < 2 ^ 64 }
    ensures { Gives result (value_in attr (record { start = start; text = text.now })) }
{
    if begins_hash(text) {
        return Err(DnFault::BadDn {
            place: start,
            why: DnWhy::HexForm,
        });
    }
    let spelled = value(alloc, start, text)?;
    keyed(alloc, attr, start, spelled)
}

fn is_named(ava: &Ava, name: &[u8]) -> bool
    ensures { result ≡ bytes_eq ava.now.attr.name name.now }
{
    ava.attr.name.as_slice() == name
}

fn has_attr(name: &[u8], avas: &[Ava]) -> bool
    ensures { result ≡ has_attr name.now avas.now }
{
    avas.iter().any(|ava| is_named(ava, name))
}

/// What is wrong with a part that has no `=` and begins at the place `start`.
#[tactic(auto, unfolding(crate::specs::Reading::without_equals))]
fn without_equals(start: usize, text: &[u8]) -> Result<Ava, DnFault>
    requires { start + length text.now < 2 ^ 64 }
    ensures { result ≡ without_equals start text.now }
{
    let place = start + text.len();
    if space_count(text) == text.len() {
        return Err(DnFault::BadDn {
            place,
            why: DnWhy::Empty,
        });
    }
    match check_escapes(start, text) {
        Ok(()) => Err(DnFault::BadDn {
            place,
            why: DnWhy::NoEquals,
        }),
        Err(e) => Err(e),
    }
}

/// The part whose text this is, which begins at the place `start`, beside these parts of its relative
/// name.
#[tactic(auto, unfolding(crate::specs::Reading::part_in))]
pub(crate) fn part(alloc: Global, avas: &[Ava], start: usize, text: &[u8]) -> Result<Ava, DnFault>
    requires { start + length text.now < 2 ^ 64 }
    ensures { Gives result (part_in avas.now (record { start = start; text = text.now })) }
{
    let len = bare_len(b'=', text);
    if len >= text.len() {
        return without_equals(start, text);
    }
    let (name_start, name) = trimmed(start, &text[..len]);
    let attr = attr(alloc, name_start, name)?;
    if has_attr(attr.name.as_slice(), avas) {
        return Err(DnFault::BadDn {
            place: name_start,
            why: DnWhy::Twice,
        });
    }
    let (value_start, value) = trimmed(start + len + 1, &text[len + 1..]);
    value_part(alloc, attr, value_start, value)
}
