//! What is known of attribute types: which of them have one value in an entry, and which attributes and classes
//! a view derives.

ghost use Rattle.std.specs.Prelude.{◌≡◌, ◌==◌, position, map};
ghost use Rattle.std.specs.List.{before_first, list_any};
ghost use Rattle.repl_data.specs.Order.{bytes_eq};
ghost use Rattle.repl_data.specs.Types.{is_among, single_valued, is_single, is_derived_attribute, is_derived_value, is_derived_ava};

use crate::change::{AttrKey, Ava, Val};
use crate::truth::{and, or, same_bytes};

/// The types of which an entry has at most one value (RFC 4512, section 4.1.2: SINGLE-VALUE), by the first name of
/// each, in lower case.
static SINGLE: [&'static [u8]; 10] = [
    b"c",
    b"displayname",
    b"employeenumber",
    b"preferredlanguage",
    b"homedirectory",
    b"loginshell",
    b"dc",
    b"gecos",
    b"uidnumber",
    b"gidnumber",
];

fn is_one_of(names: &[&'static [u8]], name: &[u8]) -> bool
    ensures { result ≡ list_any (λ n. bytes_eq name.now n.now) names.now }
{
    names.iter().any(|n| same_bytes(name, n))
}

fn is_single_name(base: &[u8]) -> bool
    ensures { result ≡ is_among single_valued base.now }
{
    is_one_of(&SINGLE, base)
}

fn first_semicolon(name: &[u8]) -> Option<usize>
    ensures { result ≡ position (λ b. b == 59) name.now }
{
    name.iter().position(|b| *b == b';')
}

/// The name without its options.
fn base_name(name: &[u8]) -> &[u8]
    ensures { result.now ≡ before_first (λ b. b == 59) name.now }
{
    match first_semicolon(name) {
        Some(at) => &name[..at],
        None => name,
    }
}

/// Whether an entry has at most one value of the attribute, which its name without the options decides. A type
/// that is not known has many.
pub fn is_single(attr: &AttrKey) -> bool
    ensures { result ≡ is_single attr.now }
{
    is_single_name(base_name(attr.name.as_slice()))
}

/// An attribute that a view derives, and no entry has of its own.
pub fn is_derived_attribute(attr: &AttrKey) -> bool
    ensures { result ≡ is_derived_attribute attr.now }
{
    let id = same_bytes(attr.name.as_slice(), b"nsuniqueid".as_slice());
    let parent = same_bytes(attr.name.as_slice(), b"nsparentuniqueid".as_slice());
    let conflict = same_bytes(attr.name.as_slice(), b"nsds5replconflict".as_slice());
    let vector = same_bytes(attr.name.as_slice(), b"nsds50ruv".as_slice());
    or(id, or(parent, or(conflict, vector)))
}

/// A value that a view derives, and no entry has of its own: one of two classes.
pub fn is_derived_value(attr: &AttrKey, val: &Val) -> bool
    ensures { result ≡ is_derived_value attr.now val.now }
{
    let class = same_bytes(attr.name.as_slice(), b"objectclass".as_slice());
    let glue = same_bytes(val.key.as_slice(), b"glue".as_slice());
    let tombstone = same_bytes(val.key.as_slice(), b"nstombstone".as_slice());
    and(class, or(glue, tombstone))
}

/// A part of a name that a view derives.
pub fn is_derived_part(part: &Ava) -> bool
    ensures { result ≡ is_derived_ava part.now }
{
    or(
        is_derived_attribute(&part.attr),
        is_derived_value(&part.attr, &part.val),
    )
}
