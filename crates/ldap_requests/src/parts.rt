//! Parts that operations share: attributes, assertions, texts.

ghost use Rattle.std.specs.Prelude.{◌≡◌};
ghost use Rattle.ber_core.specs.Cursor.{Gives, window, with_window};
ghost use Rattle.ldap_requests.specs.Grammar.{text, attribute, attribute_inside, count, assertion};
ghost use Rattle.ber_core.specs.Window.{skip, skip_one, many, optional, boolean};

use ber_core::{Cursor, NotLdapWhy, ReadFault, ended, text};
use ldap_types::{Bytes, BytesList, RawAttr, RawAttrList};
use std::alloc::Global;

#[tactic(auto, unfolding(ber_core::specs::Window::skip_one))]
fn skip_one(w: Cursor) -> Result<Cursor, ReadFault>
    ensures { Gives window result (skip_one (window w.entry)) }
{
    w.tag()?;
    let (inside, rest) = w.open()?;
    inside.octets()?;
    Ok(rest)
}

pub(crate) fn skip(w: Cursor) -> Result<(), ReadFault>
    ensures { Gives (λ u. u) result (skip (window w.entry)) }
{
    let mut here = w;
    for _ in 0..w.left {
        if here.left == 0 {
            return Ok(());
        }
        here = skip_one(here)?;
    }
    Ok(())
}

pub(crate) fn texts(alloc: Global, w: Cursor) -> Result<BytesList, ReadFault>
    ensures { Gives (λ xs. xs) result (many text (window w.entry)) }
{
    let mut all = BytesList::new(alloc);
    let mut here = w;
    for _ in 0..w.left {
        if here.left == 0 {
            return Ok(all);
        }
        let (one, rest) = text(alloc, here)?;
        all.push(one)?;
        here = rest;
    }
    Ok(all)
}

#[tactic(auto, unfolding(ber_core::specs::Window::optional, ber_core::specs::Window::element))]
pub(crate) fn optional_boolean(w: Cursor) -> Result<(Option<bool>, Cursor), ReadFault>
    ensures { Gives with_window result (optional 0x01 boolean (window w.entry)) }
{
    if w.left == 0 {
        return Ok((None, w));
    }
    if w.tag()? != 0x01 {
        return Ok((None, w));
    }
    let (inside, rest) = w.open_as(0x01)?;
    Ok((Some(inside.boolean()?), rest))
}

/// The number that is the content, from 0 to 2147483647 (RFC 4511, section 4.1.1, `maxInt`).
#[tactic(auto, unfolding(crate::specs::Grammar::count))]
pub fn count(w: Cursor) -> Result<u32, ReadFault>
    ensures { Gives (λ n. n) result (count (window w.entry)) }
{
    let value = w.int()?;
    if value < 0 || value > 2_147_483_647 {
        return Err(ReadFault::NotLdap {
            place: w.start,
            why: NotLdapWhy::Shape,
        });
    }
    Ok(value as u32)
}

#[tactic(auto, unfolding(crate::specs::Grammar::attribute_inside, ber_core::specs::Window::element))]
fn attribute_inside(alloc: Global, w: Cursor) -> Result<RawAttr, ReadFault>
    ensures { Gives (λ a. a) result (attribute_inside (window w.entry)) }
{
    let (name, rest) = text(alloc, w)?;
    let (inside, rest) = rest.open_as(0x31)?;
    let vals = texts(alloc, inside)?;
    ended(rest)?;
    Ok(RawAttr { name, vals })
}

#[tactic(auto, unfolding(ber_core::specs::Window::element))]
pub(crate) fn attribute(alloc: Global, w: Cursor) -> Result<(RawAttr, Cursor), ReadFault>
    ensures { Gives with_window result (attribute (window w.entry)) }
{
    let (inside, rest) = w.open_as(0x30)?;
    Ok((attribute_inside(alloc, inside)?, rest))
}

pub(crate) fn attributes(alloc: Global, w: Cursor) -> Result<RawAttrList, ReadFault>
    ensures { Gives (λ xs. xs) result (many attribute (window w.entry)) }
{
    let mut all = RawAttrList::new(alloc);
    let mut here = w;
    for _ in 0..w.left {
        if here.left == 0 {
            return Ok(all);
        }
        let (one, rest) = attribute(alloc, here)?;
        all.push(one)?;
        here = rest;
    }
    Ok(all)
}

#[tactic(auto, unfolding(crate::specs::Grammar::assertion))]
pub(crate) fn assertion(alloc: Global, w: Cursor) -> Result<(Bytes, Bytes), ReadFault>
    ensures { Gives (λ a. a) result (assertion (window w.entry)) }
{
    let (name, rest) = text(alloc, w)?;
    let (value, rest) = text(alloc, rest)?;
    ended(rest)?;
    Ok((name, value))
}
