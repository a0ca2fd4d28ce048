//! The control of an update: its value both ways.

ghost use Rattle.std.specs.Prelude.{◌≡◌, length, IfOk};
ghost use Rattle.ber_core.specs.Cursor.{Gives, window, with_window};
ghost use Rattle.ber_core.specs.Window.{element, many, optional};
ghost use Rattle.repl_data.specs.Text.{read_csn};
ghost use Rattle.repl_wire.specs.Control.{digits_of, uid_of, csn_digits, printed_id, one_value, dropped_inside, dropped_here, control_inside, control_at};

use crate::session::front;
use ber_core::{Cursor, NotLdapWhy, ReadFault, ended, optional_text, text};
use ldap_types::{Bytes, NoMemory};
use repl_data::{Csn, Items, Uid};
use std::alloc::Global;

/// A dropped value as it travels: its attribute and its spelling.
#[derive(Debug, Drop)]
pub(crate) struct Dropped {
    pub(crate) name: Bytes,
    pub(crate) spelled: Bytes,
}

/// What the control says of an update.
#[derive(Debug, Drop)]
pub(crate) struct Fields {
    pub(crate) csn: Csn,
    pub(crate) prev: Csn,
    pub(crate) parent: Option<Uid>,
    pub(crate) name: Option<Bytes>,
    pub(crate) dropped: Option<Items<Dropped>>,
}

/// The CSN whose digits stand at the places that a printed id has them at.
fn digits(alloc: Global, text: &[u8]) -> Result<Option<Csn>, NoMemory>
    requires { length text.now ≡ 35 }
    ensures { IfOk result (λ c. c ≡ read_csn (digits_of text.now)) }
{
    let mut digits = Bytes::from_slice(alloc, &text[..8])?;
    digits.extend_from_slice(&text[9..17])?;
    digits.extend_from_slice(&text[18..22])?;
    Ok(Csn::read(digits.as_slice()))
}

/// The id that the text is printed from.
#[tactic(auto, unfolding(crate::specs::Control::uid_of))]
pub(crate) fn uid_of(alloc: Global, text: &[u8]) -> Result<Option<Uid>, NoMemory>
    ensures { IfOk result (λ u. u ≡ uid_of text.now) }
{
    if text.len() != 35 {
        return Ok(None);
    }
    let Some(csn) = digits(alloc, text)? else {
        return Ok(None);
    };
    let uid = Uid { csn };
    if text == uid.text().as_slice() {
        Ok(Some(uid))
    } else {
        Ok(None)
    }
}

/// The CSN of 20 digits that is the content.
#[tactic(auto, unfolding(crate::specs::Control::csn_digits))]
fn csn_digits(w: Cursor) -> Result<Csn, ReadFault>
    ensures { Gives (λ c. c) result (csn_digits (window w.entry)) }
{
    match Csn::read(w.octets()?) {
        Some(csn) => Ok(csn),
        None => Err(ReadFault::NotLdap {
            place: w.start,
            why: NotLdapWhy::Shape,
        }),
    }
}

#[tactic(auto, unfolding(ber_core::specs::Window::element))]
fn csn_here(w: Cursor<'_>) -> Result<(Csn, Cursor<'_>), ReadFault>
    ensures { Gives with_window result (element 0x04 csn_digits (window w.entry)) }
{
    let (inside, rest) = w.open_as(0x04)?;
    Ok((csn_digits(inside)?, rest))
}

/// The printed id that is the content.
#[tactic(auto, unfolding(crate::specs::Control::printed_id))]
fn printed_id(alloc: Global, w: Cursor) -> Result<Uid, ReadFault>
    ensures { Gives (λ u. u) result (printed_id (window w.entry)) }
{
    let text = w.octets()?;
    match uid_of(alloc, text)? {
        Some(uid) => Ok(uid),
        None => Err(ReadFault::NotLdap {
            place: w.start,
            why: NotLdapWhy::Shape,
        }),
    }
}

#[tactic(auto, unfolding(ber_core::specs::Window::optional, ber_core::specs::Window::element))]
fn optional_id(alloc: Global, w: Cursor<'_>) -> Result<(Option<Uid>, Cursor<'_>), ReadFault>
    ensures { Gives with_window result (optional 0x80 printed_id (window w.entry)) }
{
    if w.left == 0 {
        return Ok((None, w));
    }
    if w.tag()? != 0x80 {
        return Ok((None, w));
    }
    let (inside, rest) = w.open_as(0x80)?;
    Ok((Some(printed_id(alloc, inside)?), rest))
}

#[tactic(auto, unfolding(crate::specs::Control::one_value))]
fn one_value(alloc: Global, w: Cursor) -> Result<Bytes, ReadFault>
    ensures { Gives (λ b. b) result (one_value (window w.entry)) }
{
    let (value, rest) = text(alloc, w)?;
    ended(rest)?;
    Ok(value)
}

#[tactic(auto, unfolding(crate::specs::Control::dropped_inside, ber_core::specs::Window::element))]
fn dropped_inside(alloc: Global, w: Cursor) -> Result<Dropped, ReadFault>
    ensures { Gives (λ d. d) result (dropped_inside (window w.entry)) }
{
    let (name, rest) = text(alloc, w)?;
    let (inside, rest) = rest.open_as(0x31)?;
    let spelled = one_value(alloc, inside)?;
    ended(rest)?;
    Ok(Dropped { name, spelled })
}

#[tactic(auto, unfolding(ber_core::specs::Window::element))]
fn dropped_here(alloc: Global, w: Cursor<'_>) -> Result<(Dropped, Cursor<'_>), ReadFault>
    ensures { Gives with_window result (dropped_here (window w.entry)) }
{
    let (inside, rest) = w.open_as(0x30)?;
    Ok((dropped_inside(alloc, inside)?, rest))
}

fn all_dropped(alloc: Global, w: Cursor) -> Result<Items<Dropped>, ReadFault>
    ensures { Gives (λ xs. xs) result (many dropped_here (window w.entry)) }
{
    let mut all = Items::new(alloc);
    let mut here = w;
    for _ in 0..w.left {
        if here.left == 0 {
            return Ok(all);
        }
        let (one, rest) = dropped_here(alloc, here)?;
        all.push(one)?;
        here = rest;
    }
    Ok(all)
}

#[tactic(auto, unfolding(ber_core::specs::Window::optional, ber_core::specs::Window::element))]
fn optional_dropped(
    alloc: Global,
    w: Cursor<'_>,
) -> Result<(Option<Items<Dropped>>, Cursor<'_>), ReadFault>
    ensures { Gives with_window result (optional 0xa2 (many dropped_here) (window w.entry)) }
{
    if w.left == 0 {
        return Ok((None, w));
    }
    if w.tag()? != 0xa2 {
        return Ok((None, w));
    }
    let (inside, rest) = w.open_as(0xa2)?;
    Ok((Some(all_dropped(alloc, inside)?), rest))
}

#[tactic(auto, unfolding(crate::specs::Control::control_inside))]
fn control_inside(alloc: Global, w: Cursor) -> Result<Fields, ReadFault>
    ensures { Gives (λ f. f) result (control_inside (window w.entry)) }
{
    let (csn, rest) = csn_here(w)?;
    let (prev, rest) = csn_here(rest)?;
    let (parent, rest) = optional_id(alloc, rest)?;
    let (name, rest) = optional_text(alloc, 0x81, rest)?;
    let (dropped, rest) = optional_dropped(alloc, rest)?;
    ended(rest)?;
    Ok(Fields {
        csn,
        prev,
        parent,
        name,
        dropped,
    })
}

/// What the value of the control says.
#[tactic(auto, unfolding(crate::specs::Value::alone, ber_core::specs::Window::element))]
pub(crate) fn control_at(alloc: Global, value: &[u8]) -> Result<Fields, ReadFault>
    ensures { Gives (λ f. f) result (control_at value.now) }
{
    let (inside, rest) = front(value).open_as(0x30)?;
    let fields = control_inside(alloc, inside)?;
    ended(rest)?;
    Ok(fields)
}
