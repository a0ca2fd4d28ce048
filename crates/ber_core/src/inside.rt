//! What stands inside an element: octet strings, and the end.

ghost use Rattle.std.specs.Prelude.{◌≡◌};
ghost use Rattle.ber_core.specs.Cursor.{Gives, window, with_window};
ghost use Rattle.ber_core.specs.Window.{ended, element, optional, octets};

use crate::cursor::Cursor;
use crate::fault::{NotLdapWhy, ReadFault};
use repl_data::Bytes;
use std::alloc::Global;

/// Nothing more stands here.
#[tactic(auto, unfolding(crate::specs::Window::ended))]
pub fn ended(w: Cursor) -> Result<(), ReadFault>
    ensures { Gives (λ u. u) result (ended (window w.entry)) }
{
    if w.left == 0 {
        return Ok(());
    }
    w.tag()?;
    Err(ReadFault::NotLdap {
        place: w.at,
        why: NotLdapWhy::Shape,
    })
}

/// A copy of the OCTET STRING here (X.690, section 8.7), and what is after it.
#[tactic(auto, unfolding(crate::specs::Window::element))]
pub fn text(alloc: Global, w: Cursor) -> Result<(Bytes, Cursor), ReadFault>
    ensures { Gives with_window result (element 0x04 octets (window w.entry)) }
{
    let (inside, rest) = w.open_as(0x04)?;
    let bytes = Bytes::from_slice(alloc, inside.octets()?)?;
    Ok((bytes, rest))
}

/// The same with another tag, where it may be left out: it stands here if its tag does.
#[tactic(auto, unfolding(crate::specs::Window::optional, crate::specs::Window::element))]
pub fn optional_text(
    alloc: Global,
    tag: u8,
    w: Cursor,
) -> Result<(Option<Bytes>, Cursor), ReadFault>
    ensures { Gives with_window result (optional tag octets (window w.entry)) }
{
    if w.left == 0 {
        return Ok((None, w));
    }
    if w.tag()? != tag {
        return Ok((None, w));
    }
    let (inside, rest) = w.open_as(tag)?;
    let bytes = Bytes::from_slice(alloc, inside.octets()?)?;
    Ok((Some(bytes), rest))
}
