//! A place in the bytes.

ghost use Rattle.std.specs.Prelude.{◌≡◌};

use crate::part::Part;
use ber_core::Cursor;

/// A place inside an element of the message, by offsets into the message's bytes.
#[derive(Clone, Copy, Debug)]
pub(crate) struct Place {
    /// What is still to be read from here to the end of the element.
    pub(crate) part: Part,
    /// Where the element starts.
    pub(crate) start: usize,
    pub(crate) at: usize,
    /// Where the element ends.
    pub(crate) end: usize,
}

impl Place {
    ghost use Rattle.ber_core.specs.Cursor.{window};
    ghost use Rattle.request_wait.specs.Place.{seen, place_at};

    /// The place in these bytes.
    pub(crate) fn cursor(self, bytes: &[u8]) -> Cursor<'_>
        ensures { window result ≡ seen bytes.now self }
    {
        let rest = if self.at < bytes.len() {
            &bytes[self.at..]
        } else {
            &[]
        };
        Cursor {
            start: self.start,
            at: self.at,
            left: self.end.saturating_sub(self.at),
            bytes: rest,
        }
    }

    /// The place of a cursor, where this is still to be read.
    pub(crate) fn of(part: Part, w: Cursor) -> Place
        ensures { result ≡ place_at part (window w.entry) }
    {
        Place {
            part,
            start: w.start,
            at: w.at,
            end: w.at + w.left,
        }
    }
}
