//! A place inside an element whose bytes are all there.

ghost use Rattle.std.specs.Prelude.{◌≡◌, ◌+◌, ◌<◌, ◌≤◌, ◌^◌, length};
ghost use Rattle.ber_core.specs.Number.{drop_zeros};
ghost use Rattle.row_bytes.specs.Place.{header_bytes};

use crate::fault::{RowFault, RowWhy};
use ber_core::{BerFault, BerWhy, Tlv, read_tlv};

/// A place inside an element, with the bytes from there to the element's end.
#[derive(Clone, Copy)]
pub(crate) struct Cursor<'a> {
    pub(crate) start: usize,
    pub(crate) at: usize,
    pub(crate) bytes: &'a [u8],
    ghost within: { at + length bytes.now < 2 ^ 64 },
}

impl<'a> Cursor<'a> {
    ghost use Rattle.std.specs.Prelude.{length};
    ghost use Rattle.row_bytes.specs.Place.{tag_here, open_here, open_as, open_exact, inside, after};
    ghost use Rattle.row_bytes.specs.Given.{Gives, place_of, pair};
    ghost use Rattle.ber_core.specs.Reading.{parts};

    /// The tag of the element that must stand here.
    #[tactic(auto, unfolding(crate::specs::Place::tag_in))]
    pub(crate) fn tag(self) -> Result<u8, RowFault>
        ensures { Gives (λ t. t) result (tag_here (place_of self.entry)) }
    {
        match self.bytes {
            [] => Err(RowFault::Bad {
                place: self.start,
                why: RowWhy::Shape,
            }),
            [_] => Err(RowFault::Bad {
                place: self.at,
                why: RowWhy::Ber(BerWhy::TooLarge),
            }),
            [tag, ..] => {
                if *tag % 32 == 31 {
                    Err(RowFault::Bad {
                        place: self.at,
                        why: RowWhy::Ber(BerWhy::LongTag),
                    })
                } else {
                    Ok(*tag)
                }
            }
        }
    }

    fn inside(self, tlv: Tlv<'a>) -> Cursor<'a>
        requires fits { length tlv.body.now + 2 ≤ tlv.size }
        requires there { tlv.size ≤ length self.bytes.now }
        ensures { place_of result ≡ inside (place_of self.entry) (parts tlv.entry) }
    {
        Cursor {
            start: self.at,
            at: self.at + (tlv.size - tlv.body.len()),
            bytes: tlv.body,
        }
    }

    fn after(self, tlv: Tlv<'a>) -> Cursor<'a>
        requires { tlv.size ≤ length self.bytes.now }
        ensures { place_of result ≡ after (place_of self.entry) (parts tlv.entry) }
    {
        Cursor {
            start: self.start,
            at: self.at + tlv.size,
            bytes: &self.bytes[tlv.size..],
        }
    }

    /// What is inside the element here, and what is after it.
    #[tactic(auto, unfolding(crate::specs::Place::open_here))]
    fn open(self) -> Result<(Cursor<'a>, Cursor<'a>), RowFault>
        ensures { Gives pair result (open_here (place_of self.entry)) }
    {
        match read_tlv(self.bytes, self.bytes.len()) {
            Ok(tlv) => Ok((self.inside(tlv), self.after(tlv))),
            Err(BerFault::More { .. }) => Err(RowFault::Bad {
                place: self.at,
                why: RowWhy::Ber(BerWhy::TooLarge),
            }),
            Err(BerFault::Bad { place, why }) => Err(RowFault::Bad {
                place: self.at + place,
                why: RowWhy::Ber(why),
            }),
        }
    }

    #[tactic(auto, unfolding(crate::specs::Place::open_as))]
    fn open_as(self, tag: u8) -> Result<(Cursor<'a>, Cursor<'a>), RowFault>
        ensures { Gives pair result (open_as tag (place_of self.entry)) }
    {
        if self.tag()? == tag {
            self.open()
        } else {
            Err(RowFault::Bad {
                place: self.at,
                why: RowWhy::Shape,
            })
        }
    }

    /// What is inside the element here and what is after it, where its tag is this one and its length
    /// has the fewest bytes.
    #[tactic(auto, unfolding(crate::specs::Place::open_exact))]
    pub(crate) fn open_exact(self, tag: u8) -> Result<(Cursor<'a>, Cursor<'a>), RowFault>
        ensures { Gives pair result (open_exact tag (place_of self.entry)) }
    {
        let (inside, rest) = self.open_as(tag)?;
        if inside.at.saturating_sub(self.at) == header_bytes(inside.bytes.len()) {
            Ok((inside, rest))
        } else {
            Err(RowFault::Bad {
                place: self.at,
                why: RowWhy::Shape,
            })
        }
    }
}

impl Cursor<'_> {
    ghost use Rattle.row_bytes.specs.Place.{ended};
    ghost use Rattle.row_bytes.specs.Given.{Gives, place_of};

    /// Nothing more stands here.
    #[tactic(auto, unfolding(crate::specs::Place::ended))]
    pub(crate) fn ended(self) -> Result<(), RowFault>
        ensures { Gives (λ u. u) result (ended (place_of self.entry)) }
    {
        if self.bytes.len() == 0 {
            return Ok(());
        }
        let _tag = self.tag()?;
        Err(RowFault::Bad {
            place: self.at,
            why: RowWhy::Shape,
        })
    }
}

/// How many of the digits there are without the zeros in front.
fn digit_count(digits: &[u8]) -> usize
    ensures { result ≡ length (drop_zeros digits.now) }
{
    match digits {
        [0, rest @ ..] => digit_count(rest),
        _ => digits.len(),
    }
}

/// How many bytes the tag and the length of so much content have, where the length has the fewest.
#[tactic(auto, unfolding(ber_core::specs::Element::shortest_length))]
fn header_bytes(content: usize) -> usize
    ensures { result ≡ header_bytes content }
{
    if content < 0x80 {
        2
    } else {
        2 + digit_count(&(content as u64).to_be_bytes())
    }
}
