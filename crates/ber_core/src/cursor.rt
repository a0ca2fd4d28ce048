//! A place inside an element.

ghost use Rattle.std.specs.Prelude.{◌≡◌, ◌+◌, ◌<◌, ◌≤◌, ◌^◌};

use crate::fault::{BerFault, BerWhy, NotLdapWhy, ReadFault};
use crate::number::{read_bool, read_int};
use crate::read::{Header, read_header};

/// A place inside an element, of bytes that may go on.
#[derive(Clone, Copy)]
pub struct Cursor<'a> {
    pub start: usize,
    pub at: usize,
    pub left: usize,
    pub bytes: &'a [u8],
    ghost within: { at + left < 2 ^ 64 },
}

impl<'a> Cursor<'a> {
    ghost use Rattle.ber_core.specs.Window.{tag_here, open_here, open_as, octets, int, boolean, skip};
    ghost use Rattle.ber_core.specs.Cursor.{Gives, window, pair};

    /// The tag of the element that must stand here.
    #[tactic(auto, unfolding(crate::specs::Window::tag_in))]
    pub fn tag(self) -> Result<u8, ReadFault>
        ensures { Gives (λ t. t) result (tag_here (window self.entry)) }
    {
        if self.left == 0 {
            return Err(ReadFault::NotLdap {
                place: self.start,
                why: NotLdapWhy::Shape,
            });
        }
        if self.left == 1 {
            return Err(ReadFault::NotLdap {
                place: self.at,
                why: NotLdapWhy::Ber(BerWhy::TooLarge),
            });
        }
        match self.bytes {
            [] => Err(ReadFault::More),
            [tag, ..] => {
                if *tag % 32 == 31 {
                    Err(ReadFault::NotLdap {
                        place: self.at,
                        why: NotLdapWhy::Ber(BerWhy::LongTag),
                    })
                } else {
                    Ok(*tag)
                }
            }
        }
    }

    /// What is inside the element here, and what is after it.
    #[tactic(auto, unfolding(crate::specs::Window::open_here))]
    pub fn open(self) -> Result<(Cursor<'a>, Cursor<'a>), ReadFault>
        ensures { Gives pair result (open_here (window self.entry)) }
    {
        match read_header(self.bytes, self.left) {
            Ok(header) => Ok((self.inside(header), self.after(header))),
            Err(BerFault::More { .. }) => Err(ReadFault::More),
            Err(BerFault::Bad { place, why }) => Err(ReadFault::NotLdap {
                place: self.at + place,
                why: NotLdapWhy::Ber(why),
            }),
        }
    }

    /// The element here has this tag.
    #[tactic(auto, unfolding(crate::specs::Window::open_as))]
    pub fn open_as(self, tag: u8) -> Result<(Cursor<'a>, Cursor<'a>), ReadFault>
        ensures { Gives pair result (open_as tag (window self.entry)) }
    {
        if self.tag()? == tag {
            self.open()
        } else {
            Err(ReadFault::NotLdap {
                place: self.at,
                why: NotLdapWhy::Shape,
            })
        }
    }

    /// All of the content, once it has come.
    #[tactic(auto, unfolding(crate::specs::Window::octets))]
    pub fn octets(self) -> Result<&'a [u8], ReadFault>
        ensures { Gives (λ b. b.now) result (octets (window self.entry)) }
    {
        if self.bytes.len() < self.left {
            Err(ReadFault::More)
        } else {
            Ok(&self.bytes[..self.left])
        }
    }

    #[tactic(auto, unfolding(crate::specs::Window::int))]
    pub fn int(self) -> Result<i64, ReadFault>
        ensures { Gives (λ z. z) result (int (window self.entry)) }
    {
        if self.left == 0 || self.left > 8 {
            return Err(ReadFault::NotLdap {
                place: self.start,
                why: NotLdapWhy::Shape,
            });
        }
        match read_int(self.octets()?) {
            Some(value) => Ok(value),
            None => Err(ReadFault::NotLdap {
                place: self.start,
                why: NotLdapWhy::Shape,
            }),
        }
    }

    #[tactic(auto, unfolding(crate::specs::Window::boolean))]
    pub fn boolean(self) -> Result<bool, ReadFault>
        ensures { Gives (λ b. b) result (boolean (window self.entry)) }
    {
        if self.left != 1 {
            return Err(ReadFault::NotLdap {
                place: self.start,
                why: NotLdapWhy::Shape,
            });
        }
        match read_bool(self.octets()?) {
            Some(value) => Ok(value),
            None => Err(ReadFault::NotLdap {
                place: self.start,
                why: NotLdapWhy::Shape,
            }),
        }
    }
}

impl<'a> Cursor<'a> {
    ghost use Rattle.ber_core.specs.Window.{element, octets, int, boolean};
    ghost use Rattle.ber_core.specs.Cursor.{Gives, window, with_window};

    /// The content of the element here, where its tag is this one, and what is after it.
    #[tactic(auto, unfolding(crate::specs::Window::element))]
    pub fn octets_as(self, tag: u8) -> Result<(&'a [u8], Cursor<'a>), ReadFault>
        ensures { Gives (λ p. (p.0.now, window p.1)) result (element tag octets (window self.entry)) }
    {
        let (inside, rest) = self.open_as(tag)?;
        Ok((inside.octets()?, rest))
    }

    /// The integer that the element here is, where its tag is this one, and what is after it.
    #[tactic(auto, unfolding(crate::specs::Window::element))]
    pub fn int_as(self, tag: u8) -> Result<(i64, Cursor<'a>), ReadFault>
        ensures { Gives with_window result (element tag int (window self.entry)) }
    {
        let (inside, rest) = self.open_as(tag)?;
        Ok((inside.int()?, rest))
    }

    /// The truth value that the BOOLEAN here is, and what is after it.
    #[tactic(auto, unfolding(crate::specs::Window::element))]
    pub fn boolean_here(self) -> Result<(bool, Cursor<'a>), ReadFault>
        ensures { Gives with_window result (element 0x01 boolean (window self.entry)) }
    {
        let (inside, rest) = self.open_as(0x01)?;
        Ok((inside.boolean()?, rest))
    }
}

impl<'a> Cursor<'a> {
    ghost use Rattle.ber_core.specs.Window.{inside, after};
    ghost use Rattle.ber_core.specs.Cursor.{window};
    ghost use Rattle.std.specs.Prelude.{length};

    fn inside(self, header: Header) -> Cursor<'a>
        requires fits { header.size + header.content ≤ self.left }
        requires there { header.size ≤ length self.bytes.now }
        ensures { window result ≡ inside (window self.entry) header }
    {
        Cursor {
            start: self.at,
            at: self.at + header.size,
            left: header.content,
            bytes: &self.bytes[header.size..],
        }
    }

    fn after(self, header: Header) -> Cursor<'a>
        requires fits { header.size + header.content ≤ self.left }
        ensures { window result ≡ after (window self.entry) header }
    {
        let size = header.size + header.content;
        let bytes = if size < self.bytes.len() {
            &self.bytes[size..]
        } else {
            &[]
        };
        Cursor {
            start: self.start,
            at: self.at + size,
            left: self.left - size,
            bytes,
        }
    }
}
