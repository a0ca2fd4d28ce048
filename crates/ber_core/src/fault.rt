//! Why bytes are no element, and why they are no message.

ghost use Rattle.std.specs.Prelude.{◌≡◌};
ghost use Rattle.ber_core.specs.declared.fault.ReadFault.TheVariants as fault;

use repl_data::NoMemory as Memory;
use std::alloc::AllocError;

/// Why no element was read.
#[derive(Clone, Copy, Debug, Eq, PartialEq)]
pub enum BerFault {
    /// The bytes are a proper prefix of an element within the limit. `need` is the least count of
    /// bytes that are still missing.
    More { need: usize },
    /// No element within the limit begins so, however the bytes go on. `place` is the offset of the
    /// byte at fault.
    Bad { place: usize, why: BerWhy },
}

/// Why no element begins so.
#[derive(Clone, Copy, Debug, Eq, PartialEq)]
pub enum BerWhy {
    /// The low five bits of the tag are all ones: a tag of several bytes (X.690, section 8.1.2.4).
    LongTag,
    /// The length is 80: the indefinite form (X.690, section 8.1.3.6; RFC 4511, section 5.1).
    Indefinite,
    /// The length begins with 89 to ff: more than eight digits, or the reserved byte (X.690,
    /// section 8.1.3.5).
    LengthForm,
    /// The element has more bytes than the limit.
    TooLarge,
}

/// Why no message was read.
#[derive(Clone, Copy, Debug, Eq, PartialEq)]
pub enum ReadFault {
    /// No memory was left for the message.
    NoMemory,
    /// The bytes are not at fault, and do not begin with a whole message.
    More,
    /// No such message begins so, however the bytes go on. `place` is the offset of the first byte of the
    /// element at fault, and for `Ber` that of the byte at fault.
    NotLdap { place: usize, why: NotLdapWhy },
}

/// What is wrong with the element at the place.
#[derive(Clone, Copy, Debug, Eq, PartialEq)]
pub enum NotLdapWhy {
    /// No element that fits into the one around it begins so.
    Ber(BerWhy),
    /// The id of the message is not from 1 to 2147483647.
    Id,
    /// The tag is that of no operation that is read there.
    Op,
    /// The element has another tag, form or range than the message has there, or it ends before its
    /// last required one.
    Shape,
    /// The message is longer than the limit.
    TooLarge,
    /// The filter is deeper than the limit.
    Depth,
}

impl From<Memory> for ReadFault {
    ghost from_gives = { λ _ e. e ≡ fault.NoMemory };

    fn from(_error: Memory) -> ReadFault {
        ReadFault::NoMemory
    }
}

impl From<AllocError> for ReadFault {
    ghost from_gives = { λ _ e. e ≡ fault.NoMemory };

    fn from(_error: AllocError) -> ReadFault {
        ReadFault::NoMemory
    }
}
