//! Why a message is none of a session.

ghost use Rattle.std.specs.Prelude.{◌≡◌};
ghost use Rattle.repl_wire.specs.declared.fault.WireFault.TheVariants as fault;
ghost use Rattle.repl_wire.specs.Fault.{told, name_told};

use ber_core::{BerWhy, NotLdapWhy, ReadFault};
use dn_text::{DnFault, DnWhy};
use repl_data::NoMemory as Memory;

/// Why nothing was read.
#[derive(Clone, Copy, Debug, Drop, Eq, PartialEq)]
pub enum WireFault {
    /// No memory was left.
    NoMemory,
    /// The message is none of this form: its first fault. What `place` counts, `why` says.
    Bad { place: usize, why: WireWhy },
}

/// What is wrong with the message.
#[derive(Clone, Copy, Debug, Drop, Eq, PartialEq)]
pub enum WireWhy {
    /// It is another operation, or one of another name. The place is 0.
    Op,
    /// The result has another code than 0. The place is 0.
    Code,
    /// It has no value. The place is 0.
    NoValue,
    /// The value is of another form. The place is the offset in the value of the first byte of the
    /// element at fault, and for `Ber` that of the byte at fault.
    Value(NotLdapWhy),
    /// Not exactly one control has the name of updates, or it is not critical. The place is 0.
    Control,
    /// A field of the control is there that the operation doesn't have, or lacks that it has, or the
    /// old relative name is marked for deletion where nothing of it is dropped, or the other way round,
    /// or the entry is to move. The place is 0.
    Field,
    /// The entry's name is not that of an id. The place is 0.
    Target,
    /// The relative name's text is at fault; the place is that of the byte in it.
    Name(DnWhy),
    /// The text is not one relative name, but none or several. The place is 0.
    Rdn,
    /// A modification is of another kind than 0, 1 and 2. The place is its number, from 0.
    Kind,
    /// A name or a value has no key. The place is the number of its attribute, modification or dropped
    /// value, from 0.
    Key,
}

impl From<Memory> for WireFault {
    ghost from_gives = { λ _ e. e ≡ fault.NoMemory };

    fn from(_error: Memory) -> WireFault {
        WireFault::NoMemory
    }
}

impl From<ReadFault> for WireFault {
    ghost from_gives = { λ e f. f ≡ told e };

    fn from(error: ReadFault) -> WireFault {
        match error {
            ReadFault::NoMemory => WireFault::NoMemory,
            ReadFault::More => WireFault::Bad {
                place: 0,
                why: WireWhy::Value(NotLdapWhy::Ber(BerWhy::TooLarge)),
            },
            ReadFault::NotLdap { place, why } => WireFault::Bad {
                place,
                why: WireWhy::Value(why),
            },
        }
    }
}

impl From<DnFault> for WireFault {
    ghost from_gives = { λ e f. f ≡ name_told e };

    fn from(error: DnFault) -> WireFault {
        match error {
            DnFault::NoMemory => WireFault::NoMemory,
            DnFault::BadDn { place, why } => WireFault::Bad {
                place,
                why: WireWhy::Name(why),
            },
        }
    }
}
