//! Why bytes are no row.

ghost use Rattle.std.specs.Prelude.{◌≡◌};
ghost use Rattle.row_bytes.specs.declared.fault.RowFault.TheVariants as fault;

use ber_core::BerWhy;
use repl_data::NoMemory as Memory;

/// Why no change was read.
#[derive(Clone, Copy, Debug, Drop, Eq, PartialEq)]
pub enum RowFault {
    /// No memory was left for the change.
    NoMemory,
    /// The bytes are no row. `place` is the offset of the first byte of the element at fault, and for
    /// `Ber` that of the byte at fault; for `Kind` and `Key` it is 0.
    Bad { place: usize, why: RowWhy },
}

/// What is wrong with the element at the place, or with the row as a whole.
#[derive(Clone, Copy, Debug, Drop, Eq, PartialEq)]
pub enum RowWhy {
    /// No element that fits into the one around it begins so.
    Ber(BerWhy),
    /// The element has another tag, form or range than the row has there, or it ends before its last
    /// required one.
    Shape,
    /// The version is another number of one byte than 1.
    Version,
    /// The row stands under a kind that is not that of changes.
    Kind,
    /// The row stands under another key than that of its change.
    Key,
}

impl From<Memory> for RowFault {
    ghost from_gives = { λ _ e. e ≡ fault.NoMemory };

    fn from(_error: Memory) -> RowFault {
        RowFault::NoMemory
    }
}
