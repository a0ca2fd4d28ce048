//! What suppliers and consumers answer each other.

use crate::vector::Vector;
use repl_data::{Bytes, Csn, Malformed, Uid, Update};

/// How a supplier begins a session: the suffix that it has, its replica id, and its vector.
#[derive(Debug, Drop)]
pub struct Start {
    pub suffix: Bytes,
    /// From 1 to 65534.
    pub rid: u16,
    pub front: Vector,
}

/// What a supplier has for a vector.
#[derive(Clone, Debug, Drop)]
pub enum Offer {
    /// The change of least CSN beyond the vector.
    Next(Update),
    /// It has no change beyond the vector.
    Done,
}

/// What a consumer made of an update.
#[derive(Clone, Copy, Debug, Drop, Eq, PartialEq)]
pub enum Applied {
    /// It was taken.
    Taken,
    /// The vector covers it already, and nothing changed.
    Duplicate,
}

/// Why a supplier may not begin a session.
#[derive(Clone, Copy, Debug, Drop, Eq, PartialEq)]
pub enum AcquireFault {
    NoMemory,
    /// The consumer has another suffix.
    WrongSuffix,
    /// The supplier has the consumer's own replica id.
    SameId,
    /// This supplier holds the consumer.
    Busy { rid: u16 },
    /// The greatest CSN of the supplier's vector is more than a day after `now`, in seconds since 1970.
    Skew { csn: Csn, now: u32 },
}

/// Why a consumer does not take an update.
#[derive(Clone, Copy, Debug, Drop, Eq, PartialEq)]
pub enum ApplyFault {
    NoMemory,
    /// Its supplier does not hold the consumer.
    NotHolder,
    /// It is no change that may be taken.
    Malformed(Malformed),
    /// A change of the consumer's own that it does not know.
    OwnUnknown { csn: Csn },
    /// The CSN is more than a day after `now`, in seconds since 1970.
    Skew { csn: Csn, now: u32 },
    /// The consumer has not taken the change before it: its vector stands at `have`.
    Gap { have: Csn, prev: Csn },
    /// The entry that the change needs was never added.
    Missing { id: Uid },
    KeeperFault,
}
