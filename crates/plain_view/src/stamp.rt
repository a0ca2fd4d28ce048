//! Stamps of acts.

ghost use Rattle.std.specs.Prelude.{◌≡◌, ℕ};
ghost use Rattle.repl_data.specs.Order.{csn_cmp, csn_lt, csn_eq, csn_le, zero_csn, stamp};

use repl_data::Csn;
use std::cmp::Ordering;
use std::marker::Model;

/// The stamp of an act: a CSN whose part may be as great as a list of modifications is long.
#[derive(Clone, Copy, Drop)]
pub(crate) struct Stamp {
    time: u32,
    seq: u16,
    rid: u16,
    part: usize,
}

impl Model for Stamp {
    ghost use Rattle.repl_data.specs.declared.csn.Csn.{Csn};

    ghost Value = { Csn };

    ghost view = { λ s. record { time = s.time; seq = s.seq; rid = s.rid; sub = s.part } };

    ghost inverse = { λ c. record { time = c.time; seq = c.seq; rid = c.rid; part = c.sub } };
}

impl Stamp {
    /// The stamp that is this CSN.
    pub(crate) fn of(csn: Csn) -> Stamp
        ensures { result ≡ csn }
    {
        Stamp {
            time: csn.time,
            seq: csn.seq,
            rid: csn.rid,
            part: csn.sub as usize,
        }
    }

    /// The zero stamp, which stands for none.
    pub(crate) fn zero() -> Stamp
        ensures { result ≡ zero_csn }
    {
        Stamp::of(Csn::ZERO)
    }

    /// The stamp of the act number `part` of a change with this CSN.
    pub(crate) fn part(csn: Csn, part: usize) -> Stamp
        ensures { result ≡ stamp csn part }
    {
        Stamp {
            time: csn.time,
            seq: csn.seq,
            rid: csn.rid,
            part,
        }
    }

    pub(crate) fn compare(self, other: Stamp) -> Ordering
        ensures { result ≡ csn_cmp self other }
    {
        self.time.cmp(&other.time).then(
            self.seq
                .cmp(&other.seq)
                .then(self.rid.cmp(&other.rid).then(self.part.cmp(&other.part))),
        )
    }

    pub(crate) fn is_below(self, other: Stamp) -> bool
        ensures { result ≡ csn_lt self other }
    {
        self.compare(other).is_lt()
    }

    pub(crate) fn is_within(self, other: Stamp) -> bool
        ensures { result ≡ csn_le self other }
    {
        self.compare(other).is_le()
    }

    pub(crate) fn is(self, other: Stamp) -> bool
        ensures { result ≡ csn_eq self other }
    {
        self.compare(other).is_eq()
    }
}
