//! The generator of CSNs.

ghost use Rattle.std.specs.Prelude.{◌≡◌, ℕ, ◌<◌, ◌^◌, ◌↔◌, true, Some, None, Ok, Err, OnErr, MatchResult};
ghost use Rattle.repl_data.specs.declared.csn.Csn.{Csn};
ghost use Rattle.repl_data.specs.Order.{csn_lt};
ghost use Rattle.pending_core.specs.declared.generator.Generator.{Generator};
ghost use Rattle.pending_core.specs.Draw.{draw, generator_at, is_before, raised_to};

use repl_data::Csn;

/// The last time and sequence number that a node drew or saw.
#[derive(Clone, Copy, Debug, Drop, Eq, PartialEq)]
pub struct Generator {
    /// In seconds since 1970.
    pub time: u32,
    pub seq: u16,
}

/// There is no pair above the last one, which is the last of all.
#[derive(Clone, Copy, Debug, Drop, Eq, PartialEq)]
pub struct Exhausted {
    /// The time and the sequence number.
    pub last: (u32, u16),
}

impl Generator {
    ghost use Rattle.pending_core.specs.Draw.{draw, generator_at, raised_to};

    /// Draws the next time and sequence number at the time `now`, in seconds since 1970: `now` with
    /// sequence number 0 where that is later, else the next sequence number, and after the last one
    /// of a second the first one of the next.
    pub fn next(&mut self, now: u32) -> Result<(u32, u16), Exhausted>
        ensures drawn { MatchResult result (λ pair. (draw self.old now ≡ Some pair) × (self.new ≡ generator_at pair)) (λ fault. (draw self.old now ≡ None) × (fault.last ≡ record { 0 = self.old.time; 1 = self.old.seq })) }

        // It is exhausted exactly at the last pair, and stays there.
        ensures exhausted { (draw self.old now ≡ None) ↔ ((self.old.time ≡ 4294967295) × (self.old.seq ≡ 65535)) }
        ensures err { OnErr result (self.new ≡ self.old) }
    {
        let (time, seq) = if now > self.time {
            (now, 0)
        } else if self.seq < u16::MAX {
            (self.time, self.seq + 1)
        } else if self.time < u32::MAX {
            (self.time + 1, 0)
        } else {
            return Err(Exhausted {
                last: (self.time, self.seq),
            });
        };
        self.time = time;
        self.seq = seq;
        Ok((time, seq))
    }

    /// Raises to at least the time and sequence number of the CSN.
    pub fn raise(&mut self, csn: Csn)
        ensures { self.new ≡ raised_to self.old csn }
    {
        if self.time < csn.time || self.time == csn.time && self.seq < csn.seq {
            self.time = csn.time;
            self.seq = csn.seq;
        }
    }
}

/// What draws are to one another.
pub fn draw_laws()
    // A pair that is drawn is after the last one.
    ensures rises { (last : Generator) (now : ℕ) (pair : ℕ × ℕ) → draw last now ≡ Some pair → is_before last (generator_at pair) ≡ true }

    // CSNs of two pairs are in the order of the pairs.
    ensures csns { (a b : Csn) → is_before (generator_at (a.time, a.seq)) (generator_at (b.time, b.seq)) ≡ true → csn_lt a b ≡ true }
{}
