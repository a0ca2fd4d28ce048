//! How many streams were served.

ghost use Rattle.std.specs.Prelude.{◌≡◌, ◌+◌, ◌-◌, ◌^◌, min};
ghost use Rattle.io_edge.specs.Causes.{next_count};

use std::marker::{Model, PhantomData};

/// How many streams of this type were served. The count stands still at `u64::MAX`.
#[derive(Drop)]
pub struct Tally<T> {
    served: u64,
    of: PhantomData<T>,
}

impl<T> Model for Tally<T> {
    ghost use Rattle.std.specs.Prelude.{ℕ};

    ghost Value = { ℕ };

    ghost view = { λ t. t.served };
}

impl<T> Tally<T> {
    /// None was served.
    pub fn new() -> Tally<T>
        ensures { result ≡ 0 }
    {
        Tally {
            served: 0,
            of: PhantomData,
        }
    }

    /// How many were served, at most `u64::MAX`.
    pub fn count(&self) -> u64
        ensures { result ≡ self.now }
    {
        self.served
    }

    /// Adds those of another tally.
    pub fn join(&mut self, other: Tally<T>)
        ensures { self.new ≡ min (self.old + other) (2 ^ 64 - 1) }
    {
        self.served = self.served.saturating_add(other.served);
    }

    /// Counts one more.
    pub(crate) fn raise(&mut self)
        ensures { self.new ≡ next_count self.old }
    {
        self.served = self.served.saturating_add(1);
    }
}
