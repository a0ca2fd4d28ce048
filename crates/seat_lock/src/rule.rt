// The rule, and what each step tells.
use crate::view::View;
use atomic_table::{Join, Play, Split, TableRule};
use std::snapshot::Snapshot;

/// A value that tells its history, a list of entries that each name a number. Nothing of it is kept for the lock's sake:
/// the three functions are for contracts alone.
pub trait HasHistory {
    ghost use Rattle.std.specs.Prelude.{ℕ, List};

    type Entry;

    ghost history: { Self → List Self.Entry };

    ghost number: { Self.Entry → ℕ };

    type Fixed;

    /// What of the value never changes.
    ghost fixed: { Self → Self.Fixed };
}

/// What the rule is told when the lock is made.
#[derive(Drop)]
pub struct Setup<T> {
    pub seats: u32,
    pub value: Snapshot<T>,
}

pub struct Turns;

impl<T: HasHistory> TableRule<Option<T>, View<T::Entry, T::Fixed>, Setup<T>> for Turns {
    ghost use Rattle.seat_lock.specs.Turns.{Kept, first_view};

    ghost holds = { λ key. Kept T.history T.number T.fixed key.seats };

    ghost first = { λ key. first_view key.seats (T.fixed key.value.value) };
}

pub(crate) struct Draw;

impl<T: HasHistory> Play<Option<T>, View<T::Entry, T::Fixed>> for Draw {
    ghost use Rattle.seat_lock.specs.Turns.{draws};

    ghost then = { draws T.history T.number T.fixed };
}

pub(crate) struct Look;

impl<T: HasHistory> Play<Option<T>, View<T::Entry, T::Fixed>> for Look {
    ghost use Rattle.seat_lock.specs.Turns.{looks};

    ghost then = { looks T.history T.number T.fixed };
}

pub(crate) struct PassOn;

impl<T: HasHistory> Play<Option<T>, View<T::Entry, T::Fixed>> for PassOn {
    ghost use Rattle.seat_lock.specs.Turns.{passes};

    ghost then = { passes T.history T.number T.fixed };
}

pub(crate) struct See;

impl<T: HasHistory> Play<Option<T>, View<T::Entry, T::Fixed>> for See {
    ghost use Rattle.seat_lock.specs.Turns.{sees};

    ghost then = { sees T.history T.number T.fixed };
}

pub(crate) struct Cut;

impl<E, G> Split<View<E, G>> for Cut {
    ghost use Rattle.seat_lock.specs.Turns.{kept_view, given_view};

    ghost left = { kept_view };

    ghost right = { given_view };
}

pub(crate) struct Glue;

impl<E, G> Join<View<E, G>> for Glue {
    ghost use Rattle.seat_lock.specs.Turns.{both_views, spent_view};

    ghost both = { both_views };

    ghost spent = { spent_view };
}
