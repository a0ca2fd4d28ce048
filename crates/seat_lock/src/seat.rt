// A right to take turns.
ghost use Rattle.std.specs.Prelude.{◌≡◌, false};
ghost use Rattle.seat_lock.specs.Histories.{IsLeast, IsRow};

use crate::rule::HasHistory;
use crate::view::View;

/// A right to take turns at a lock, under the numbers that it has.
pub type Seat<T> = SeatOf<T, <T as HasHistory>::Entry, <T as HasHistory>::Fixed>;

/// It stands apart from its alias, since a struct can't have a field whose type rests on a bound
/// that only a generic `impl` meets.
#[derive(Drop)]
pub struct SeatOf<T, E, G> {
    pub(crate) place: atomic_table::Seat<Option<T>, View<E, G>>,
    pub(crate) number: u32,
    pub(crate) count: u32,
    ghost least: { IsLeast number place.me.0.numbers },
    ghost row: { place.me.0.joined ≡ false → IsRow number count place.me.0.numbers },
}

impl<T, E, G> SeatOf<T, E, G> {
    /// The least of the seat's numbers, under which its entries stand.
    pub fn number(&self) -> u32
        ensures { result ≡ self.now.number }
    {
        self.number
    }
}
