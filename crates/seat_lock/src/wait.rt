// Waiting for a turn.
ghost use Rattle.std.specs.Prelude.{◌≡◌};
ghost use Rattle.seat_lock.specs.Turns.{IsSamePlace, HasDrawn, Gained};

use crate::rule::{HasHistory, Look, Setup, Turns};
use crate::sleep::Place;
use crate::view::View;
use atomic_table::{Seat, Shared};
use std::sync::Wait;
use std::thread;

/// How often a waiting thread looks before it sleeps.
const LOOKS: u32 = 64;

/// Waits until the turn is served, and takes the slot out. A thread that has looked often enough says so, looks once
/// more, and then sleeps until its place is woken.
pub(crate) fn wait<T: HasHistory, R: Wait>(
    rt: &R,
    table: &Shared<Option<T>, View<T::Entry, T::Fixed>, Setup<T>, Turns>,
    place: &Place,
    seat: &mut Seat<Option<T>, View<T::Entry, T::Fixed>>,
    turn: u64,
)
    requires table { (seat.old.table_id ≡ table.now.table_id) × (table.now.table_id.words ≡ 2) × (table.now.table_id.slots ≡ 1) }
    requires drawn { HasDrawn turn seat.old.me }
    ensures same { IsSamePlace seat.old seat.new }
    ensures gained { Gained T.history T.number T.fixed seat.old.me seat.new.me }
{
    let mut looks = 0;
    for _ in rt.forever() {
        let wakes = place.wakes();
        let serving = table.load::<Look>(seat, 1);
        if serving == turn {
            if looks > LOOKS {
                place.leave();
            }
            return;
        }
        if looks < LOOKS {
            looks += 1;
            thread::yield_now();
        } else if looks == LOOKS {
            looks += 1;
            place.enter();
        } else {
            place.sleep(rt, wakes);
        }
    }
    unreachable!()
}
