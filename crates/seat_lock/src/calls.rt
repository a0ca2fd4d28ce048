// The calls of the lock.
ghost use Rattle.std.specs.Prelude.{◌≡◌, ◌⊎◌, ℕ, ◌+◌, ◌<◌, ◌≤◌, List, [], ◌∷◌, ◌++◌, length, true, false, Some, IfOk, IfErr};
ghost use Rattle.seat_lock.specs.Counts.{count_up};
ghost use Rattle.seat_lock.specs.Histories.{GoesOn, NamesOnly};
ghost use Rattle.seat_lock.specs.Turns.{but_last, last_alone};
ghost use Rattle.seat_lock.specs.Seats.{seen, numbers, is_joined, own, fixed, seats_of, IsOf, IsIdle, HasTurn, IsSame};

use crate::lock::SeatLock;
use crate::rule::{Cut, Draw, Glue, HasHistory, PassOn, See, Setup};
use crate::seat::{Seat, SeatOf};
use crate::sleep::Places;
use crate::wait::wait;
use atomic_table::{Refused, Table};
use std::alloc::{AllocFailed, Global};
use std::snapshot::Snapshot;
use std::sync::Wait;

/// There was no memory.
#[derive(Debug, Drop)]
pub struct NoMemory;

fn lesser(a: u32, b: u32) -> u32
    ensures below { (result ≤ a) × (result ≤ b) }
    ensures one { (result ≡ a) ⊎ (result ≡ b) }
{
    if a < b { a } else { b }
}

// A list of one value.
fn alone<T>(alloc: Global, value: T) -> Result<Vec<Option<T>, Global>, T>
    ensures ok { IfOk result (λ list. list.items ≡ Some value ∷ []) }
    ensures err { IfErr result (λ back. back ≡ value) }
{
    let mut list = Vec::new(alloc);
    match list.push(Some(value)) {
        Ok(()) => Ok(list),
        Err(AllocFailed { value }) => {
            list.destroy_empty();
            let Some(value) = value else { unreachable!() };
            Err(value)
        }
    }
}

// The value of a list of one.
fn only<T>(mut list: Vec<Option<T>, Global>) -> T
    requires { (value : T) × (list.items ≡ Some value ∷ []) }
    ensures { list.items ≡ Some result ∷ [] }
{
    let Some(Some(value)) = list.pop() else {
        unreachable!()
    };
    list.destroy_empty();
    value
}

impl<T: HasHistory> SeatLock<T> {
    /// A lock for so many seats, and the one seat, which has all the numbers below that.
    ///
    /// Where there is no memory the value comes back.
    #[tactic(auto, using(crate::proofs::Counting::count_up_length))]
    pub fn new(alloc: Global, value: T, seats: u32) -> Result<(SeatLock<T>, Seat<T>), (NoMemory, T)>
        requires some_seat { 0 < seats }
        requires blank { T.history value ≡ [] }
        ensures seat { IfOk result (λ r. IsOf r.0 r.1 × IsIdle r.1 × (numbers r.1 ≡ count_up 0 seats) × (seen r.1 ≡ []) × (is_joined r.1 ≡ false)) }
        ensures count { IfOk result (λ r. length (numbers r.1) ≡ seats) }
        ensures number { IfOk result (λ r. r.1.number ≡ 0) }
        ensures fixed { IfOk result (λ r. fixed r.1 ≡ Some (T.fixed value)) }
        ensures lock { IfOk result (λ r. seats_of r.0 ≡ seats) }
        ensures err { IfErr result (λ e. e.1 ≡ value) }
    {
        let about = Setup {
            seats,
            value: Snapshot::of(&value),
        };
        let slots = match alone(alloc, value) {
            Ok(slots) => slots,
            Err(value) => return Err((NoMemory, value)),
        };
        match Table::new(alloc, &[0, 0], slots, &about) {
            Ok((table, place)) => {
                let seat = SeatOf {
                    place,
                    number: 0,
                    count: seats,
                };
                let lock = SeatLock {
                    table,
                    places: Places::new(),
                };
                Ok((lock, seat))
            }
            Err(Refused { slots }) => Err((NoMemory, only(slots))),
        }
    }

    /// Draws a turn, waits until it is served, and gives the value. Its history is what this seat had seen, and then
    /// entries of others.
    ///
    /// Who draws first is served first. Where nobody else wants a turn it costs two atomic steps; a thread that waits
    /// looks a few times and then sleeps, until its turn is passed to it.
    pub fn turn<R: Wait>(&self, rt: &R, seat: &mut Seat<T>) -> T
        requires mine { IsOf self.now seat.old }
        requires idle { IsIdle seat.old }
        ensures same { IsSame seat.old seat.new }
        ensures turn { HasTurn seat.new }
        ensures seen { seen seat.new ≡ T.history result }
        ensures fixed { fixed seat.old ≡ Some (T.fixed result) }
        ensures later { GoesOn T.number (numbers seat.old) (seen seat.old) (T.history result) }
    {
        let turn = self.table.shared.fetch_add::<Draw>(&mut seat.place, 0, 1);
        wait(
            rt,
            &self.table.shared,
            self.places.of(turn),
            &mut seat.place,
            turn,
        );
        let Some(value) = self.table.shared.exchange(&mut seat.place, 0, None) else {
            unreachable!()
        };
        value
    }

    /// Hands the value back, and passes the turn on. What was added to its history names this seat.
    ///
    /// It costs one atomic step and one look, and a call of the system only where somebody sleeps who may be next.
    pub fn hand_back(&self, seat: &mut Seat<T>, value: T)
        requires mine { IsOf self.now seat.old }
        requires turn { HasTurn seat.old }
        requires fixed { fixed seat.old ≡ Some (T.fixed value) }
        requires history { (es : List T.Entry) × (T.history value ≡ seen seat.old ++ es) × NamesOnly T.number seat.old.number es }
        ensures same { IsSame seat.old seat.new }
        ensures idle { IsIdle seat.new }
        ensures seen { seen seat.new ≡ T.history value }
    {
        let left = self.table.shared.exchange(&mut seat.place, 0, Some(value));
        let None = left else { unreachable!() };
        let served = self.table.shared.fetch_add::<PassOn>(&mut seat.place, 1, 1);
        self.places.of(served.wrapping_add(1)).wake();
    }

    /// Gives the seat's greatest number to a new seat. Both have then seen the history so far; the entries of the one stay
    /// its own, and the other has none.
    ///
    /// It costs two atomic steps, and waits for nobody.
    pub fn split(&self, seat: &mut Seat<T>) -> Seat<T>
        requires mine { IsOf self.now seat.old }
        requires idle { IsIdle seat.old }
        requires plain { is_joined seat.old ≡ false }
        requires two { 2 ≤ length (numbers seat.old) }
        ensures mine { IsOf self.now seat.new × IsOf self.now result }
        ensures idle { IsIdle seat.new × IsIdle result }
        ensures numbers { (numbers seat.new ≡ but_last (numbers seat.old)) × (numbers result ≡ last_alone (numbers seat.old)) }
        ensures counts { (length (numbers seat.new) + 1 ≡ length (numbers seat.old)) × (length (numbers result) ≡ 1) }
        ensures plain { (is_joined seat.new ≡ false) × (is_joined result ≡ false) }
        ensures number { seat.new.number ≡ seat.old.number }
        ensures fixed { (fixed seat.new ≡ fixed seat.old) × (fixed result ≡ fixed seat.old) }
        ensures seen { seen result ≡ seen seat.new }
        ensures later { GoesOn T.number (numbers seat.old) (seen seat.old) (seen seat.new) }
        ensures own { (own T.number seat.new ≡ own T.number seat.old) × (own T.number result ≡ []) }
    {
        self.table.shared.load::<See>(&mut seat.place, 1);
        let place = self.table.shared.split_seat::<Cut>(&mut seat.place);
        let count = seat.count - 1;
        seat.count = count;
        SeatOf {
            place,
            number: seat.number + count,
            count: 1,
        }
    }

    /// Hands all numbers of a seat to another, which has then seen the history so far: it goes on from what either of the
    /// two had seen, by entries of others. So the entries of both are in it, in their order.
    ///
    /// It costs two atomic steps, and waits for nobody. A seat to which another was joined can't be split.
    pub fn join(&self, seat: Seat<T>, into: &mut Seat<T>)
        requires mine { IsOf self.now seat × IsOf self.now into.old }
        requires idle { IsIdle seat × IsIdle into.old }
        ensures mine { IsOf self.now into.new }
        ensures idle { IsIdle into.new }
        ensures numbers { numbers into.new ≡ numbers into.old ++ numbers seat }
        ensures joined { is_joined into.new ≡ true }
        ensures number { (into.new.number ≤ into.old.number) × (into.new.number ≤ seat.number) }
        ensures fixed { fixed into.new ≡ fixed into.old }
        ensures this { GoesOn T.number (numbers into.old) (seen into.old) (seen into.new) }
        ensures that { GoesOn T.number (numbers seat) (seen seat) (seen into.new) }
    {
        let SeatOf {
            place,
            number,
            count: _,
        } = seat;
        self.table.shared.join_seat::<Glue>(&mut into.place, place);
        self.table.shared.load::<See>(&mut into.place, 1);
        into.number = lesser(into.number, number);
    }

    /// Ends the lock and gives the value back, with the seat that has all numbers. That has seen the whole history, and all
    /// entries are its own.
    pub fn close(self, seat: Seat<T>) -> T
        requires mine { IsOf self seat }
        requires idle { IsIdle seat }
        requires all { length (numbers seat) ≡ seats_of self }
        ensures history { T.history result ≡ seen seat }
        ensures own { own T.number seat ≡ T.history result }
        ensures fixed { fixed seat ≡ Some (T.fixed result) }
    {
        let SeatOf {
            place,
            number: _,
            count: _,
        } = seat;
        let SeatLock { table, places: _ } = self;
        let mut closed = table.close_with(place);
        let Some(value) = closed.take(0) else {
            unreachable!()
        };
        closed.free();
        value
    }
}
