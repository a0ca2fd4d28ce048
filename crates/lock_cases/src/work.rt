// Turns at the lock of seats: seats for so many threads, their turns, and the seats in one again.
ghost use Rattle.std.specs.Prelude.{◌≡◌, ℕ, ◌<◌, All, false, length, IfOk, IfSome, IfNone, vec_len};
ghost use Rattle.seat_lock.specs.Seats.{numbers, is_joined, IsOf, IsIdle};
ghost use Rattle.lock_cases.specs.Ready.{IsReady};

use crate::notes::{Line, Notes};
use seat_lock::{NoMemory, Seat, SeatLock};
use std::alloc::{AllocError, Global};
use std::sync::Wait;
use std::thread;
use std::thread::Threads;

/// What is done in a turn.
#[derive(Clone, Copy)]
pub enum Task {
    Nothing,
    Write,
}

fn take_turn<R: Wait>(
    rt: &R,
    lock: &SeatLock<Notes>,
    seat: &mut Seat<Notes>,
    task: Task,
    number: u32,
)
    requires { IsReady lock.now seat.old }
    ensures { IsReady lock.now seat.new }
{
    let mut notes = lock.turn(rt, seat);
    if let Task::Write = task {
        let line = Line {
            seat: seat.number(),
            number,
        };
        // A line that there is no memory for is missed in the end.
        let _ = notes.lines.push(line);
    }
    lock.hand_back(seat, notes);
}

fn take_one_by_one<R: Wait>(
    rt: &R,
    lock: &SeatLock<Notes>,
    seat: &mut Seat<Notes>,
    task: Task,
    turns: u32,
)
    requires { IsReady lock.now seat.old }
    ensures { IsReady lock.now seat.new }
{
    for number in 0..turns {
        take_turn(rt, lock, seat, task, number);
    }
}

/// Each seat takes its turns in a thread of its own, where one can be made.
fn take_all<R: Threads + Wait + Sync>(
    rt: &R,
    lock: &SeatLock<Notes>,
    seats: &mut [Seat<Notes>],
    task: Task,
    turns: u32,
)
    requires { All (IsReady lock.now) seats.old }
    ensures ready { All (IsReady lock.now) seats.new }
    ensures count { length seats.new ≡ length seats.old }
{
    let threads = seats.len();
    if threads == 0 {
        return;
    }
    thread::for_each_mut(
        rt,
        seats,
        threads,
        &|_, seat| take_one_by_one(rt, lock, seat, task, turns),
    );
}

/// A seat for each of the numbers of this one.
fn seats_of(
    alloc: Global,
    lock: &SeatLock<Notes>,
    mut first: Seat<Notes>,
    count: u32,
) -> Result<Vec<Seat<Notes>>, AllocError>
    requires ready { IsOf lock.now first × IsIdle first }
    requires plain { is_joined first ≡ false }
    requires count { (0 < count) × (length (numbers first) ≡ count) }
    ensures ready { IfOk result (λ v. All (IsReady lock.now) v.items) }
    ensures count { IfOk result (λ v. vec_len v ≡ count) }
{
    let mut seats = Vec::new(alloc);
    for _ in 1..count {
        let other = lock.split(&mut first);
        seats.push(other)?;
    }
    seats.push(first)?;
    Ok(seats)
}

/// All seats in one.
fn joined(lock: &SeatLock<Notes>, mut seats: Vec<Seat<Notes>>) -> Option<Seat<Notes>>
    requires { All (IsReady lock.now) seats.items }
    ensures some { IfSome result (λ s. IsOf lock.now s × IsIdle s × (length (numbers s) ≡ vec_len seats)) }
    ensures none { IfNone result (vec_len seats ≡ 0) }
{
    let mut whole = seats.pop()?;
    while let Some(seat) = seats.pop() {
        lock.join(seat, &mut whole);
    }
    Some(whole)
}

/// All seats take their turns, and are then one.
fn worked<R: Threads + Wait + Sync>(
    rt: &R,
    lock: &SeatLock<Notes>,
    mut seats: Vec<Seat<Notes>>,
    task: Task,
    turns: u32,
) -> Option<Seat<Notes>>
    requires { All (IsReady lock.now) seats.items }
    ensures some { IfSome result (λ s. IsOf lock.now s × IsIdle s × (length (numbers s) ≡ vec_len seats)) }
    ensures none { IfNone result (vec_len seats ≡ 0) }
{
    take_all(rt, lock, seats.as_mut_slice(), task, turns);
    joined(lock, seats)
}

/// So many threads take turns at one lock, each so many of them. Gives what lay under the lock.
pub fn take_turns<R: Threads + Wait + Sync>(
    rt: &R,
    alloc: Global,
    threads: u32,
    turns: u32,
    task: Task,
) -> Result<Notes, NoMemory> {
    let notes = Notes {
        lines: Vec::new(alloc),
    };
    if threads == 0 {
        return Ok(notes);
    }
    let (lock, first) = match SeatLock::new(alloc, notes, threads) {
        Ok(made) => made,
        Err((none, _)) => return Err(none),
    };
    let Ok(seats) = seats_of(alloc, &lock, first, threads) else {
        return Err(NoMemory);
    };
    let Some(whole) = worked(rt, &lock, seats, task, turns) else {
        return Err(NoMemory);
    };
    Ok(lock.close(whole))
}
