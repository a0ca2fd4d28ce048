//! Threads take turns at one lock, and each writes a line in each of its turns; what the history came to is printed.
//! With the words `lock THREADS TURNS` or `mutex THREADS TURNS` the threads only take their turns, to be measured.
#![tactic(auto)]

mod notes;
mod plain;
mod work;

use notes::is_whole;
use plain::take_plain_turns;
use std::alloc::{AllocError, Global};
use std::sync::Wait;
use std::thread::Threads;
use std::{env, io};
use work::{Task, take_turns};

/// How many turns each thread of a case takes.
const TURNS: u32 = 10_000;

/// Lets so many threads write, and prints what came of it.
fn show<R: Threads + Wait + Sync + Print>(rt: &R, alloc: Global, threads: u32) -> io::Result<()> {
    let Ok(notes) = take_turns(rt, alloc, threads, TURNS, Task::Write) else {
        return Err(AllocError.into());
    };
    let entries = notes.lines.len();
    let order = if is_whole(alloc, &notes, threads, TURNS)? {
        "each once, those of each seat in their order"
    } else {
        "which are not those that were written"
    };
    println!(rt; "{threads} threads, {TURNS} turns each: {entries} entries, {order}")
}

/// Takes turns without a line, at the lock of seats or at a mutex.
fn measure<R: Threads + Wait + Sync>(
    rt: &R,
    alloc: Global,
    lock: &str,
    threads: u32,
    turns: u32,
) -> io::Result<()> {
    if lock == "mutex" {
        return Ok(take_plain_turns(rt, alloc, threads, turns)?);
    }
    match take_turns(rt, alloc, threads, turns, Task::Nothing) {
        Ok(_) => Ok(()),
        Err(_) => Err(AllocError.into()),
    }
}

fn main(rt: HostRuntime) -> io::Result<()> {
    let words: Vec<String> = env::args(&rt)?.skip(1).collect(rt.alloc())?;
    if let [lock, threads, turns] = words.as_slice() {
        let threads = threads.parse::<u32>().unwrap_or(1);
        let turns = turns.parse::<u32>().unwrap_or(0);
        return measure(&rt, rt.alloc(), lock.as_str(), threads, turns);
    }
    show(&rt, rt.alloc(), 2)?;
    show(&rt, rt.alloc(), 4)
}
