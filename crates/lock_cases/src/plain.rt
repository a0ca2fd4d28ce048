// Turns at a mutex of the standard library, to measure beside.
use crate::notes::Notes;
use std::alloc::{AllocError, Global};
use std::sync::{Mutex, Wait};
use std::thread;
use std::thread::Threads;

/// Takes the mutex and lets it go, so many times.
fn take_one_by_one<R: Wait>(rt: &R, notes: &Mutex<Notes>, turns: u32) {
    for _ in 0..turns {
        let _held = notes.lock(rt);
    }
}

/// So many threads take a mutex, each so many times.
pub fn take_plain_turns<R: Threads + Wait + Sync>(
    rt: &R,
    alloc: Global,
    threads: u32,
    turns: u32,
) -> Result<(), AllocError> {
    let notes = Mutex::new(Notes {
        lines: Vec::new(alloc),
    });
    let mut left: Vec<u32> = vec![in alloc; turns; threads as usize]?;
    if threads > 0 {
        thread::for_each_mut(
            rt,
            left.as_mut_slice(),
            threads as usize,
            &|_, turns| take_one_by_one(rt, &notes, *turns),
        );
    }
    Ok(())
}
