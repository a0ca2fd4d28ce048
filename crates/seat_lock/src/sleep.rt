// Where waiting threads sleep. Nothing here is known to the rule of the lock: a thread that wakes looks again.
use std::sync::Wait;
use std::sync::atomic::{AtomicU64, Ordering};

/// A place at which those threads sleep whose turns leave the same rest when divided by the number of places.
#[derive(Drop)]
pub(crate) struct Place {
    sleepers: AtomicU64,
    wakes: AtomicU64,
}

impl Place {
    pub(crate) fn new() -> Place {
        Place {
            sleepers: AtomicU64::new(0),
            wakes: AtomicU64::new(0),
        }
    }

    /// How often those who sleep here were woken. A thread asks before it looks for the last time.
    pub(crate) fn wakes(&self) -> u64 {
        self.wakes.load(Ordering::SeqCst)
    }

    /// Says that a thread is about to sleep here. It looks once more before it does.
    pub(crate) fn enter(&self) {
        self.sleepers.fetch_add(1, Ordering::SeqCst);
    }

    pub(crate) fn leave(&self) {
        self.sleepers.fetch_sub(1, Ordering::SeqCst);
    }

    /// Sleeps until the next wake after those that were counted.
    pub(crate) fn sleep<R: Wait>(&self, rt: &R, wakes: u64) {
        self.wakes.park(rt, (wakes % (1 << 32)) as u32);
    }

    /// Wakes those who sleep here. Where nobody does, it costs one look.
    pub(crate) fn wake(&self) {
        if self.sleepers.load(Ordering::SeqCst) != 0 {
            self.wakes.fetch_add(1, Ordering::SeqCst);
            self.wakes.wake_all();
        }
    }
}

#[derive(Drop)]
pub(crate) struct Places {
    all: [Place; 8],
}

impl Places {
    pub(crate) fn new() -> Places {
        Places {
            all: [
                Place::new(),
                Place::new(),
                Place::new(),
                Place::new(),
                Place::new(),
                Place::new(),
                Place::new(),
                Place::new(),
            ],
        }
    }

    /// The place of whoever waits for this turn.
    pub(crate) fn of(&self, turn: u64) -> &Place {
        &self.all[(turn % self.all.len() as u64) as usize]
    }
}
