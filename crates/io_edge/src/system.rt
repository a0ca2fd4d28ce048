//! The system's clock.

ghost use Rattle.std.specs.Prelude.{None};

use crate::clock::Clock;
use std::time;

/// The clock of the system: `SystemClock::new(&rt)`. It tells no contract its time.
#[derive(Clone, Copy, Debug, Drop)]
pub struct SystemClock<R> {
    system: R,
}

impl<R> SystemClock<R> {
    /// The clock of this runtime.
    pub fn new(system: R) -> SystemClock<R> {
        SystemClock { system }
    }
}

impl<R: time::Clock> Clock for SystemClock<R> {
    ghost tells = { λ _. None };

    /// The seconds since 1970, at most `u32::MAX`; 0 where the system tells none, as before 1970.
    fn now(&self) -> u32 {
        match self.system.since_1970() {
            Ok(since) => u32::try_from(since.as_secs()).unwrap_or(u32::MAX),
            Err(_error) => 0,
        }
    }
}
