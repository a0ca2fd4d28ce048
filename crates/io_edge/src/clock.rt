//! What tells the time.

ghost use Rattle.std.specs.Prelude.{◌≡◌, ℕ, Option, Some, IfSome};

/// What tells the time.
pub trait Clock {
    /// The time that it tells, where that is known.
    ghost tells: { Self → Option ℕ };

    /// The seconds since 1970.
    fn now(&self) -> u32
        ensures { IfSome (tells self.now) (λ time. result ≡ time) };
}

/// A clock that stands still until it is set.
#[derive(Clone, Copy, Debug, Drop)]
pub struct SetClock {
    time: u32,
}

impl SetClock {
    /// A clock at this time, in seconds since 1970.
    pub fn new(time: u32) -> SetClock
        ensures { result.time ≡ time }
    {
        SetClock { time }
    }

    /// Sets it to this time, in seconds since 1970.
    pub fn set(&mut self, time: u32)
        ensures { self.new.time ≡ time }
    {
        self.time = time;
    }
}

impl Clock for SetClock {
    ghost tells = { λ clock. Some clock.time };

    fn now(&self) -> u32
        ensures { result ≡ self.now.time }
    {
        self.time
    }
}
