//! A dialer in memory, with streams that were prepared.

ghost use Rattle.std.specs.Prelude.{◌≡◌, Ok, Err, Some, None, drop, MatchResult};
ghost use Rattle.io_edge.specs.Causes.{HasCause, next_count};
ghost use Rattle.io_edge.specs.Doors.{dialer_of, next_stream, after_dial, after_failed_dial};

use crate::door::Dialer;
use crate::edge::Failed;
use crate::stream::Stream;
use std::marker::Model;

/// A dialer in memory that hands out prepared streams, whichever node is dialled. Where none is left, a
/// call fails.
#[derive(Debug, Drop)]
pub struct MemDialer<S> {
    streams: Vec<S>,
    calls: u64,
    faults: u64,
}

impl<S> Model for MemDialer<S> {
    ghost use Rattle.io_edge.specs.Doors.{DialerState};

    ghost Value = { DialerState S };

    ghost view = { λ d. record {
      streams = d.streams.items;
      calls = d.calls;
      faults = d.faults;
    } };
}

impl<S> MemDialer<S> {
    /// A dialer that hands out these streams, the first one first. Takes no memory.
    pub fn new(streams: Vec<S>) -> MemDialer<S>
        ensures { result ≡ dialer_of streams.items }
    {
        MemDialer {
            streams,
            calls: 0,
            faults: 0,
        }
    }

    /// How often it was called.
    pub fn calls(&self) -> u64
        ensures { result ≡ self.now.calls }
    {
        self.calls
    }
}

impl<S: Stream + Drop> Dialer for MemDialer<S> {
    type S = S;

    ghost faults = { λ d. d.faults };

    ghost calls = { λ d. d.calls };

    /// Hands out the next stream, and fails exactly where none is left. The streams that are left move
    /// up.
    fn dial(&mut self, _rid: u16) -> Result<S, Failed>
        ensures next { MatchResult result (λ stream. next_stream self.old.streams ≡ Some stream) (λ _. next_stream self.old.streams ≡ None) }
        ensures left { MatchResult result (λ _. self.new ≡ after_dial self.old) (λ _. self.new ≡ after_failed_dial self.old) }
        ensures cause { HasCause self.old.faults self.new.faults result }
        ensures calls { self.new.calls ≡ next_count self.old.calls }
    {
        self.calls = self.calls.saturating_add(1);
        if self.streams.is_empty() {
            self.faults = self.faults.saturating_add(1);
            return Err(Failed);
        }
        Ok(self.streams.remove(0))
    }
}
