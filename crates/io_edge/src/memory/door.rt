//! A door in memory, where some calls fail.

ghost use Rattle.std.specs.Prelude.{◌≡◌, ◌<◌, ◌↔◌, [], None, IfOk, IsErr, OnErr, drop};
ghost use Rattle.io_edge.specs.Causes.{HasCause};
ghost use Rattle.io_edge.specs.Memory.{NextFails};
ghost use Rattle.io_edge.specs.Doors.{after_accept, after_failed_accept, door_of, handed_after, next_stream, nones_after};

use crate::door::Acceptor;
use crate::edge::Failed;
use crate::stream::Stream;
use std::marker::Model;

/// A door in memory that hands out prepared streams, and is closed when none is left.
///
/// It holds the numbers, counted from 1, of the calls that are to fail. A call that fails hands nothing
/// out, so the stream comes with the next one.
#[derive(Debug, Drop)]
pub struct MemDoor<'a, S> {
    streams: Vec<S>,
    failing: &'a [u64],
    calls: u64,
    faults: u64,
    handed: u64,
    nones: u64,
}

impl<'a, S> Model for MemDoor<'a, S> {
    ghost use Rattle.std.specs.Prelude.{◌≡◌, ◌<◌, []};
    ghost use Rattle.io_edge.specs.Doors.{DoorState};

    ghost Value = { DoorState S };

    ghost view = { λ d. record {
      streams = d.streams.items;
      failing = d.failing.now;
      calls = d.calls;
      faults = d.faults;
      handed = d.handed;
      nones = d.nones;
    } };

    ghost invariant = { λ d. 0 < d.nones → d.streams.items ≡ [] };
}

impl<'a, S> MemDoor<'a, S> {
    /// A door that hands out these streams, the first one first, in which the calls with these numbers
    /// fail. Takes no memory.
    pub fn new(streams: Vec<S>, failing: &'a [u64]) -> MemDoor<'a, S>
        ensures { result ≡ door_of streams.items failing.now }
    {
        MemDoor {
            streams,
            failing,
            calls: 0,
            faults: 0,
            handed: 0,
            nones: 0,
        }
    }

    /// How often it answered `None`.
    pub fn nones(&self) -> u64
        ensures { result ≡ self.now.nones }
    {
        self.nones
    }
}

impl<S: Stream + Drop> Acceptor for MemDoor<'_, S> {
    type S = S;

    ghost faults = { λ d. d.faults };

    ghost handed = { λ d. d.handed };

    ghost nones = { λ d. d.nones };

    /// Fails exactly in the calls whose numbers are listed, and else hands out the next stream.
    /// The list is looked through in each call, and the streams that are left move up.
    fn accept(&mut self) -> Result<Option<S>, Failed>
        ensures failing { IsErr result ↔ NextFails self.old.failing self.old.calls }
        ensures next { IfOk result (λ stream. stream ≡ next_stream self.old.streams) }
        ensures ok { IfOk result (λ stream. self.new ≡ after_accept self.old stream) }
        ensures err { OnErr result (self.new ≡ after_failed_accept self.old) }
        ensures cause { HasCause self.old.faults self.new.faults result }
        ensures handed { self.new.handed ≡ handed_after self.old.handed result }
        ensures nones { self.new.nones ≡ nones_after self.old.nones result }
        ensures closed { 0 < self.old.nones → IfOk result (λ stream. stream ≡ None) }
    {
        self.calls = self.calls.saturating_add(1);
        if self.failing.contains(&self.calls) {
            self.faults = self.faults.saturating_add(1);
            return Err(Failed);
        }
        if self.streams.is_empty() {
            self.nones = self.nones.saturating_add(1);
            return Ok(None);
        }
        self.handed = self.handed.saturating_add(1);
        Ok(Some(self.streams.remove(0)))
    }
}
