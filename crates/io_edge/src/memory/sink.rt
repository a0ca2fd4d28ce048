//! A sink in memory where some calls fail.

ghost use Rattle.std.specs.Prelude.{◌≡◌, ⊤, [], IsErr, OnErr, OnOk, Some};
ghost use Rattle.io_edge.specs.Causes.{HasCause};
ghost use Rattle.io_edge.specs.Memory.{KeepsFront, NextFails, after_write, empty_sink};

use crate::edge::{Failed, Sink};
use std::alloc::Global;
use std::marker::Model;

/// Memory to write to, where some calls fail.
///
/// It holds the numbers, counted from 1, of the write calls that are to fail, and how many bytes of
/// its piece such a call still takes. A call also fails where there is no memory for its piece, and
/// then it takes nothing.
#[derive(Debug, Drop)]
pub struct MemSink<'a> {
    written: Vec<u8>,
    kept: usize,
    failing: &'a [u64],
    calls: u64,
    faults: u64,
}

impl<'a> Model for MemSink<'a> {
    ghost use Rattle.io_edge.specs.Memory.{SinkState};

    ghost Value = { SinkState };

    ghost view = { λ s. record {
      written = s.written.items;
      kept = s.kept;
      failing = s.failing.now;
      calls = s.calls;
      faults = s.faults;
    } };
}

impl<'a> MemSink<'a> {
    /// An empty sink, in which the calls with these numbers fail and take nothing. Takes no memory.
    pub fn new(alloc: Global, failing: &'a [u64]) -> MemSink<'a>
        ensures { result ≡ empty_sink failing.now 0 }
    {
        MemSink::keeping(alloc, failing, 0)
    }

    /// The same, where a call that fails still takes the first `kept` bytes. Takes no memory.
    pub fn keeping(alloc: Global, failing: &'a [u64], kept: usize) -> MemSink<'a>
        ensures { result ≡ empty_sink failing.now kept }
    {
        MemSink {
            written: Vec::new(alloc),
            kept,
            failing,
            calls: 0,
            faults: 0,
        }
    }

    /// The bytes that were written.
    pub fn written(&self) -> &[u8]
        ensures { result.now ≡ self.now.written }
    {
        self.written.as_slice()
    }

    /// How many write calls failed.
    pub fn faults(&self) -> u64
        ensures { result ≡ self.now.faults }
    {
        self.faults
    }
}

impl Sink for MemSink<'_> {
    ghost contents = { λ s. Some s.written };

    ghost faults = { λ s. s.faults };

    ghost Apart = { ⊤ };

    ghost apart = { λ _. tt };

    /// Fails in the calls whose numbers are listed, and where there is no memory for the piece. The
    /// list is looked through in each call.
    fn write(&mut self, bytes: &[u8]) -> Result<(), Failed>
        ensures failing { NextFails self.old.failing self.old.calls → IsErr result }
        ensures ok { OnOk result (self.new ≡ after_write self.old bytes.now) }
        ensures err { OnErr result (KeepsFront self.old self.new bytes.now) }
        ensures cause { HasCause self.old.faults self.new.faults result }
    {
        self.calls = self.calls.saturating_add(1);
        if self.failing.contains(&self.calls) {
            self.faults = self.faults.saturating_add(1);
            let kept = self.kept.min(bytes.len());
            // Where there is no memory for them, none is kept.
            let _ = self.written.extend_from_slice(&bytes[..kept]);
            return Err(Failed);
        }
        if self.written.extend_from_slice(bytes).is_err() {
            self.faults = self.faults.saturating_add(1);
            return Err(Failed);
        }
        Ok(())
    }
}
