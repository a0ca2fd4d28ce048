//! A source in memory where some calls fail.

ghost use Rattle.std.specs.Prelude.{◌≡◌, ⊤, ◌<◌, ◌-◌, ◌^◌, ◌↔◌, ◌++◌, [], IfOk, IsErr, OnErr, Some, drop, length, take};
ghost use Rattle.io_edge.specs.Causes.{HasCause};
ghost use Rattle.io_edge.specs.Memory.{NextFails, after_failed_read, after_read, read_len, source_of};

use crate::bytes::copy_front;
use crate::edge::{Failed, Source};
use std::marker::Model;

/// Bytes in memory to read from, where some calls fail.
///
/// It holds the numbers, counted from 1, of the read calls that are to fail. A call that fails
/// hands over nothing, so the bytes come with the next one.
#[derive(Debug, Drop)]
pub struct MemSource<'a> {
    rest: &'a [u8],
    most: usize,
    failing: &'a [u64],
    calls: u64,
    faults: u64,
}

impl<'a> Model for MemSource<'a> {
    ghost use Rattle.std.specs.Prelude.{◌<◌};
    ghost use Rattle.io_edge.specs.Memory.{SourceState};

    ghost Value = { SourceState };

    ghost view = { λ s. record {
      left = s.rest.now;
      most = s.most;
      failing = s.failing.now;
      calls = s.calls;
      faults = s.faults;
    } };

    ghost invariant = { λ s. 0 < s.most };
}

impl<'a> MemSource<'a> {
    /// A source of these bytes, in which the calls with these numbers fail. Takes no memory.
    pub fn new(bytes: &'a [u8], failing: &'a [u64]) -> MemSource<'a>
        ensures { result ≡ source_of bytes.now failing.now usize.MAX }
    {
        MemSource::in_pieces(bytes, failing, usize::MAX)
    }

    /// The same, which hands over at most `most` bytes in one call. Takes no memory.
    pub fn in_pieces(bytes: &'a [u8], failing: &'a [u64], most: usize) -> MemSource<'a>
        requires { 0 < most }
        ensures { result ≡ source_of bytes.now failing.now most }
    {
        MemSource {
            rest: bytes,
            most,
            failing,
            calls: 0,
            faults: 0,
        }
    }

    /// The bytes that have not been read.
    pub fn left(&self) -> &'a [u8]
        ensures { result.now ≡ self.now.left }
    {
        self.rest
    }

    /// How many read calls failed.
    pub fn faults(&self) -> u64
        ensures { result ≡ self.now.faults }
    {
        self.faults
    }
}

impl Source for MemSource<'_> {
    ghost left = { λ s. Some s.left };

    ghost faults = { λ s. s.faults };

    ghost Apart = { ⊤ };

    ghost apart = { λ _. tt };

    /// Fails exactly in the calls whose numbers are listed, and else hands over as many bytes as
    /// are left, fit and may come at once. The list is looked through in each call.
    fn read(&mut self, buf: &mut [u8]) -> Result<usize, Failed>
        ensures failing { IsErr result ↔ NextFails self.old.failing self.old.calls }
        ensures count { IfOk result (λ n. n ≡ read_len self.old (length buf.old)) }
        ensures end { IfOk result (λ n. n ≡ 0 → 0 < length buf.old → self.old.left ≡ []) }
        ensures read { IfOk result (λ n. buf.new ≡ take n self.old.left ++ drop n buf.old) }
        ensures ok { IfOk result (λ n. self.new ≡ after_read self.old n) }
        ensures err { OnErr result (self.new ≡ after_failed_read self.old) }
        ensures cause { HasCause self.old.faults self.new.faults result }
    {
        self.calls = self.calls.saturating_add(1);
        if self.failing.contains(&self.calls) {
            self.faults = self.faults.saturating_add(1);
            return Err(Failed);
        }
        let count = self.rest.len().min(self.most).min(buf.len());
        copy_front(self.rest, count, buf);
        self.rest = &self.rest[count..];
        Ok(count)
    }
}
