//! A source and a sink that never fail.

ghost use Rattle.std.specs.Prelude.{◌≡◌, ⊤, ◌+◌, ◌-◌, ◌^◌, ◌++◌, [], Some, None, drop, length, min, take, IfOk, IsOk, Ok};

use crate::bytes::copy_front;
use crate::edge::{Failed, Sink, Source};
use std::marker::Model;

/// Bytes in memory that are read without a fault. Contracts see what is left of them.
#[derive(Debug, Drop)]
pub struct CalmSource<'a> {
    rest: &'a [u8],
}

impl<'a> Model for CalmSource<'a> {
    ghost use Rattle.std.specs.Prelude.{List, ℕ};

    ghost Value = { List ℕ };

    ghost view = { λ s. s.rest.now };
}

impl<'a> CalmSource<'a> {
    /// A source of these bytes. Takes no memory.
    pub fn new(bytes: &'a [u8]) -> CalmSource<'a>
        ensures { result ≡ bytes.now }
    {
        CalmSource { rest: bytes }
    }

    /// The bytes that have not been read.
    pub fn left(&self) -> &'a [u8]
        ensures { result.now ≡ self.now }
    {
        self.rest
    }
}

impl Source for CalmSource<'_> {
    ghost left = { λ s. Some s };

    ghost faults = { λ _. 0 };

    ghost Apart = { ⊤ };

    ghost apart = { λ _. tt };

    /// Hands over as many bytes as are left and fit. Never fails.
    fn read(&mut self, buf: &mut [u8]) -> Result<usize, Failed>
        ensures count { result ≡ Ok (min (length self.old) (length buf.old)) }
        ensures read { IfOk result (λ n. buf.new ≡ take n self.old ++ drop n buf.old) }
        ensures rest { IfOk result (λ n. self.new ≡ drop n self.old) }
    {
        let count = self.rest.len().min(buf.len());
        copy_front(self.rest, count, buf);
        self.rest = &self.rest[count..];
        Ok(count)
    }
}

/// A sink that counts the bytes that it is given and drops them. Contracts see the count, which
/// stands still at `u64::MAX`.
#[derive(Debug, Default, Drop)]
pub struct CalmSink {
    count: u64,
}

impl Model for CalmSink {
    ghost use Rattle.std.specs.Prelude.{ℕ};

    ghost Value = { ℕ };

    ghost view = { λ s. s.count };
}

impl CalmSink {
    /// A sink that was given nothing.
    pub fn new() -> CalmSink
        ensures { result ≡ 0 }
    {
        CalmSink { count: 0 }
    }

    /// How many bytes came, at most `u64::MAX`.
    pub fn count(&self) -> u64
        ensures { result ≡ self.now }
    {
        self.count
    }
}

impl Sink for CalmSink {
    ghost contents = { λ _. None };

    ghost faults = { λ _. 0 };

    ghost Apart = { ⊤ };

    ghost apart = { λ _. tt };

    /// Counts the bytes. Never fails.
    fn write(&mut self, bytes: &[u8]) -> Result<(), Failed>
        ensures ok { IsOk result }
        ensures counted { self.new ≡ min (self.old + length bytes.now) (2 ^ 64 - 1) }
    {
        self.count = self.count.saturating_add(bytes.len() as u64);
        Ok(())
    }
}
