//! The traits of sources and sinks, and what a failed call says.

ghost use Rattle.std.specs.Prelude.{◌≡◌, ◌≤◌, ◌-◌, ◌^◌, List, ℕ, Option, OnOk, OnErr, Some, codes};
ghost use Rattle.std.specs.Io.{ReadsAtMost};
ghost use Rattle.std.specs.Io.KnownBytes.{ReadConsumes, Appends};
ghost use Rattle.io_edge.specs.Causes.{HasCause};
ghost use Rattle.io_edge.specs.Edge.{AppendsFront};

use std::alloc::{AllocError, AllocFailed};
use std::error::Error;
use std::fmt;

/// A read or a write failed.
#[derive(Clone, Copy, Debug, Eq, PartialEq)]
pub struct Failed;

impl fmt::Display for Failed {
    ghost output = { λ _. Some (codes "read or write failed") };

    fn fmt<W: fmt::Write>(&self, f: &mut fmt::Formatter<W>) -> fmt::Result {
        write!(f, "read or write failed")
    }
}

impl Error for Failed {}

/// No memory was left.
#[derive(Clone, Copy, Debug, Eq, PartialEq)]
pub struct NoMemory;

impl fmt::Display for NoMemory {
    ghost output = { λ _. Some (codes "no memory") };

    fn fmt<W: fmt::Write>(&self, f: &mut fmt::Formatter<W>) -> fmt::Result {
        write!(f, "no memory")
    }
}

impl Error for NoMemory {}

impl From<AllocError> for NoMemory {
    fn from(_error: AllocError) -> NoMemory {
        NoMemory
    }
}

impl<T: Drop> From<AllocFailed<T>> for NoMemory {
    fn from(_error: AllocFailed<T>) -> NoMemory {
        NoMemory
    }
}

/// Where bytes come from.
pub trait Source {
    /// What has not been read, where that is known.
    ghost left: { Self → Option (List ℕ) };

    /// How many faults there were. The count stands still at `u64::MAX`.
    ghost faults: { Self → ℕ };

    /// What else there is of it, which a read leaves as it was.
    ghost Apart: { Type 0 };

    ghost apart: { Self → Apart };

    /// Reads the first bytes of what is left into the front of `buf`, and answers how many.
    ///
    /// For a buffer that is not empty, 0 comes only at the end. After [`Failed`] what is left is as
    /// it was, and the count of faults rose.
    fn read(&mut self, buf: &mut [u8]) -> Result<usize, Failed>
        ensures bound { ReadsAtMost result buf.new }
        ensures bytes { ReadConsumes (left self.old) (left self.new) result buf.new }
        ensures cause { HasCause (faults self.old) (faults self.new) result }
        ensures apart { apart self.new ≡ apart self.old };
}

/// Where bytes go.
pub trait Sink {
    /// What was written, where that is known.
    ghost contents: { Self → Option (List ℕ) };

    /// How many faults there were. The count stands still at `u64::MAX`.
    ghost faults: { Self → ℕ };

    /// What else there is of it, which a write leaves as it was.
    ghost Apart: { Type 0 };

    ghost apart: { Self → Apart };

    /// Writes the whole piece.
    ///
    /// After [`Failed`] a prefix of the piece was written, and the count of faults rose.
    fn write(&mut self, bytes: &[u8]) -> Result<(), Failed>
        ensures ok { OnOk result (Appends (contents self.old) (contents self.new) bytes.now) }
        ensures err { OnErr result (AppendsFront (contents self.old) (contents self.new) bytes.now) }
        ensures cause { HasCause (faults self.old) (faults self.new) result }
        ensures apart { apart self.new ≡ apart self.old };
}

impl<S: Source> Source for &mut S {
    ghost left = { λ s. S.left s.now };

    ghost faults = { λ s. S.faults s.now };

    ghost Apart = { S.Apart };

    ghost apart = { λ s. S.apart s.now };

    fn read(&mut self, buf: &mut [u8]) -> Result<usize, Failed> {
        (**self).read(buf)
    }
}

impl<K: Sink> Sink for &mut K {
    ghost contents = { λ s. K.contents s.now };

    ghost faults = { λ s. K.faults s.now };

    ghost Apart = { K.Apart };

    ghost apart = { λ s. K.apart s.now };

    fn write(&mut self, bytes: &[u8]) -> Result<(), Failed> {
        (**self).write(bytes)
    }
}
