//! Sources and sinks over the readers and writers of the standard library.

ghost use Rattle.std.specs.Prelude.{◌≡◌, ⊤, ◌-◌, ◌^◌, ◌≤◌, OnErr, OnOk};
ghost use Rattle.std.specs.Io.{ReadsAtMost, WritesAtMost};
ghost use Rattle.std.specs.Io.KnownBytes.{Appends, Keeps, ReadConsumes, WriteAppends};
ghost use Rattle.io_edge.specs.Causes.{HasCause, next_count};
ghost use Rattle.io_edge.specs.Edge.{AppendsFront};

use crate::edge::{Failed, Sink, Source};
use std::io::{ErrorKind, Read, Write};
use std::marker::Model;

/// The real standard input as a source: `StdSource::new(rt.reader())`.
///
/// It tells what its reader tells, and the standard input tells nothing. Each error of the reader
/// raises the count of faults. It has no buffer of its own, so a large buffer makes few calls.
#[derive(Debug, Drop)]
pub struct StdSource<R> {
    reader: R,
    faults: u64,
}

impl<R> Model for StdSource<R> {
    ghost use Rattle.io_edge.specs.Standard.{Counted};

    ghost Value = { Counted R };

    ghost view = { λ s. record { inner = s.reader; faults = s.faults } };
}

impl<R> StdSource<R> {
    /// A source over this reader.
    pub fn new(reader: R) -> StdSource<R>
        ensures { result ≡ record { inner = reader; faults = 0 } }
    {
        StdSource { reader, faults: 0 }
    }

    /// How many calls of the reader answered an error.
    pub fn faults(&self) -> u64
        ensures { result ≡ self.now.faults }
    {
        self.faults
    }
}

impl<R: Read> Source for StdSource<R> {
    ghost left = { λ s. R.remaining s.inner };

    ghost faults = { λ s. s.faults };

    ghost Apart = { ⊤ };

    ghost apart = { λ _. tt };

    /// A read that a signal interrupted is made again, and any other error is [`Failed`].
    fn read(&mut self, buf: &mut [u8]) -> Result<usize, Failed> {
        read_counted(&mut self.reader, &mut self.faults, buf)
    }
}

/// The real standard output as a sink: `StdSink::new(io::writer(&rt))`.
///
/// It tells what its writer tells, and the standard output tells nothing. Each error of the writer
/// raises the count of faults. After `Ok` the piece was handed to the system: none of it waits in a
/// buffer.
#[derive(Debug, Drop)]
pub struct StdSink<W> {
    writer: W,
    faults: u64,
}

impl<W> Model for StdSink<W> {
    ghost use Rattle.io_edge.specs.Standard.{Counted};

    ghost Value = { Counted W };

    ghost view = { λ s. record { inner = s.writer; faults = s.faults } };
}

impl<W> StdSink<W> {
    /// A sink over this writer.
    pub fn new(writer: W) -> StdSink<W>
        ensures { result ≡ record { inner = writer; faults = 0 } }
    {
        StdSink { writer, faults: 0 }
    }

    /// How many calls of the writer answered an error, or took nothing of a piece.
    pub fn faults(&self) -> u64
        ensures { result ≡ self.now.faults }
    {
        self.faults
    }
}

impl<W: Write> Sink for StdSink<W> {
    ghost contents = { λ s. W.contents s.inner };

    ghost faults = { λ s. s.faults };

    ghost Apart = { ⊤ };

    ghost apart = { λ _. tt };

    /// A write that a signal interrupted is made again, and any other error is [`Failed`].
    fn write(&mut self, bytes: &[u8]) -> Result<(), Failed> {
        write_counted(&mut self.writer, &mut self.faults, bytes)
    }
}

/// Reads once, and again after each interruption. After `u64::MAX` of them it fails.
pub(crate) fn read_counted<R: Read>(
    reader: &mut R,
    faults: &mut u64,
    buf: &mut [u8],
) -> Result<usize, Failed>
    ensures bound { ReadsAtMost result buf.new }
    ensures bytes { ReadConsumes (R.remaining reader.old) (R.remaining reader.new) result buf.new }
    ensures cause { HasCause faults.old faults.new result }
{
    for _ in 0..u64::MAX {
        match reader.read(buf) {
            Ok(count) => return Ok(count),
            Err(error) => {
                let failed = count_fault(faults);
                if error.kind() != ErrorKind::Interrupted {
                    return Err(failed);
                }
            }
        }
    }
    Err(count_fault(faults))
}

/// Writes the whole piece and flushes. After `u64::MAX` calls of the writer it fails.
pub(crate) fn write_counted<W: Write>(
    writer: &mut W,
    faults: &mut u64,
    bytes: &[u8],
) -> Result<(), Failed>
    ensures ok { OnOk result (Appends (W.contents writer.old) (W.contents writer.new) bytes.now) }
    ensures err { OnErr result (AppendsFront (W.contents writer.old) (W.contents writer.new) bytes.now) }
    ensures cause { HasCause faults.old faults.new result }
{
    let mut rest = bytes;
    for _ in 0..u64::MAX {
        if rest.is_empty() {
            return flush_counted(writer, faults);
        }
        let Ok(count) = write_some(writer, faults, rest) else {
            return Err(Failed);
        };
        rest = &rest[count..];
    }
    Err(count_fault(faults))
}

/// Writes the first bytes of a piece that is not empty, and answers how many: none where a signal
/// interrupted the write.
fn write_some<W: Write>(writer: &mut W, faults: &mut u64, bytes: &[u8]) -> Result<usize, Failed>
    ensures bound { WritesAtMost result bytes.now }
    ensures bytes { WriteAppends (W.contents writer.old) (W.contents writer.new) result bytes.now }
    ensures cause { HasCause faults.old faults.new result }
{
    match writer.write(bytes) {
        Ok(0) => Err(count_fault(faults)),
        Ok(count) => Ok(count),
        Err(error) => {
            let failed = count_fault(faults);
            if error.kind() == ErrorKind::Interrupted {
                Ok(0)
            } else {
                Err(failed)
            }
        }
    }
}

/// Hands over what a writer with a buffer still holds.
fn flush_counted<W: Write>(writer: &mut W, faults: &mut u64) -> Result<(), Failed>
    ensures kept { Keeps (W.contents writer.old) (W.contents writer.new) }
    ensures cause { HasCause faults.old faults.new result }
{
    if writer.flush().is_err() {
        return Err(count_fault(faults));
    }
    Ok(())
}

/// Counts one more fault.
pub(crate) fn count_fault(faults: &mut u64) -> Failed
    ensures counted { faults.new ≡ next_count faults.old }
    ensures later { faults.old ≤ faults.new }
{
    *faults = faults.saturating_add(1);
    Failed
}
