//! What was read and is not heard yet.

ghost use Rattle.std.specs.Prelude.{◌≡◌, ◌+◌, ◌<◌, ◌≤◌, [], IfOk, OnOk, drop, length, take};
ghost use Rattle.std.specs.Io.KnownBytes.{ReadConsumes};
ghost use Rattle.io_edge.specs.Causes.{HasCause};
ghost use Rattle.agreement_run.specs.Waiting.{Comes, ArrivesSo};

use crate::sides::read_side;
use io_edge::{Failed, Stream};
use repl_data::NoMemory;
use std::alloc::Global;
use std::marker::Model;

/// How many bytes a read has room for at first.
const PIECE: usize = 65_536;

/// What came of a read.
#[derive(Clone, Copy, Drop)]
pub(crate) enum Arrival {
    /// Some bytes came.
    Bytes,
    /// The stream has ended.
    End,
    /// The read failed.
    Fault,
}

/// Bytes that were read, the first of which is not heard yet. Contracts see those bytes.
#[derive(Drop)]
pub(crate) struct Inbox {
    /// The bytes, and the room behind them.
    buf: Vec<u8>,
    count: usize,
}

impl Model for Inbox {
    ghost use Rattle.std.specs.Prelude.{List, ℕ, ◌≤◌, length, take};

    ghost Value = { List ℕ };

    ghost view = { λ i. take i.count i.buf.items };

    ghost invariant = { λ i. i.count ≤ length i.buf.items };
}

/// Makes room behind the first `count` bytes, where there is none: as much again as there is.
fn make_room(buf: &mut Vec<u8>, count: usize) -> Result<(), NoMemory>
    requires { count ≤ length buf.old.items }
    ensures kept { take count buf.new.items ≡ take count buf.old.items }
    ensures within { count ≤ length buf.new.items }
    ensures room { OnOk result (count < length buf.new.items) }
{
    if count < buf.len() {
        return Ok(());
    }
    let more = count.max(PIECE);
    buf.resize(count.saturating_add(more), 0)?;
    Ok(())
}

/// Reads into the room behind the first `count` bytes.
fn read_behind<T: Stream>(stream: &mut T, buf: &mut [u8], count: usize) -> Result<usize, Failed>
    requires { count ≤ length buf.old }
    ensures kept { take count buf.new ≡ take count buf.old }
    ensures size { length buf.new ≡ length buf.old }
    ensures within { IfOk result (λ n. count + n ≤ length buf.new) }
    ensures bytes { ReadConsumes (T.left stream.old) (T.left stream.new) result (drop count buf.new) }
    ensures cause { HasCause (T.Source.faults stream.old) (T.Source.faults stream.new) result }
    ensures contents { T.contents stream.new ≡ T.contents stream.old }
    ensures faults { T.Sink.faults stream.new ≡ T.Sink.faults stream.old }
{
    read_side(stream, &mut buf[count..])
}

impl Inbox {
    /// One without bytes.
    pub(crate) fn new(alloc: Global) -> Result<Inbox, NoMemory>
        ensures { IfOk result (λ inbox. inbox ≡ []) }
    {
        let buf = vec![in alloc; 0u8; PIECE]?;
        Ok(Inbox { buf, count: 0 })
    }

    /// The bytes.
    pub(crate) fn bytes(&self) -> &[u8]
        ensures { result.now ≡ self.now }
    {
        &self.buf.as_slice()[..self.count]
    }

    /// Lets the first of the bytes go. What is behind them moves to the front.
    pub(crate) fn drop_front(&mut self, size: usize)
        requires { size ≤ length self.old }
        ensures { self.new ≡ drop size self.old }
    {
        self.buf.as_mut_slice().copy_within(size..self.count, 0);
        self.count -= size;
    }

    /// Reads once: as much as is there, and as there is room for.
    pub(crate) fn receive<T: Stream>(&mut self, stream: &mut T) -> Result<Arrival, NoMemory>
        ensures comes { Comes self.old (T.left stream.old) self.new (T.left stream.new) }
        ensures arrives { ArrivesSo result self.old self.new (T.left stream.new) (T.Source.faults stream.old) (T.Source.faults stream.new) }
        ensures later { T.Source.faults stream.old ≤ T.Source.faults stream.new }
        ensures contents { T.contents stream.new ≡ T.contents stream.old }
        ensures faults { T.Sink.faults stream.new ≡ T.Sink.faults stream.old }
    {
        make_room(&mut self.buf, self.count)?;
        let Ok(count) = read_behind(stream, self.buf.as_mut_slice(), self.count) else {
            return Ok(Arrival::Fault);
        };
        if count == 0 {
            return Ok(Arrival::End);
        }
        self.count += count;
        Ok(Arrival::Bytes)
    }
}
