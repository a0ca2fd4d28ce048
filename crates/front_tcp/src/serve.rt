//! One stream served by one machine.

ghost use Rattle.std.specs.Prelude.{◌≡◌, ◌<◌, ◌≤◌, ◌++◌, [], length, true, false, Ok, Err, IfOk, OnOk, OnErr, Result};
ghost use Rattle.std.specs.Io.KnownBytes.{Appends};
ghost use Rattle.io_edge.specs.Causes.{HasCause, Rose, next_count};
ghost use Rattle.io_edge.specs.Edge.{AppendsFront};
ghost use Rattle.front_tcp.specs.Serving.{Serves};

use crate::end::StreamEnd;
use crate::sides::{read_side, write_side};
use crate::tally::Tally;
use io_edge::{Failed, Fed, Machine, NoMemory, Stream};
use std::alloc::Global;
use std::sync::Wait;

/// How many bytes are read, and written, at once.
const PIECE: usize = 65_536;

/// Feeds the machine what the stream brings, and writes what the machine gives, until one of them ends or
/// a read or a write fails. What waited at the start is written first. The tally rises by one, whatever
/// the answer is.
///
/// It answers [`StreamEnd::Ended`] at the end of the stream, and [`StreamEnd::Unbound`] or
/// [`StreamEnd::BadBytes`] where the machine answered that, once all that it gave is written. After a
/// read that failed that is written too, and after a write that failed, or after [`NoMemory`], a front
/// of it.
///
/// One read brings as many bytes as are there, at most 65,536; they are fed at once, and what the machine
/// gives goes out in one write for each 65,536 bytes. Two buffers are allocated for the whole stream.
pub fn serve_stream<R: Wait, M: Machine, T: Stream>(
    rt: &R,
    alloc: Global,
    machine: &mut M,
    stream: &mut T,
    tally: &mut Tally<T>,
) -> Result<StreamEnd, NoMemory>
    requires { M.is_ended (M.state machine.old) ≡ false }
    ensures serves { Serves M.adds (M.state machine.old) (M.waiting machine.old) (T.left stream.old) (T.contents stream.old) result (M.state machine.new) (T.left stream.new) (T.contents stream.new) }
    ensures read_fault { result ≡ Ok StreamEnd.ReadFault → Rose (T.Source.faults stream.old) (T.Source.faults stream.new) }
    ensures write_fault { result ≡ Ok StreamEnd.WriteFault → Rose (T.Sink.faults stream.old) (T.Sink.faults stream.new) }
    ensures counted { tally.new ≡ next_count tally.old }
{
    tally.raise();
    let Ok(mut input) = buffer(alloc, PIECE) else {
        return Err(NoMemory);
    };
    let Ok(mut output) = buffer(alloc, PIECE) else {
        return Err(NoMemory);
    };
    serve(
        rt,
        alloc,
        machine,
        stream,
        input.as_mut_slice(),
        output.as_mut_slice(),
    )
}

/// A buffer of so many bytes.
fn buffer(alloc: Global, size: usize) -> Result<Vec<u8>, NoMemory>
    requires { 0 < size }
    ensures { IfOk result (λ bytes. 0 < length bytes.items) }
{
    Ok(vec![in alloc; 0u8; size]?)
}

/// Serves the stream with these buffers.
fn serve<R: Wait, M: Machine, T: Stream>(
    rt: &R,
    alloc: Global,
    machine: &mut M,
    stream: &mut T,
    input: &mut [u8],
    output: &mut [u8],
) -> Result<StreamEnd, NoMemory>
    requires open { M.is_ended (M.state machine.old) ≡ false }
    requires input { 0 < length input.old }
    requires output { 0 < length output.old }
    ensures serves { Serves M.adds (M.state machine.old) (M.waiting machine.old) (T.left stream.old) (T.contents stream.old) result (M.state machine.new) (T.left stream.new) (T.contents stream.new) }
    ensures read_fault { result ≡ Ok StreamEnd.ReadFault → Rose (T.Source.faults stream.old) (T.Source.faults stream.new) }
    ensures write_fault { result ≡ Ok StreamEnd.WriteFault → Rose (T.Sink.faults stream.old) (T.Sink.faults stream.new) }
{
    let Ok(()) = send(rt, machine, stream, output) else {
        return Ok(StreamEnd::WriteFault);
    };
    for _ in rt.forever() {
        let Ok(count) = read_side(stream, input) else {
            return Ok(StreamEnd::ReadFault);
        };
        if count == 0 {
            return Ok(StreamEnd::Ended);
        }
        let Ok(fed) = machine.feed(alloc, &input[..count]) else {
            return Err(NoMemory);
        };
        let Ok(()) = send(rt, machine, stream, output) else {
            return Ok(StreamEnd::WriteFault);
        };
        match fed {
            Fed::Running => {}
            Fed::Unbound => return Ok(StreamEnd::Unbound),
            Fed::BadBytes { place } => return Ok(StreamEnd::BadBytes { place }),
            Fed::Closed => unreachable!(),
        }
    }
    unreachable!()
}

/// Writes all that waits.
fn send<R: Wait, M: Machine, T: Stream>(
    rt: &R,
    machine: &mut M,
    stream: &mut T,
    output: &mut [u8],
) -> Result<(), Failed>
    requires { 0 < length output.old }
    ensures state { M.state machine.new ≡ M.state machine.old }
    ensures empty { OnOk result (M.waiting machine.new ≡ []) }
    ensures all { OnOk result (Appends (T.contents stream.old) (T.contents stream.new) (M.waiting machine.old)) }
    ensures front { OnErr result (AppendsFront (T.contents stream.old) (T.contents stream.new) (M.waiting machine.old)) }
    ensures cause { HasCause (T.Sink.faults stream.old) (T.Sink.faults stream.new) result }
    ensures left { T.left stream.new ≡ T.left stream.old }
    ensures faults { T.Source.faults stream.new ≡ T.Source.faults stream.old }
    ensures room { length output.new ≡ length output.old }
{
    for _ in rt.forever() {
        let count = machine.take(output);
        if count == 0 {
            return Ok(());
        }
        let Ok(()) = write_side(stream, &output[..count]) else {
            return Err(Failed);
        };
    }
    unreachable!()
}
