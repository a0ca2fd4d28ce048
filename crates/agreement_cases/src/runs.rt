//! Sessions over streams in memory, whose reads bring at most MOST bytes at once.
//!
//! - `whole MOST`: what comes of the session: its end, how many messages were written, how many calls failed, and how
//!   many bytes were not read.
//! - `instead MOST PLACE BYTES`: the same with these bytes in place of the reply to the message with this number.
//! - `behind MOST BYTES`: the same with these bytes behind the last reply.
//! - `fails MOST READ WRITE KEPT`: the same where the read and the write with these numbers fail, and a failing write
//!   still takes KEPT bytes.
//! - `ends MOST`: the same where the stream ends before its first byte, behind that, behind the second, and so on, each
//!   time that it comes to something else.
//! - `each_read MOST`, `each_write MOST KEPT`: the same where the first read or write fails, where the second does, and
//!   so on, up to the first number that no call has.

ghost use Rattle.std.specs.Prelude.{◌≡◌, ◌<◌, IfOk};

use crate::offered::Offered;
use crate::parties::Parties;
use crate::told::{Last, tell_end, tell_faults, tell_left, tell_written};
use agreement_run::run_session;
use case_lines::{CaseFault, Fields, or_memory};
use io_edge::{MemSink, MemSource, MemStream};
use std::alloc::Global;
use std::slice;
use std::sync::Wait;

/// A stream's calls: how many bytes a read brings at most, which read and which write fails, counted from 1, and how
/// many bytes a write that fails still takes.
#[derive(Clone, Copy)]
struct Calls {
    most: usize,
    read: u64,
    write: u64,
    kept: usize,
}

/// What was left of a stream.
#[derive(Clone, Copy)]
struct Left {
    /// How many bytes were not read.
    bytes: usize,
    /// How many calls failed.
    faults: u64,
}

/// Calls of which none fails.
fn calm(most: usize) -> Calls
    ensures { result.most ≡ most }
{
    Calls {
        most,
        read: 0,
        write: 0,
        kept: 0,
    }
}

/// Runs the session over a stream that brings these bytes, and tells its end, what was written and which calls failed.
fn run<R: Wait>(
    rt: &R,
    alloc: Global,
    parties: &Parties,
    brought: &[u8],
    calls: &Calls,
    told: &mut String,
) -> Result<Left, CaseFault>
    requires { 0 < calls.now.most }
{
    let source = MemSource::in_pieces(brought, slice::from_ref(&calls.read), calls.most);
    let sink = MemSink::keeping(alloc, slice::from_ref(&calls.write), calls.kept);
    let mut stream = MemStream::new(source, sink);
    let mut supply = Offered {
        updates: parties.updates.as_slice(),
    };
    let end = run_session(
        rt,
        alloc,
        parties.rid,
        &parties.suffix,
        &mut supply,
        &mut stream,
    );
    let (source, sink) = stream.into_parts();
    tell_end(told, &or_memory(end)?)?;
    tell_written(told, sink.written(), parties.says.as_slice())?;
    tell_faults(told, source.faults(), sink.faults())?;
    Ok(Left {
        bytes: source.left().len(),
        faults: source.faults().saturating_add(sink.faults()),
    })
}

/// The number of the next word, which is not 0.
fn next_most(fields: &mut Fields<'_>) -> Result<usize, CaseFault>
    ensures { IfOk result (λ most. 0 < most) }
{
    let most = fields.number()? as usize;
    if most == 0 {
        return Err(CaseFault::Argument);
    }
    Ok(most)
}

pub fn answer<R: Wait>(
    rt: &R,
    alloc: Global,
    parties: &Parties,
    fields: &mut Fields<'_>,
    told: &mut String,
) -> Result<(), CaseFault> {
    let form = fields.word()?;
    let most = next_most(fields)?;
    match form {
        "whole" => whole(rt, alloc, parties, most, told),
        "instead" => instead(rt, alloc, parties, most, fields, told),
        "behind" => behind(rt, alloc, parties, most, fields, told),
        "fails" => fails(rt, alloc, parties, most, fields, told),
        "ends" => ends(rt, alloc, parties, most, told),
        "each_read" => each_failing(rt, alloc, parties, Side::Reads, &calm(most), told),
        "each_write" => each_write(rt, alloc, parties, most, fields, told),
        _ => Err(CaseFault::Argument),
    }
}

fn whole<R: Wait>(
    rt: &R,
    alloc: Global,
    parties: &Parties,
    most: usize,
    told: &mut String,
) -> Result<(), CaseFault>
    requires { 0 < most }
{
    let brought = parties.brought(alloc, 0, &[])?;
    let left = run(rt, alloc, parties, brought.as_slice(), &calm(most), told)?;
    tell_left(told, left.bytes)
}

fn instead<R: Wait>(
    rt: &R,
    alloc: Global,
    parties: &Parties,
    most: usize,
    fields: &mut Fields<'_>,
    told: &mut String,
) -> Result<(), CaseFault>
    requires { 0 < most }
{
    let place = fields.number()?;
    let other = fields.bytes(alloc)?;
    let brought = parties.brought(alloc, place, other.as_slice())?;
    let left = run(rt, alloc, parties, brought.as_slice(), &calm(most), told)?;
    tell_left(told, left.bytes)
}

fn behind<R: Wait>(
    rt: &R,
    alloc: Global,
    parties: &Parties,
    most: usize,
    fields: &mut Fields<'_>,
    told: &mut String,
) -> Result<(), CaseFault>
    requires { 0 < most }
{
    let mut brought = parties.brought(alloc, 0, &[])?;
    brought.extend_from_slice(fields.bytes(alloc)?.as_slice())?;
    let left = run(rt, alloc, parties, brought.as_slice(), &calm(most), told)?;
    tell_left(told, left.bytes)
}

fn fails<R: Wait>(
    rt: &R,
    alloc: Global,
    parties: &Parties,
    most: usize,
    fields: &mut Fields<'_>,
    told: &mut String,
) -> Result<(), CaseFault>
    requires { 0 < most }
{
    let read = fields.number()?;
    let write = fields.number()?;
    let kept = fields.number()? as usize;
    let calls = Calls {
        most,
        read,
        write,
        kept,
    };
    let brought = parties.brought(alloc, 0, &[])?;
    let left = run(rt, alloc, parties, brought.as_slice(), &calls, told)?;
    tell_left(told, left.bytes)
}

fn ends<R: Wait>(
    rt: &R,
    alloc: Global,
    parties: &Parties,
    most: usize,
    told: &mut String,
) -> Result<(), CaseFault>
    requires { 0 < most }
{
    let calls = calm(most);
    let brought = parties.brought(alloc, 0, &[])?;
    let mut last = Last::new(String::new(alloc));
    for size in 0..brought.len() {
        let mut outcome = String::new(alloc);
        let _left = run(
            rt,
            alloc,
            parties,
            &brought.as_slice()[..size],
            &calls,
            &mut outcome,
        )?;
        last.tell(told, size as u64, outcome)?;
    }
    let mut outcome = String::new(alloc);
    let _left = run(rt, alloc, parties, brought.as_slice(), &calls, &mut outcome)?;
    last.tell(told, brought.len() as u64, outcome)
}

/// Which calls of a stream fail.
#[derive(Clone, Copy)]
enum Side {
    Reads,
    Writes,
}

/// The calls where the one with this number fails, on one side.
fn failing(side: Side, number: u64, calls: &Calls) -> Calls
    ensures { result.most ≡ calls.now.most }
{
    match side {
        Side::Reads => Calls {
            most: calls.most,
            read: number,
            write: 0,
            kept: calls.kept,
        },
        Side::Writes => Calls {
            most: calls.most,
            read: 0,
            write: number,
            kept: calls.kept,
        },
    }
}

fn each_write<R: Wait>(
    rt: &R,
    alloc: Global,
    parties: &Parties,
    most: usize,
    fields: &mut Fields<'_>,
    told: &mut String,
) -> Result<(), CaseFault>
    requires { 0 < most }
{
    let calls = Calls {
        most,
        read: 0,
        write: 0,
        kept: fields.number()? as usize,
    };
    each_failing(rt, alloc, parties, Side::Writes, &calls, told)
}

/// Runs the session with the first call of a side failing, with the second, and so on.
fn each_failing<R: Wait>(
    rt: &R,
    alloc: Global,
    parties: &Parties,
    side: Side,
    calls: &Calls,
    told: &mut String,
) -> Result<(), CaseFault>
    requires { 0 < calls.now.most }
{
    let brought = parties.brought(alloc, 0, &[])?;
    let mut last = Last::new(String::new(alloc));
    for number in 1..u64::MAX {
        let mut outcome = String::new(alloc);
        let calls = failing(side, number, calls);
        let left = run(rt, alloc, parties, brought.as_slice(), &calls, &mut outcome)?;
        last.tell(told, number, outcome)?;
        if left.faults == 0 {
            break;
        }
    }
    Ok(())
}
