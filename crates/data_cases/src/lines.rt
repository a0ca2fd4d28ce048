//! Lines of the script, read and written again, and output lines. An output line is a word for what
//! happened, and then its numbers, CSNs, ids and answers in the order in which they are printed.

use case_changes::{csn_list, next_csn, next_uid};
use case_lines::{CaseFault, Fields, or_memory, tell_text};
use repl_data::Bytes;
use script_text::{
    Counts, LineFault, OutputLine, print_line, print_reply, print_vector, read_line, write_line,
};
use std::alloc::Global;
use vector_core::{AcquireFault, Applied, ApplyFault};

pub fn answer(alloc: Global, fields: &mut Fields<'_>, told: &mut String) -> Result<(), CaseFault> {
    match fields.word()? {
        "read" => read(alloc, fields, told),
        "reply" => reply(alloc, fields, told),
        "vector" => vector(alloc, fields, told),
        "print" => print(alloc, fields, told),
        _ => Err(CaseFault::Subject),
    }
}

/// Tells how the line that is read is written.
fn read(alloc: Global, fields: &mut Fields<'_>, told: &mut String) -> Result<(), CaseFault> {
    let text = fields.bytes(alloc)?;
    match read_line(alloc, text.as_slice()) {
        Ok(line) => {
            let written = or_memory(write_line(alloc, &line))?;
            tell_text(told, written.as_slice())
        }
        Err(LineFault::BadLine) => {
            told.push_str("bad")?;
            Ok(())
        }
        Err(LineFault::NoMemory) => Err(CaseFault::NoMemory),
    }
}

/// Tells a printed line without its line feed.
fn tell_line(told: &mut String, line: &[u8]) -> Result<(), CaseFault> {
    match line {
        [text @ .., b'\n'] => tell_text(told, text),
        _ => {
            told.push_str("no line feed")?;
            Ok(())
        }
    }
}

fn reply(alloc: Global, fields: &mut Fields<'_>, told: &mut String) -> Result<(), CaseFault> {
    let c = number16(fields)?;
    let bytes = fields.bytes(alloc)?;
    let mut out = Bytes::new(alloc);
    or_memory(print_reply(alloc, &mut out, c, bytes.as_slice()))?;
    tell_line(told, out.as_slice())
}

/// The CSNs stand with commas between, and `-` for none.
fn vector(alloc: Global, fields: &mut Fields<'_>, told: &mut String) -> Result<(), CaseFault> {
    let n = number16(fields)?;
    let csns = csn_list(alloc, fields.word()?)?;
    let mut out = Bytes::new(alloc);
    or_memory(print_vector(alloc, &mut out, n, csns.as_slice()))?;
    tell_line(told, out.as_slice())
}

fn print(alloc: Global, fields: &mut Fields<'_>, told: &mut String) -> Result<(), CaseFault> {
    let name = fields.word()?;
    let line = line_named(name, fields)?;
    let mut out = Bytes::new(alloc);
    or_memory(print_line(alloc, &mut out, &line))?;
    tell_line(told, out.as_slice())
}

fn line_named(name: &str, fields: &mut Fields<'_>) -> Result<OutputLine, CaseFault> {
    match name {
        "closed" => Ok(OutputLine::Closed {
            c: number16(fields)?,
        }),
        "restarted" => Ok(OutputLine::Restarted {
            n: number16(fields)?,
        }),
        "dumped" => Ok(OutputLine::Dumped {
            n: number16(fields)?,
            count: fields.number()?,
        }),
        "audited" => audited(fields),
        "delivered" => Ok(OutputLine::Delivered {
            b: number16(fields)?,
            u: fields.number()?,
            answer: next_answer(fields)?,
        }),
        _ => ticket_line(name, fields),
    }
}

fn ticket_line(name: &str, fields: &mut Fields<'_>) -> Result<OutputLine, CaseFault> {
    let Some(kind) = name.strip_prefix("ticket_") else {
        return session_line(name, fields);
    };
    let k = number32(fields)?;
    match kind {
        "started" => Ok(OutputLine::Started {
            k,
            csn: next_csn(fields)?,
        }),
        "full" => Ok(OutputLine::StartFull { k }),
        "unstarted" => Ok(OutputLine::StartExhausted {
            k,
            csn: next_csn(fields)?,
        }),
        "settled" => Ok(OutputLine::Settled { k }),
        "aborted" => Ok(OutputLine::Aborted { k }),
        _ => commit_line(kind, k, fields),
    }
}

fn commit_line(kind: &str, k: u32, fields: &mut Fields<'_>) -> Result<OutputLine, CaseFault> {
    match kind {
        "committed" => Ok(OutputLine::Committed {
            k,
            csn: next_csn(fields)?,
        }),
        "refused" => Ok(OutputLine::CommitRefused {
            k,
            code: number32(fields)?,
        }),
        "stale" => Ok(OutputLine::CommitStale {
            k,
            life: fields.number()?,
            node_life: fields.number()?,
        }),
        "exhausted" => Ok(OutputLine::CommitExhausted {
            k,
            csn: next_csn(fields)?,
        }),
        "keeper" => Ok(OutputLine::CommitKeeper { k }),
        _ => Err(CaseFault::Subject),
    }
}

fn session_line(name: &str, fields: &mut Fields<'_>) -> Result<OutputLine, CaseFault> {
    let a = number16(fields)?;
    let b = number16(fields)?;
    match name {
        "acquired" => Ok(OutputLine::Acquired { a, b }),
        "unacquired" => Ok(OutputLine::AcquireRefused {
            a,
            b,
            fault: next_refusal(fields)?,
        }),
        "released" => Ok(OutputLine::Released { a, b }),
        "offered" => Ok(OutputLine::Offered {
            a,
            b,
            u: fields.number()?,
            csn: next_csn(fields)?,
            prev: next_csn(fields)?,
        }),
        "unoffered" => Ok(OutputLine::OfferDone { a, b }),
        _ => pump_line(name, a, b, fields),
    }
}

fn pump_line(name: &str, a: u16, b: u16, fields: &mut Fields<'_>) -> Result<OutputLine, CaseFault> {
    match name {
        "pumped" => Ok(OutputLine::Pumped {
            a,
            b,
            sent: fields.number()?,
        }),
        "unpumped" => Ok(OutputLine::PumpRefused {
            a,
            b,
            fault: next_refusal(fields)?,
        }),
        "stopped" => {
            let fault = next_fault(fields)?;
            let sent = fields.number()?;
            Ok(OutputLine::PumpStopped { a, b, fault, sent })
        }
        _ => Err(CaseFault::Subject),
    }
}

fn audited(fields: &mut Fields<'_>) -> Result<OutputLine, CaseFault> {
    let n = number16(fields)?;
    let present = fields.number()?;
    let glue = fields.number()?;
    let conflict = fields.number()?;
    let tombstone = fields.number()?;
    let taken = fields.number()?;
    let pending = fields.number()?;
    let counts = Counts {
        present,
        glue,
        conflict,
        tombstone,
        taken,
        pending,
    };
    Ok(OutputLine::Audited { n, counts })
}

/// Why a supplier may not begin.
fn next_refusal(fields: &mut Fields<'_>) -> Result<AcquireFault, CaseFault> {
    match fields.word()? {
        "same" => Ok(AcquireFault::SameId),
        "busy" => Ok(AcquireFault::Busy {
            rid: number16(fields)?,
        }),
        "skew" => Ok(AcquireFault::Skew {
            csn: next_csn(fields)?,
            now: number32(fields)?,
        }),
        _ => Err(CaseFault::Argument),
    }
}

/// What became of an update.
fn next_answer(fields: &mut Fields<'_>) -> Result<Result<Applied, ApplyFault>, CaseFault> {
    match fields.word()? {
        "taken" => Ok(Ok(Applied::Taken)),
        "duplicate" => Ok(Ok(Applied::Duplicate)),
        "not" => Ok(Err(next_fault(fields)?)),
        _ => Err(CaseFault::Argument),
    }
}

fn next_fault(fields: &mut Fields<'_>) -> Result<ApplyFault, CaseFault> {
    match fields.word()? {
        "holder" => Ok(ApplyFault::NotHolder),
        "own" => Ok(ApplyFault::OwnUnknown {
            csn: next_csn(fields)?,
        }),
        "skew" => Ok(ApplyFault::Skew {
            csn: next_csn(fields)?,
            now: number32(fields)?,
        }),
        "gap" => Ok(ApplyFault::Gap {
            have: next_csn(fields)?,
            prev: next_csn(fields)?,
        }),
        "missing" => Ok(ApplyFault::Missing {
            id: next_uid(fields)?,
        }),
        "keeper" => Ok(ApplyFault::KeeperFault),
        _ => Err(CaseFault::Argument),
    }
}

fn number16(fields: &mut Fields<'_>) -> Result<u16, CaseFault> {
    fields
        .word()?
        .parse::<u16>()
        .ok()
        .ok_or(CaseFault::Argument)
}

fn number32(fields: &mut Fields<'_>) -> Result<u32, CaseFault> {
    fields
        .word()?
        .parse::<u32>()
        .ok()
        .ok_or(CaseFault::Argument)
}
