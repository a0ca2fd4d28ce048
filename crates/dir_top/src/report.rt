//! What a line prints, by what happened.

ghost use Rattle.std.specs.Prelude.{◌≡◌, ◌++◌, [], IfOk, OnOk};
ghost use Rattle.std.specs.List.{flat_map};
ghost use Rattle.world_core.specs.Write.{busy, success};
ghost use Rattle.script_text.specs.Print.{entry_lines};
ghost use Rattle.script_text.specs.Output.{output_line, reply_line};
ghost use Rattle.dir_top.specs.Report.{reply_lines, closed_line, out_line, answer_line, owed_line, reply_owed, start_text, commit_text, settle_text, reply_failed, abort_text, acquire_text, release_text, offer_text, deliver_text, vector_text, dump_text, audit_counts, audit_text};

use crate::state::{Owed, State};
use conn_core::{Conn, response};
use ldap_replies::write_reply;
use ldap_types::{Code, LdapResult, Reply, ReplyOp};
use node_core::{Audit, used_up};
use repl_data::{Bytes, Csn, NoMemory, ShownEntry};
use script_text::{Counts, OutputLine, print_entry, print_line, print_reply, print_vector};
use std::alloc::Global;
use world_core::Happened;

fn text_of(alloc: Global, line: OutputLine) -> Result<Bytes, NoMemory>
    ensures { IfOk result (λ text. text ≡ output_line line) }
{
    let mut text = Bytes::new(alloc);
    print_line(alloc, &mut text, &line)?;
    Ok(text)
}

// ---- replies

/// The lines of the replies that wait, which are taken.
pub(crate) fn reply_lines(alloc: Global, c: u16, conn: &mut Conn) -> Result<Bytes, NoMemory>
    ensures text { IfOk result (λ text. text ≡ reply_lines c conn.old.replies) }
    ensures taken { OnOk result (conn.new ≡ record conn.old { replies = [] }) }
{
    let mut text = Bytes::new(alloc);
    while let Some(reply) = conn.next_reply() {
        print_reply(alloc, &mut text, c, reply.as_slice())?;
    }
    Ok(text)
}

/// `closed C`
pub(crate) fn closed_line(alloc: Global, c: u16) -> Result<Bytes, NoMemory>
    ensures { IfOk result (λ text. text ≡ closed_line c) }
{
    text_of(alloc, OutputLine::Closed { c })
}

/// The reply as a line, to connection `c`.
fn out_line(alloc: Global, c: u16, reply: &Reply) -> Result<Bytes, NoMemory>
    ensures { IfOk result (λ text. text ≡ out_line c reply.now) }
{
    let mut bytes = Bytes::new(alloc);
    write_reply(alloc, &mut bytes, reply)?;
    let mut text = Bytes::new(alloc);
    print_reply(alloc, &mut text, c, bytes.as_slice())?;
    Ok(text)
}

/// The reply with this message id as a line, where there is one.
fn answer_line(alloc: Global, c: u16, id: u32, op: Option<ReplyOp>) -> Result<Bytes, NoMemory>
    ensures { IfOk result (λ text. text ≡ answer_line c id op) }
{
    match op {
        Some(op) => out_line(alloc, c, &Reply { id, op }),
        None => Ok(Bytes::new(alloc)),
    }
}

/// The reply to the one who waits, by the operation that was asked for.
fn owed_line(alloc: Global, owed: Owed, answer: LdapResult) -> Result<Bytes, NoMemory>
    ensures { IfOk result (λ text. text ≡ owed_line owed answer) }
{
    let op = response(owed.kind, answer);
    answer_line(alloc, owed.connection, owed.id, op)
}

fn plain_result(alloc: Global, code: Code) -> LdapResult
    ensures { result ≡ record { code = code; matched = []; text = [] } }
{
    LdapResult {
        code,
        matched: Bytes::new(alloc),
        text: Bytes::new(alloc),
    }
}

fn success(alloc: Global) -> LdapResult
    ensures { result ≡ success }
{
    plain_result(alloc, Code::SUCCESS)
}

fn busy(alloc: Global) -> LdapResult
    ensures { result ≡ busy }
{
    plain_result(alloc, Code::BUSY)
}

/// The reply to the write of a ticket, if its connection is still the same one.
fn reply_owed(
    alloc: Global,
    state: &State,
    owed: Option<Owed>,
    answer: LdapResult,
) -> Result<Bytes, NoMemory>
    ensures { IfOk result (λ text. text ≡ reply_owed state.now owed answer) }
{
    let Some(owed) = owed else {
        return Ok(Bytes::new(alloc));
    };
    if state.still_waits(owed) {
        owed_line(alloc, owed, answer)
    } else {
        Ok(Bytes::new(alloc))
    }
}

/// One text behind another.
fn joined(mut first: Bytes, second: Bytes) -> Result<Bytes, NoMemory>
    ensures { IfOk result (λ text. text ≡ first ++ second) }
{
    first.append(second)?;
    Ok(first)
}

// ---- tickets

fn start_full(alloc: Global, owed: Owed) -> Result<Bytes, NoMemory>
    ensures { IfOk result (λ text. text ≡ start_text owed Happened.Full) }
{
    let text = text_of(alloc, OutputLine::StartFull { k: owed.ticket })?;
    let reply = owed_line(alloc, owed, busy(alloc))?;
    joined(text, reply)
}

fn start_exhausted(alloc: Global, owed: Owed, csn: Csn) -> Result<Bytes, NoMemory>
    ensures { IfOk result (λ text. text ≡ start_text owed (Happened.Exhausted csn)) }
{
    let k = owed.ticket;
    let text = text_of(alloc, OutputLine::StartExhausted { k, csn })?;
    let reply = owed_line(alloc, owed, used_up(alloc)?)?;
    joined(text, reply)
}

/// `start K ..`, with a reply where no ticket was begun.
pub(crate) fn start_text(alloc: Global, owed: Owed, happened: &Happened) -> Result<Bytes, NoMemory>
    ensures { IfOk result (λ text. text ≡ start_text owed happened.now) }
{
    match happened {
        Happened::Started { csn } => {
            let k = owed.ticket;
            text_of(alloc, OutputLine::Started { k, csn: *csn })
        }
        Happened::Full => start_full(alloc, owed),
        Happened::Exhausted { csn } => start_exhausted(alloc, owed, *csn),
        _ => Ok(Bytes::new(alloc)),
    }
}

/// `commit K ..`.
pub(crate) fn commit_text(alloc: Global, k: u32, happened: &Happened) -> Result<Bytes, NoMemory>
    ensures { IfOk result (λ text. text ≡ commit_text k happened.now) }
{
    let line = match happened {
        Happened::Committed { csn } => OutputLine::Committed { k, csn: *csn },
        Happened::Refused { result: answer } => OutputLine::CommitRefused {
            k,
            code: answer.code.number,
        },
        Happened::Stale { life, node_life } => OutputLine::CommitStale {
            k,
            life: *life,
            node_life: *node_life,
        },
        Happened::Exhausted { csn } => OutputLine::CommitExhausted { k, csn: *csn },
        Happened::Keeper => OutputLine::CommitKeeper { k },
        _ => return Ok(Bytes::new(alloc)),
    };
    text_of(alloc, line)
}

/// `settle K`, and the reply that is owed.
pub(crate) fn settle_text(
    alloc: Global,
    state: &State,
    owed: Option<Owed>,
    k: u32,
    happened: &Happened,
) -> Result<Bytes, NoMemory>
    ensures { IfOk result (λ text. text ≡ settle_text state.now owed k happened.now) }
{
    match happened {
        Happened::Settled => {
            let text = text_of(alloc, OutputLine::Settled { k })?;
            let reply = reply_owed(alloc, state, owed, success(alloc))?;
            joined(text, reply)
        }
        _ => Ok(Bytes::new(alloc)),
    }
}

/// The reply that is owed where the last commit failed.
fn reply_failed(
    alloc: Global,
    state: &State,
    owed: Option<Owed>,
    answer: &Option<LdapResult>,
) -> Result<Bytes, NoMemory>
    ensures { IfOk result (λ text. text ≡ reply_failed state.now owed answer.now) }
{
    match answer {
        Some(answer) => reply_owed(alloc, state, owed, answer.clone()?),
        None => Ok(Bytes::new(alloc)),
    }
}

/// `abort K`, and the reply that is owed where the last commit failed.
pub(crate) fn abort_text(
    alloc: Global,
    state: &State,
    owed: Option<Owed>,
    k: u32,
    happened: &Happened,
) -> Result<Bytes, NoMemory>
    ensures { IfOk result (λ text. text ≡ abort_text state.now owed k happened.now) }
{
    match happened {
        Happened::Aborted { result: answer } => {
            let text = text_of(alloc, OutputLine::Aborted { k })?;
            let reply = reply_failed(alloc, state, owed, answer)?;
            joined(text, reply)
        }
        _ => Ok(Bytes::new(alloc)),
    }
}

// ---- sessions

/// `acquire A B ..`.
pub(crate) fn acquire_text(
    alloc: Global,
    a: u16,
    b: u16,
    happened: &Happened,
) -> Result<Bytes, NoMemory>
    ensures { IfOk result (λ text. text ≡ acquire_text a b happened.now) }
{
    match happened {
        Happened::Acquired => text_of(alloc, OutputLine::Acquired { a, b }),
        Happened::AcquireRefused { fault } => text_of(
            alloc,
            OutputLine::AcquireRefused {
                a,
                b,
                fault: *fault,
            },
        ),
        _ => Ok(Bytes::new(alloc)),
    }
}

/// `release A B`.
pub(crate) fn release_text(alloc: Global, a: u16, b: u16) -> Result<Bytes, NoMemory>
    ensures { IfOk result (λ text. text ≡ release_text a b) }
{
    text_of(alloc, OutputLine::Released { a, b })
}

/// `offer A B ..`.
pub(crate) fn offer_text(
    alloc: Global,
    a: u16,
    b: u16,
    happened: &Happened,
) -> Result<Bytes, NoMemory>
    ensures { IfOk result (λ text. text ≡ offer_text a b happened.now) }
{
    match happened {
        Happened::Offered { u, csn, prev } => {
            let line = OutputLine::Offered {
                a,
                b,
                u: *u,
                csn: *csn,
                prev: *prev,
            };
            text_of(alloc, line)
        }
        Happened::OfferDone => text_of(alloc, OutputLine::OfferDone { a, b }),
        _ => Ok(Bytes::new(alloc)),
    }
}

/// `deliver B U ..`.
pub(crate) fn deliver_text(
    alloc: Global,
    b: u16,
    u: u64,
    happened: &Happened,
) -> Result<Bytes, NoMemory>
    ensures { IfOk result (λ text. text ≡ deliver_text b u happened.now) }
{
    match happened {
        Happened::Delivered { answer } => text_of(
            alloc,
            OutputLine::Delivered {
                b,
                u,
                answer: *answer,
            },
        ),
        _ => Ok(Bytes::new(alloc)),
    }
}

// ---- what is asked of a node

/// `vector N ..`, in order of replica id.
pub(crate) fn vector_text(alloc: Global, n: u16, happened: &Happened) -> Result<Bytes, NoMemory>
    ensures { IfOk result (λ text. text ≡ vector_text n happened.now) }
{
    let mut text = Bytes::new(alloc);
    match happened {
        Happened::Front { csns } => print_vector(alloc, &mut text, n, csns.as_slice())?,
        _ => {}
    }
    Ok(text)
}

fn put_entries(alloc: Global, out: &mut Bytes, entries: &[ShownEntry]) -> Result<(), NoMemory>
    ensures { OnOk result (out.new ≡ out.old ++ flat_map entry_lines entries.now) }
{
    for entry in entries {
        print_entry(alloc, out, entry)?;
    }
    Ok(())
}

/// `dump N COUNT`, and the lines of each entry.
pub(crate) fn dump_text(alloc: Global, n: u16, happened: &Happened) -> Result<Bytes, NoMemory>
    ensures { IfOk result (λ text. text ≡ dump_text n happened.now) }
{
    match happened {
        Happened::Dumped { entries } => {
            let count = entries.len() as u64;
            let mut text = text_of(alloc, OutputLine::Dumped { n, count })?;
            put_entries(alloc, &mut text, entries.as_slice())?;
            Ok(text)
        }
        _ => Ok(Bytes::new(alloc)),
    }
}

fn audit_counts(audit: Audit) -> Counts
    ensures { result ≡ audit_counts audit }
{
    Counts {
        present: audit.present,
        glue: audit.glue,
        conflict: audit.conflict,
        tombstone: audit.tombstone,
        taken: audit.taken,
        pending: audit.pending,
    }
}

/// `audit N present P ..`.
pub(crate) fn audit_text(alloc: Global, n: u16, happened: &Happened) -> Result<Bytes, NoMemory>
    ensures { IfOk result (λ text. text ≡ audit_text n happened.now) }
{
    match happened {
        Happened::Audited { audit } => {
            let counts = audit_counts(*audit);
            text_of(alloc, OutputLine::Audited { n, counts })
        }
        _ => Ok(Bytes::new(alloc)),
    }
}
