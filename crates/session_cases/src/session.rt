//! Whole sessions: how many updates there are, and what is answered otherwise, and where.

use crate::ends::{Offered, Told};
use crate::message::{NOW, over_bytes, request};
use case_changes::{next_csn, next_uid};
use case_lines::{CaseFault, Fields, or_memory, tell_text};
use ldap_types::{Bytes, Code, LdapResult, Reply, ReplyOp};
use repl_data::{AvaList, Malformed, Rdn, Suffix};
use replica_session::{
    AcquireFault, Applied, ApplyFault, Consumer, SessionEnd, Supplier, SupplyStep,
};
use std::alloc::Global;
use std::fmt::Write;

/// What is done to a reply before the supplier hears it.
#[derive(Clone, Copy, Debug, Eq, PartialEq)]
enum Altered {
    Nothing,
    /// It has the next number.
    Id,
    /// It is the end of a search.
    Kind,
    /// It has no value.
    Value,
    /// It has this code.
    Code(u32),
}

/// Which message's reply is altered, counted from 1 at the bind.
#[derive(Clone, Copy, Debug)]
struct Alteration {
    message: u64,
    altered: Altered,
}

fn plain(alloc: Global, number: u32) -> LdapResult {
    LdapResult {
        code: Code { number },
        matched: Bytes::new(alloc),
        text: Bytes::new(alloc),
    }
}

fn alter(alloc: Global, altered: Altered, reply: Reply) -> Reply {
    let Reply { id, op } = reply;
    match altered {
        Altered::Nothing => Reply { id, op },
        Altered::Id => Reply {
            id: id.saturating_add(1),
            op,
        },
        Altered::Kind => Reply {
            id,
            op: ReplyOp::Done(plain(alloc, 0)),
        },
        Altered::Value => Reply {
            id,
            op: ReplyOp::Extended {
                result: plain(alloc, 0),
                oid: None,
                value: None,
            },
        },
        Altered::Code(number) => coded(alloc, id, op, number),
    }
}

fn coded(alloc: Global, id: u32, op: ReplyOp, number: u32) -> Reply {
    let result = plain(alloc, number);
    let op = match op {
        ReplyOp::Bind(_) => ReplyOp::Bind(result),
        ReplyOp::Delete(_) => ReplyOp::Delete(result),
        _ => ReplyOp::Extended {
            result,
            oid: None,
            value: None,
        },
    };
    Reply { id, op }
}

/// How the node answers the start.
fn start_answer(fields: &mut Fields<'_>) -> Result<AcquireFault, CaseFault> {
    match fields.word()? {
        "wrong_suffix" => Ok(AcquireFault::WrongSuffix),
        "same_id" => Ok(AcquireFault::SameId),
        "busy" => {
            let rid = fields
                .word()?
                .parse::<u16>()
                .ok()
                .ok_or(CaseFault::Argument)?;
            Ok(AcquireFault::Busy { rid })
        }
        "skew" => Ok(AcquireFault::Skew {
            csn: next_csn(fields)?,
            now: NOW,
        }),
        _ => Err(CaseFault::Argument),
    }
}

/// How the node answers an update.
fn update_answer(fields: &mut Fields<'_>) -> Result<Result<Applied, ApplyFault>, CaseFault> {
    let fault = match fields.word()? {
        "duplicate" => return Ok(Ok(Applied::Duplicate)),
        "not_holder" => ApplyFault::NotHolder,
        "malformed" => ApplyFault::Malformed(Malformed::Rid),
        "own_unknown" => ApplyFault::OwnUnknown {
            csn: next_csn(fields)?,
        },
        "skew" => ApplyFault::Skew {
            csn: next_csn(fields)?,
            now: NOW,
        },
        "gap" => ApplyFault::Gap {
            have: next_csn(fields)?,
            prev: next_csn(fields)?,
        },
        "missing" => ApplyFault::Missing {
            id: next_uid(fields)?,
        },
        "keeper" => ApplyFault::KeeperFault,
        _ => return Err(CaseFault::Argument),
    };
    Ok(Err(fault))
}

/// How a reply is altered.
fn next_altered(fields: &mut Fields<'_>) -> Result<Altered, CaseFault> {
    match fields.word()? {
        "id" => Ok(Altered::Id),
        "kind" => Ok(Altered::Kind),
        "value" => Ok(Altered::Value),
        "code" => {
            let number = fields
                .word()?
                .parse::<u32>()
                .ok()
                .ok_or(CaseFault::Argument)?;
            Ok(Altered::Code(number))
        }
        _ => Err(CaseFault::Argument),
    }
}

/// Reads what is answered otherwise.
fn exception(node: &mut Told, fields: &mut Fields<'_>) -> Result<Alteration, CaseFault> {
    let mut alters = Alteration {
        message: 0,
        altered: Altered::Nothing,
    };
    match fields.word()? {
        "plain" => {}
        "start" => node.start = Err(start_answer(fields)?),
        "update" => {
            node.at = fields
                .word()?
                .parse::<u32>()
                .ok()
                .ok_or(CaseFault::Argument)?;
            node.update = update_answer(fields)?;
        }
        "message" => {
            alters.message = fields.number()?;
            alters.altered = next_altered(fields)?;
        }
        _ => return Err(CaseFault::Argument),
    }
    Ok(alters)
}

fn tell_end(told: &mut String, end: &SessionEnd) -> Result<(), CaseFault> {
    match end {
        SessionEnd::Done { sent } => write!(told, "done {sent}")?,
        SessionEnd::Refused { answer, sent } => {
            let code = answer.code.number;
            write!(told, "refused {code} ")?;
            tell_text(told, answer.text.as_slice())?;
            write!(told, " {sent}")?;
        }
        SessionEnd::Strange => told.push_str("strange")?,
    }
    Ok(())
}

fn example_suffix(alloc: Global) -> Result<Suffix, CaseFault> {
    let name = or_memory(Bytes::from_slice(alloc, b"dc=example"))?;
    let avas = AvaList::new(alloc);
    Ok(Suffix {
        name,
        rdn: Rdn { avas },
    })
}

/// Runs the session of supplier 1. Tells its end, how many messages the supplier sent, and who holds the node before
/// and after the connection has ended.
pub fn answer(alloc: Global, fields: &mut Fields<'_>, told: &mut String) -> Result<(), CaseFault> {
    let count = fields
        .word()?
        .parse::<u16>()
        .ok()
        .ok_or(CaseFault::Argument)?;
    let mut supply = Offered::deletes(alloc, count)?;
    let mut node = Told::new();
    let alters = exception(&mut node, fields)?;
    let mut consumer = Consumer::new();
    let mut supplier = or_memory(Supplier::new(alloc, 1, &example_suffix(alloc)?))?;
    let (end, messages) = run(
        alloc,
        &mut supplier,
        &mut supply,
        &mut consumer,
        &mut node,
        alters,
    )?;
    tell_end(told, &end)?;
    write!(told, ", {messages} messages, ")?;
    node.tell_holder(told)?;
    consumer.closed(&mut node);
    told.push_str(", then ")?;
    node.tell_holder(told)
}

/// The answer with 0 to the supplier's bind.
fn bound(alloc: Global, supplier: &mut Supplier) -> Result<Reply, CaseFault> {
    let bytes = or_memory(supplier.first(alloc))?;
    let bind = request(alloc, bytes.as_slice())?;
    Ok(Reply {
        id: bind.id,
        op: ReplyOp::Bind(plain(alloc, 0)),
    })
}

/// What the consumer answers to the message of these bytes.
fn answered(
    alloc: Global,
    consumer: &mut Consumer,
    node: &mut Told,
    bytes: &[u8],
) -> Result<Reply, CaseFault> {
    let message = request(alloc, bytes)?;
    let answer = or_memory(consumer.hear(alloc, node, &message, NOW))?;
    over_bytes(alloc, &answer)
}

/// The end, and how many messages the supplier sent.
fn run(
    alloc: Global,
    supplier: &mut Supplier,
    supply: &mut Offered,
    consumer: &mut Consumer,
    node: &mut Told,
    alters: Alteration,
) -> Result<(SessionEnd, u64), CaseFault> {
    let mut reply = bound(alloc, supplier)?;
    for messages in 1..u64::MAX {
        if messages == alters.message {
            reply = alter(alloc, alters.altered, reply);
        }
        match or_memory(supplier.hear(alloc, supply, &reply))? {
            SupplyStep::Ended(end) => return Ok((end, messages)),
            SupplyStep::Send(bytes) => {
                reply = answered(alloc, consumer, node, bytes.as_slice())?;
            }
        }
    }
    Err(CaseFault::Argument)
}
