//! The start of a session, its answer and its end.

ghost use Rattle.std.specs.Prelude.{◌≡◌, IfOk};
ghost use Rattle.ber_core.specs.Cursor.{Gives as GivesElement, window};
ghost use Rattle.repl_wire.specs.Fault.{Gives};
ghost use Rattle.repl_wire.specs.Form.{start_value, start_bytes, started_reply, started_bytes, end_value, end_bytes};
ghost use Rattle.repl_wire.specs.Reading.{start_of, started_of, end_of};
ghost use Rattle.repl_wire.specs.Value.{front_of, start_inside, start_at, started_at, end_at};

use crate::extended::{answer_of, end_name, start_name, value_of, write_extended};
use crate::fault::WireFault;
use crate::vector::{replica_id, vector_bytes, vector_here};
use ber_core::{Cursor, ReadFault, ended, text, write_int, write_tlv};
use ldap_replies::write_reply;
use ldap_types::{Bytes, Code, LdapResult, NoMemory, Reply, ReplyOp, Request};
use std::alloc::Global;
use vector_core::{Start, Vector};

/// The end of a session: the supplier has no more.
#[derive(Clone, Copy, Debug, Drop, Eq, PartialEq)]
pub struct End {
    /// Of the supplier; any number is read.
    pub rid: u16,
}

/// The place at the front of a value.
pub(crate) fn front(bytes: &[u8]) -> Cursor<'_>
    ensures { window result ≡ front_of bytes.now }
{
    Cursor {
        start: 0,
        at: 0,
        left: bytes.len(),
        bytes,
    }
}

#[tactic(auto, unfolding(crate::specs::Form::start_value))]
fn start_value(alloc: Global, start: &Start) -> Result<Bytes, NoMemory>
    ensures { IfOk result (λ b. b ≡ start_value start.now) }
{
    let vector = vector_bytes(alloc, &start.front)?;
    let mut parts = Bytes::new(alloc);
    write_tlv(alloc, &mut parts, 0x04, start.suffix.as_slice())?;
    write_int(alloc, &mut parts, start.rid as i64)?;
    parts.extend_from_slice(vector.as_slice())?;
    let mut value = Bytes::new(alloc);
    write_tlv(alloc, &mut value, 0x30, parts.as_slice())?;
    Ok(value)
}

/// The message of a start with this id.
pub fn write_start(alloc: Global, id: u32, start: &Start) -> Result<Bytes, NoMemory>
    ensures { IfOk result (λ b. b ≡ start_bytes id start.now) }
{
    let value = start_value(alloc, start)?;
    write_extended(alloc, id, start_name(), value.as_slice())
}

#[tactic(auto, unfolding(crate::specs::Value::start_inside, ber_core::specs::Window::element))]
fn start_inside(alloc: Global, w: Cursor) -> Result<Start, ReadFault>
    ensures { GivesElement (λ s. s) result (start_inside (window w.entry)) }
{
    let (suffix, rest) = text(alloc, w)?;
    let (inside, rest) = rest.open_as(0x02)?;
    let rid = replica_id(1, 65534, inside)?;
    let (front, rest) = vector_here(alloc, rest)?;
    ended(rest)?;
    Ok(Start { suffix, rid, front })
}

#[tactic(auto, unfolding(crate::specs::Value::alone, ber_core::specs::Window::element))]
fn start_at(alloc: Global, value: &[u8]) -> Result<Start, ReadFault>
    ensures { GivesElement (λ s. s) result (start_at value.now) }
{
    let (inside, rest) = front(value).open_as(0x30)?;
    let start = start_inside(alloc, inside)?;
    ended(rest)?;
    Ok(start)
}

/// The start that a request is: an extended request named 2.999.389.1 whose value is the suffix, the
/// supplier's replica id from 1 to 65534, and its vector, the ten bytes of each CSN with replica ids from
/// 1 to 65534 that strictly rise. Its controls are not looked at, and its lengths may be longer than
/// needed.
///
/// The fault is the first one: the name before the value, and in the value the first element.
#[tactic(auto, unfolding(crate::specs::Reading::start_of))]
pub fn read_start(alloc: Global, request: &Request) -> Result<Start, WireFault>
    ensures exact { Gives result (start_of request.now) }
{
    let value = value_of(start_name(), &request.op)?;
    let start = start_at(alloc, value)?;
    Ok(start)
}

/// The answer to a start that is accepted: the code 0, and the consumer's vector.
pub fn started_reply(alloc: Global, id: u32, vector: &Vector) -> Result<Reply, NoMemory>
    ensures { IfOk result (λ r. r ≡ started_reply id vector.now) }
{
    let value = vector_bytes(alloc, vector)?;
    let result = LdapResult {
        code: Code::SUCCESS,
        matched: Bytes::new(alloc),
        text: Bytes::new(alloc),
    };
    Ok(Reply {
        id,
        op: ReplyOp::Extended {
            result,
            oid: None,
            value: Some(value),
        },
    })
}

/// The bytes of the answer to a start that is accepted.
pub fn write_started(alloc: Global, id: u32, vector: &Vector) -> Result<Bytes, NoMemory>
    ensures { IfOk result (λ b. b ≡ started_bytes id vector.now) }
{
    let reply = started_reply(alloc, id, vector)?;
    let mut out = Bytes::new(alloc);
    write_reply(alloc, &mut out, &reply)?;
    Ok(out)
}

#[tactic(auto, unfolding(crate::specs::Value::alone))]
fn started_at(alloc: Global, value: &[u8]) -> Result<Vector, ReadFault>
    ensures { GivesElement (λ v. v) result (started_at value.now) }
{
    let (vector, rest) = vector_here(alloc, front(value))?;
    ended(rest)?;
    Ok(vector)
}

/// The vector of a consumer that accepted a start: the value of an extended answer with the code 0, whose
/// texts and name are not looked at.
#[tactic(auto, unfolding(crate::specs::Reading::started_of))]
pub fn read_started(alloc: Global, reply: &Reply) -> Result<Vector, WireFault>
    ensures exact { Gives result (started_of reply.now) }
{
    let value = answer_of(&reply.op)?;
    let vector = started_at(alloc, value)?;
    Ok(vector)
}

/// The message of an end with this id.
#[tactic(auto, unfolding(crate::specs::Form::end_value))]
pub fn write_end(alloc: Global, id: u32, end: &End) -> Result<Bytes, NoMemory>
    ensures { IfOk result (λ b. b ≡ end_bytes id end.now) }
{
    let mut value = Bytes::new(alloc);
    write_int(alloc, &mut value, end.rid as i64)?;
    write_extended(alloc, id, end_name(), value.as_slice())
}

#[tactic(auto, unfolding(crate::specs::Value::end_at, crate::specs::Value::alone, ber_core::specs::Window::element))]
fn end_at(value: &[u8]) -> Result<End, ReadFault>
    ensures { GivesElement (λ e. e) result (end_at value.now) }
{
    let (inside, rest) = front(value).open_as(0x02)?;
    let rid = replica_id(0, 65535, inside)?;
    ended(rest)?;
    Ok(End { rid })
}

/// The end that a request is: an extended request named 2.999.389.2 whose value is a number from 0 to
/// 65535.
#[tactic(auto, unfolding(crate::specs::Reading::end_of))]
pub fn read_end(_alloc: Global, request: &Request) -> Result<End, WireFault>
    ensures exact { Gives result (end_of request.now) }
{
    let value = value_of(end_name(), &request.op)?;
    let end = end_at(value)?;
    Ok(end)
}
