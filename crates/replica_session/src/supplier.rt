//! The supplier's side of a session.

ghost use Rattle.std.specs.Prelude.{◌≡◌, [], IfOk, OnOk, OnErr};
ghost use Rattle.std.specs.Option.{option_copied};
ghost use Rattle.replica_session.specs.Calls.{Supplying};
ghost use Rattle.replica_session.specs.Messages.{bind_bytes};
ghost use Rattle.replica_session.specs.Supplier.{kind_of, written_result, bound_result, extended_result, awaited_id, awaited_result, fitting, heard, accepted, started_heard, one_more, message, IsPast, IsNext, SendsStart, SendsNext, HearsSo, AsksFront, AsksNext, Asks, begun};

use crate::bind::bind_bytes;
use crate::number::{BIND, FIRST, START, next_id};
use crate::supply::Supply;
use ldap_types::{Bytes, LdapResult, NoMemory, Reply, ReplyOp};
use repl_data::{Body, Suffix};
use repl_wire::{End, WireFault, read_started, write_end, write_start, write_update};
use std::alloc::Global;
use vector_core::{Offer, Start, Vector};

/// How a session ended.
#[derive(Clone, Debug, Drop)]
pub enum SessionEnd {
    /// The supplier had no more, and the consumer answered its end with 0. So many updates were sent, and
    /// answered with 0.
    Done { sent: u64 },
    /// The consumer's answer has another code than 0. So many updates were answered with 0 before it.
    Refused { answer: LdapResult, sent: u64 },
    /// The reply does not answer the last message: it has another number or is of another kind, or it accepts
    /// the start and its vector cannot be read.
    Strange,
}

/// What a supplier does when it has heard a reply.
#[derive(Clone, Debug, Drop)]
pub enum SupplyStep {
    /// It sends this message.
    Send(Bytes),
    /// The session is over.
    Ended(SessionEnd),
}

/// What kind of write an update travels as.
#[derive(Clone, Copy, Debug, Drop, Eq, PartialEq)]
pub(crate) enum Kind {
    Add,
    Modify,
    Rename,
    Delete,
}

/// The message that has no answer yet.
#[derive(Clone, Copy, Debug, Drop, Eq, PartialEq)]
pub(crate) enum Awaited {
    /// There is none: the session has not begun, or is over.
    Nothing,
    Bind,
    Start,
    Update { id: u32, kind: Kind },
    End { id: u32 },
}

/// What a reply means.
#[derive(Debug, Drop)]
pub(crate) enum Heard {
    Over(SessionEnd),
    /// The bind was accepted.
    Bound,
    /// The start was accepted, by a consumer with this vector.
    Started(Vector),
    /// The update was taken. The next message has this number.
    Taken { id: u32 },
}

/// One session of a supplier. It has at most one message without an answer.
#[derive(Debug, Drop)]
pub struct Supplier {
    rid: u16,
    suffix: Bytes,
    awaited: Awaited,
    /// What the consumer has: its vector, raised by each update that was sent.
    cursor: Vector,
    /// How many updates were answered with 0. The count stands still at `u64::MAX`.
    sent: u64,
}

/// The kind of write that a change travels as.
fn kind_of(body: &Body) -> Kind
    ensures { result ≡ kind_of body.now }
{
    match body {
        Body::Add { .. } => Kind::Add,
        Body::Mod { .. } => Kind::Modify,
        Body::Ren { .. } => Kind::Rename,
        Body::Del => Kind::Delete,
    }
}

/// The result of a write of this kind.
fn written_result(kind: Kind, op: &ReplyOp) -> Option<&LdapResult>
    ensures { option_copied result ≡ written_result kind op.now }
{
    match kind {
        Kind::Add => match op {
            ReplyOp::Add(result) => Some(result),
            _ => None,
        },
        Kind::Modify => match op {
            ReplyOp::Modify(result) => Some(result),
            _ => None,
        },
        Kind::Rename => match op {
            ReplyOp::Rename(result) => Some(result),
            _ => None,
        },
        Kind::Delete => match op {
            ReplyOp::Delete(result) => Some(result),
            _ => None,
        },
    }
}

/// The result of a bind.
fn bound_result(op: &ReplyOp) -> Option<&LdapResult>
    ensures { option_copied result ≡ bound_result op.now }
{
    match op {
        ReplyOp::Bind(result) => Some(result),
        _ => None,
    }
}

/// The result of an extended operation.
fn extended_result(op: &ReplyOp) -> Option<&LdapResult>
    ensures { option_copied result ≡ extended_result op.now }
{
    match op {
        ReplyOp::Extended { result, .. } => Some(result),
        _ => None,
    }
}

/// The number of the message that has no answer yet, and 0 where there is none.
fn awaited_id(awaited: Awaited) -> u32
    ensures { result ≡ awaited_id awaited }
{
    match awaited {
        Awaited::Nothing => 0,
        Awaited::Bind => BIND,
        Awaited::Start => START,
        Awaited::Update { id, .. } | Awaited::End { id } => id,
    }
}

/// The result in a reply of the kind that is awaited.
fn awaited_result(awaited: Awaited, op: &ReplyOp) -> Option<&LdapResult>
    ensures { option_copied result ≡ awaited_result awaited op.now }
{
    match awaited {
        Awaited::Nothing => None,
        Awaited::Bind => bound_result(op),
        Awaited::Start | Awaited::End { .. } => extended_result(op),
        Awaited::Update { kind, .. } => written_result(kind, op),
    }
}

/// The result in a reply to the message that has no answer yet.
fn fitting(awaited: Awaited, reply: &Reply) -> Option<&LdapResult>
    ensures { option_copied result ≡ fitting awaited reply.now }
{
    if reply.id == awaited_id(awaited) {
        awaited_result(awaited, &reply.op)
    } else {
        None
    }
}

/// What the answer to a start means that is accepted.
fn started_heard(alloc: Global, reply: &Reply) -> Result<Heard, NoMemory>
    ensures { IfOk result (λ h. h ≡ started_heard reply.now) }
{
    match read_started(alloc, reply) {
        Ok(vector) => Ok(Heard::Started(vector)),
        Err(WireFault::NoMemory) => Err(NoMemory),
        Err(WireFault::Bad { .. }) => Ok(Heard::Over(SessionEnd::Strange)),
    }
}

/// The message for what the supply has, with this number, and what is awaited then.
fn message(alloc: Global, rid: u16, id: u32, offer: &Offer) -> Result<(Bytes, Awaited), NoMemory>
    ensures { IfOk result (λ m. m ≡ message rid id offer.now) }
{
    match offer {
        Offer::Next(update) => {
            let bytes = write_update(alloc, id, update)?;
            let kind = kind_of(&update.change.body);
            Ok((bytes, Awaited::Update { id, kind }))
        }
        Offer::Done => {
            let bytes = write_end(alloc, id, &End { rid })?;
            Ok((bytes, Awaited::End { id }))
        }
    }
}

/// Raises the cursor by what is sent.
fn pass(alloc: Global, cursor: &mut Vector, offer: &Offer) -> Result<(), NoMemory>
    ensures ok { OnOk result (IsPast cursor.old cursor.new offer.now) }
    ensures err { OnErr result (cursor.new ≡ cursor.old) }
{
    match offer {
        Offer::Next(update) => cursor.raise(alloc, update.change.csn),
        Offer::Done => Ok(()),
    }
}

/// The message that comes next, and what is awaited then. The cursor is raised by it.
fn next_message<S: Supply>(
    alloc: Global,
    supply: &mut S,
    rid: u16,
    id: u32,
    cursor: &mut Vector,
) -> Result<(Bytes, Awaited), NoMemory>
    ensures ok { IfOk result (λ m. IsNext S.supplying rid id cursor.old supply.old m cursor.new supply.new) }
    ensures err { OnErr result (cursor.new ≡ cursor.old) }
    ensures asked { OnErr result (AsksNext S.supplying cursor.old supply.old supply.new) }
{
    let offer = supply.next(alloc, cursor)?;
    let sent = message(alloc, rid, id, &offer)?;
    pass(alloc, cursor, &offer)?;
    Ok(sent)
}

impl Supplier {
    /// A supplier with this replica id and this suffix, whose session has not begun.
    pub fn new(alloc: Global, rid: u16, suffix: &Suffix) -> Result<Supplier, NoMemory>
        ensures { IfOk result (λ s. s ≡ record { rid = rid; suffix = suffix.now.name; awaited = Awaited.Nothing; cursor = []; sent = 0 }) }
    {
        Ok(Supplier {
            rid,
            suffix: Bytes::from_slice(alloc, suffix.name.as_slice())?,
            awaited: Awaited::Nothing,
            cursor: Vector::new(alloc)?,
            sent: 0,
        })
    }

    /// Begins the session: the message of the bind, with the number 1. A session that was begun before is left.
    pub fn first(&mut self, alloc: Global) -> Result<Bytes, NoMemory>
        ensures ok { IfOk result (λ b. (b ≡ bind_bytes) × (self.new ≡ begun self.old)) }
        ensures err { OnErr result (self.new ≡ self.old) }
    {
        let bytes = bind_bytes(alloc)?;
        self.awaited = Awaited::Bind;
        self.sent = 0;
        Ok(bytes)
    }

    /// What the reply means that carries the code 0 and answers the last message.
    fn accepted(&self, alloc: Global, reply: &Reply) -> Result<Heard, NoMemory>
        ensures { IfOk result (λ h. h ≡ accepted self.now.awaited self.now.sent reply.now) }
    {
        match self.awaited {
            Awaited::Nothing => Ok(Heard::Over(SessionEnd::Strange)),
            Awaited::Bind => Ok(Heard::Bound),
            Awaited::Start => started_heard(alloc, reply),
            Awaited::Update { id, .. } => Ok(Heard::Taken { id: next_id(id) }),
            Awaited::End { .. } => Ok(Heard::Over(SessionEnd::Done { sent: self.sent })),
        }
    }

    /// What the reply means.
    fn heard(&self, alloc: Global, reply: &Reply) -> Result<Heard, NoMemory>
        ensures { IfOk result (λ h. h ≡ heard self.now.awaited self.now.sent reply.now) }
    {
        let Some(answer) = fitting(self.awaited, reply) else {
            return Ok(Heard::Over(SessionEnd::Strange));
        };
        if answer.code.number == 0 {
            return self.accepted(alloc, reply);
        }
        let answer = answer.clone()?;
        Ok(Heard::Over(SessionEnd::Refused {
            answer,
            sent: self.sent,
        }))
    }

    /// Sends the start, with the vector that the supply has now.
    fn send_start<S: Supply>(&mut self, alloc: Global, supply: &mut S) -> Result<Bytes, NoMemory>
        ensures ok { IfOk result (λ b. SendsStart S.supplying self.old supply.old b self.new supply.new) }
        ensures err { OnErr result (self.new ≡ self.old) }
        ensures asked { OnErr result (AsksFront S.supplying supply.old supply.new) }
    {
        let front = supply.front(alloc)?;
        let suffix = self.suffix.clone()?;
        let start = Start {
            suffix,
            rid: self.rid,
            front,
        };
        let bytes = write_start(alloc, START, &start)?;
        self.awaited = Awaited::Start;
        Ok(bytes)
    }

    /// Sends the first message behind the start, from the consumer's vector.
    fn send_first<S: Supply>(
        &mut self,
        alloc: Global,
        supply: &mut S,
        vector: Vector,
    ) -> Result<Bytes, NoMemory>
        ensures ok { IfOk result (λ b. SendsNext S.supplying vector 0 FIRST self.old supply.old b self.new supply.new) }
        ensures err { OnErr result (self.new ≡ self.old) }
        ensures asked { OnErr result (AsksNext S.supplying vector supply.old supply.new) }
    {
        let mut cursor = vector;
        let (bytes, awaited) = next_message(alloc, supply, self.rid, FIRST, &mut cursor)?;
        self.awaited = awaited;
        self.cursor = cursor;
        self.sent = 0;
        Ok(bytes)
    }

    /// Sends the message behind an update that was taken.
    fn send_next<S: Supply>(
        &mut self,
        alloc: Global,
        supply: &mut S,
        id: u32,
    ) -> Result<Bytes, NoMemory>
        ensures ok { IfOk result (λ b. SendsNext S.supplying self.old.cursor (one_more self.old.sent) id self.old supply.old b self.new supply.new) }
        ensures err { OnErr result (self.new ≡ self.old) }
        ensures asked { OnErr result (AsksNext S.supplying self.old.cursor supply.old supply.new) }
    {
        let (bytes, awaited) = next_message(alloc, supply, self.rid, id, &mut self.cursor)?;
        self.awaited = awaited;
        self.sent = self.sent.saturating_add(1);
        Ok(bytes)
    }

    /// The session is over.
    fn end(&mut self, end: SessionEnd) -> SupplyStep
        ensures step { result ≡ SupplyStep.Ended end }
        ensures state { self.new ≡ record self.old { awaited = Awaited.Nothing } }
    {
        self.awaited = Awaited::Nothing;
        SupplyStep::Ended(end)
    }

    /// Hears a reply, and sends the next message or ends the session.
    ///
    /// A reply ends it as [`SessionEnd::Strange`] where it does not answer the last message, and as
    /// [`SessionEnd::Refused`] where its code is not 0. The answer to the bind lets the start go out, with the
    /// vector that the supply has then. The answer to the start, and to each update, lets that go out which the
    /// supply has beyond the cursor, which is the consumer's vector, raised by each update that was sent; where
    /// it has nothing, the end goes out, whose answer makes it [`SessionEnd::Done`].
    ///
    /// After want of memory the supplier is as it was; the supply may have been asked.
    ///
    /// Costs what the call of the supply does, and time in the size of the message.
    pub fn hear<S: Supply>(
        &mut self,
        alloc: Global,
        supply: &mut S,
        reply: &Reply,
    ) -> Result<SupplyStep, NoMemory>
        ensures ok { IfOk result (λ step. HearsSo S.supplying self.old supply.old (heard self.old.awaited self.old.sent reply.now) step self.new supply.new) }
        ensures err { OnErr result (self.new ≡ self.old) }
        ensures asked { OnErr result (Asks S.supplying supply.old supply.new) }
    {
        match self.heard(alloc, reply)? {
            Heard::Over(end) => Ok(self.end(end)),
            Heard::Bound => Ok(SupplyStep::Send(self.send_start(alloc, supply)?)),
            Heard::Started(vector) => Ok(SupplyStep::Send(self.send_first(alloc, supply, vector)?)),
            Heard::Taken { id } => Ok(SupplyStep::Send(self.send_next(alloc, supply, id)?)),
        }
    }
}
