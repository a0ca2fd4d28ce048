//! The consumer's side of a session.

ghost use Rattle.std.specs.Prelude.{◌≡◌, MatchOption, IfOk, OnErr, Some, None, Ok, Err};
ghost use Rattle.repl_wire.specs.Keys.{HasKeysOfSpellings};
ghost use Rattle.repl_wire.specs.Reading.{start_of, end_of};
ghost use Rattle.repl_wire.specs.Update.{update_of};
ghost use Rattle.replica_session.specs.Answers.{unreadable};
ghost use Rattle.replica_session.specs.Consumer.{reply_with, is_start, is_extended, end_reply, Starts, StartsSo, Updates, UpdatesSo, Answers, StarvesAtStart, StarvesAtUpdate, Starves};

use crate::answers::{acquire_result, apply_result, not_holder, plain, unreadable};
use crate::refusal::reply_with;
use crate::take::Take;
use ldap_types::{Code, NoMemory, Op, Reply, Request};
use repl_data::Update;
use repl_wire::{WireFault, read_end, read_start, read_update, start_name, started_reply};
use std::alloc::Global;
use vector_core::Start;

/// One connection of a consumer, on which a supplier sends.
#[derive(Debug, Drop)]
pub struct Consumer {
    /// The supplier of the last start on this connection that was accepted. It holds the node.
    from: Option<u16>,
}

/// What is answered to an end: it changes nothing.
fn end_reply(alloc: Global, request: &Request) -> Result<Reply, NoMemory>
    ensures { IfOk result (λ r. r ≡ end_reply request.now) }
{
    match read_end(alloc, request) {
        Ok(_) => Ok(reply_with(request, plain(alloc, Code::SUCCESS))),
        Err(WireFault::NoMemory) => Err(NoMemory),
        Err(WireFault::Bad { .. }) => unreadable_reply(alloc, request),
    }
}

fn unreadable_reply(alloc: Global, request: &Request) -> Result<Reply, NoMemory>
    ensures { IfOk result (λ r. r ≡ reply_with request.now unreadable) }
{
    let told = unreadable(alloc)?;
    Ok(reply_with(request, told))
}

/// The request has the name of a start.
fn is_start(op: &Op) -> bool
    ensures { result ≡ is_start op.now }
{
    match op {
        Op::Extended { oid, .. } => oid.as_slice() == start_name(),
        _ => false,
    }
}

/// The request is an extended one.
fn is_extended(op: &Op) -> bool
    ensures { result ≡ is_extended op.now }
{
    matches!(op, Op::Extended { .. })
}

impl Consumer {
    /// A connection on which no start came.
    pub fn new() -> Consumer
        ensures { result ≡ record { from = None } }
    {
        Consumer { from: None }
    }

    /// A start that was read.
    fn start<T: Take>(
        &mut self,
        alloc: Global,
        take: &mut T,
        request: &Request,
        start: &Start,
        now: u32,
    ) -> Result<Reply, NoMemory>
        ensures ok { IfOk result (λ r. Starts T.taking request.now start.now now self.old take.old r self.new take.new) }
        ensures short { OnErr result (StarvesAtStart T.taking start.now now self.old take.old self.new take.new) }
    {
        if let Err(fault) = take.acquire(alloc, start, now) {
            let told = acquire_result(alloc, fault)?;
            return Ok(reply_with(request, told));
        }
        self.from = Some(start.rid);
        let vector = take.front(alloc)?;
        started_reply(alloc, request.id, &vector)
    }

    /// A request with the name of a start.
    fn hear_start<T: Take>(
        &mut self,
        alloc: Global,
        take: &mut T,
        request: &Request,
        now: u32,
    ) -> Result<Reply, NoMemory>
        ensures ok { IfOk result (λ r. StartsSo T.taking request.now now self.old take.old r self.new take.new (start_of request.now)) }
        ensures short { OnErr result (Starves T.taking request.now now self.old take.old self.new take.new) }
    {
        match read_start(alloc, request) {
            Ok(start) => self.start(alloc, take, request, &start, now),
            Err(WireFault::NoMemory) => Err(NoMemory),
            Err(WireFault::Bad { .. }) => unreadable_reply(alloc, request),
        }
    }

    /// An update that was read.
    fn update<T: Take>(
        &mut self,
        alloc: Global,
        take: &mut T,
        request: &Request,
        update: &Update,
        now: u32,
    ) -> Result<Reply, NoMemory>
        requires { HasKeysOfSpellings update.now }
        ensures ok { IfOk result (λ r. Updates T.taking request.now update.now now self.old.from take.old r take.new) }
        ensures short { OnErr result (StarvesAtUpdate T.taking update.now now self.old.from take.old take.new) }
        ensures state { self.new ≡ self.old }
    {
        let Some(from) = self.from else {
            let told = not_holder(alloc)?;
            return Ok(reply_with(request, told));
        };
        let answer = take.apply(alloc, from, update, now);
        let told = apply_result(alloc, answer)?;
        Ok(reply_with(request, told))
    }

    /// A request that is no extended one.
    fn hear_update<T: Take>(
        &mut self,
        alloc: Global,
        take: &mut T,
        request: &Request,
        now: u32,
    ) -> Result<Reply, NoMemory>
        ensures ok { IfOk result (λ r. UpdatesSo T.taking request.now now self.old take.old r take.new (update_of request.now)) }
        ensures short { OnErr result (Starves T.taking request.now now self.old take.old self.new take.new) }
        ensures state { self.new ≡ self.old }
    {
        match read_update(alloc, request) {
            Ok(update) => self.update(alloc, take, request, &update, now),
            Err(WireFault::NoMemory) => Err(NoMemory),
            Err(WireFault::Bad { .. }) => unreadable_reply(alloc, request),
        }
    }

    /// Hears a message of a supplier at the time `now`, in seconds since 1970, and answers it.
    ///
    /// A start that the node accepts is answered with 0 and the vector that the node has then, and updates on this
    /// connection are from its supplier from then on. An end is answered with 0 and changes nothing. An update is
    /// applied, or answered with `not holder` where no start was accepted. A message that cannot be read is answered
    /// with 2 and `unreadable`, and so is one that is none of these. The codes and texts of all answers are one
    /// table (`specs/Answers.antt`).
    ///
    /// Want of memory comes before the node is asked, or after it was asked and took no update. A start that was
    /// accepted holds the node then.
    ///
    /// Costs what the call of the node does, and time in the size of the message.
    pub fn hear<T: Take>(
        &mut self,
        alloc: Global,
        take: &mut T,
        request: &Request,
        now: u32,
    ) -> Result<Reply, NoMemory>
        ensures ok { IfOk result (λ r. Answers T.taking request.now now self.old take.old r self.new take.new) }
        ensures short { OnErr result (Starves T.taking request.now now self.old take.old self.new take.new) }
    {
        if is_start(&request.op) {
            return self.hear_start(alloc, take, request, now);
        }
        if is_extended(&request.op) {
            return end_reply(alloc, request);
        }
        self.hear_update(alloc, take, request, now)
    }

    /// The connection has ended: the supplier of its last accepted start holds the node no longer. Takes no memory.
    pub fn closed<T: Take>(&mut self, take: &mut T)
        ensures released { MatchOption self.old.from (take.new ≡ take.old) (λ rid. T.taking.releases take.old rid take.new) }
        ensures state { self.new ≡ record { from = None } }
    {
        if let Some(rid) = self.from {
            self.from = None;
            take.release(rid);
        }
    }
}
