//! One turn of a session over a stream.

ghost use Rattle.std.specs.Prelude.{◌≡◌, ◌≤◌};
ghost use Rattle.agreement_run.specs.Sides.{sides};
ghost use Rattle.agreement_run.specs.Turn.{AnswersSo, Turned};

use crate::inbox::Inbox;
use crate::next::{Next, next_reply};
use crate::sides::write_side;
use io_edge::Stream;
use ldap_replies::Reply;
use repl_data::NoMemory;
use replica_session::{SessionEnd, Supplier, Supply, SupplyStep};
use std::alloc::Global;
use std::sync::Wait;

/// What came of a turn.
#[derive(Drop)]
pub(crate) enum Turn {
    /// The reply to the last message was heard, and the next message is written.
    Sent,
    /// The reply ended the session so.
    Ended(SessionEnd),
    /// What came is no reply.
    NoReply,
    /// A read failed, or the stream ended before a reply was whole.
    Unanswered,
    /// The write of the next message failed.
    Unwritten,
}

/// Hears a reply, and writes the message that the supplier says then.
fn answer<S: Supply, T: Stream>(
    alloc: Global,
    supplier: &mut Supplier,
    supply: &mut S,
    stream: &mut T,
    reply: &Reply,
) -> Result<Turn, NoMemory>
    ensures answers { AnswersSo S.supplying supplier.old supply.old reply.now (T.contents stream.old) (T.Sink.faults stream.old) result supplier.new supply.new (T.contents stream.new) (T.Sink.faults stream.new) }
    ensures later { T.Sink.faults stream.old ≤ T.Sink.faults stream.new }
    ensures left { T.left stream.new ≡ T.left stream.old }
    ensures faults { T.Source.faults stream.new ≡ T.Source.faults stream.old }
{
    let Ok(step) = supplier.hear(alloc, supply, reply) else {
        return Err(NoMemory);
    };
    let message = match step {
        SupplyStep::Ended(end) => return Ok(Turn::Ended(end)),
        SupplyStep::Send(message) => message,
    };
    let Ok(()) = write_side(stream, message.as_slice()) else {
        return Ok(Turn::Unwritten);
    };
    Ok(Turn::Sent)
}

/// Waits for the reply to the last message, hears it, and writes the next message, in one write.
pub(crate) fn take_turn<R: Wait, S: Supply, T: Stream>(
    rt: &R,
    alloc: Global,
    supplier: &mut Supplier,
    supply: &mut S,
    stream: &mut T,
    inbox: &mut Inbox,
) -> Result<Turn, NoMemory>
    ensures { Turned S.supplying supplier.old supply.old inbox.old (sides (T.left stream.old) (T.contents stream.old) (T.Source.faults stream.old) (T.Sink.faults stream.old)) result supplier.new supply.new inbox.new (sides (T.left stream.new) (T.contents stream.new) (T.Source.faults stream.new) (T.Sink.faults stream.new)) }
{
    let Ok(next) = next_reply(rt, alloc, stream, inbox) else {
        return Err(NoMemory);
    };
    match next {
        Next::Heard(reply) => answer(alloc, supplier, supply, stream, &reply),
        Next::NoReply => Ok(Turn::NoReply),
        Next::Unanswered => Ok(Turn::Unanswered),
    }
}
