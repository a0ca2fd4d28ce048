//! The next reply that a stream brings.

ghost use Rattle.std.specs.Prelude.{◌≡◌, ◌≤◌};
ghost use Rattle.agreement_run.specs.Waiting.{Meets};

use crate::inbox::{Arrival, Inbox};
use io_edge::Stream;
use ldap_replies::{ReadFault, Reply, read_reply};
use repl_data::NoMemory;
use std::alloc::Global;
use std::sync::Wait;

/// What came of waiting for a reply.
#[derive(Drop)]
pub(crate) enum Next {
    /// This one.
    Heard(Reply),
    /// The bytes are no reply.
    NoReply,
    /// A read failed, or the stream ended before a reply was whole.
    Unanswered,
}

/// Waits for the next reply.
pub(crate) fn next_reply<R: Wait, T: Stream>(
    rt: &R,
    alloc: Global,
    stream: &mut T,
    inbox: &mut Inbox,
) -> Result<Next, NoMemory>
    ensures meets { Meets inbox.old (T.left stream.old) (T.Source.faults stream.old) result inbox.new (T.left stream.new) (T.Source.faults stream.new) }
    ensures later { T.Source.faults stream.old ≤ T.Source.faults stream.new }
    ensures contents { T.contents stream.new ≡ T.contents stream.old }
    ensures faults { T.Sink.faults stream.new ≡ T.Sink.faults stream.old }
{
    for _ in rt.forever() {
        match read_reply(alloc, inbox.bytes()) {
            Ok((reply, size)) => {
                inbox.drop_front(size);
                return Ok(Next::Heard(reply));
            }
            Err(ReadFault::More) => {}
            Err(ReadFault::NoMemory) => return Err(NoMemory),
            Err(ReadFault::NotLdap { .. }) => return Ok(Next::NoReply),
        }
        let Ok(arrival) = inbox.receive(stream) else {
            return Err(NoMemory);
        };
        match arrival {
            Arrival::Bytes => {}
            Arrival::End => return Ok(Next::Unanswered),
            Arrival::Fault => return Ok(Next::Unanswered),
        }
    }
    unreachable!()
}
