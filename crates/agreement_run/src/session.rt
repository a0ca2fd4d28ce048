//! One session over one stream.

ghost use Rattle.std.specs.Prelude.{◌≡◌, []};
ghost use Rattle.agreement_run.specs.Sides.{sides};
ghost use Rattle.agreement_run.specs.Running.{Runs, new_supplier};

use crate::end::RunEnd;
use crate::inbox::Inbox;
use crate::sides::write_side;
use crate::turn::{Turn, take_turn};
use io_edge::Stream;
use repl_data::{NoMemory, Suffix};
use replica_session::{SessionEnd, Supplier, Supply};
use std::alloc::Global;
use std::sync::Wait;

/// Runs one session of the supplier `rid`, over a stream to its consumer, from the bind on. What the supplier sends is
/// written message by message, each in one write, and each once the one before it is answered.
///
/// It ends as the supplier's session does, by a reply: [`SessionEnd::Done`] where the answer to the end has the code 0,
/// [`SessionEnd::Refused`] where any answer has another code, and [`SessionEnd::Strange`] where a reply does not answer the
/// last message. It ends as `Strange` also where the bytes behind the last reply are at fault (RFC 4511, section 5.1). It is
/// [`RunEnd::Lost`] where a read or a write failed, or where the stream ended before there was a whole answer to the last
/// message. Bytes behind the last reply may have been read.
///
/// After want of memory each message so far was written whole, and the supply may have been asked for one that was not.
///
/// One read brings as many bytes as are there and as there is room for: 65,536 at first, and where a reply is longer, as
/// many again as it has so far. A reply is read where it lies. One that is not whole yet is looked at anew with each read.
pub fn run_session<R: Wait, S: Supply, T: Stream>(
    rt: &R,
    alloc: Global,
    rid: u16,
    suffix: &Suffix,
    supply: &mut S,
    stream: &mut T,
) -> Result<RunEnd, NoMemory>
    ensures { Runs S.supplying (new_supplier rid suffix.now.name) supply.old (sides (T.left stream.old) (T.contents stream.old) (T.Source.faults stream.old) (T.Sink.faults stream.old)) result supply.new (sides (T.left stream.new) (T.contents stream.new) (T.Source.faults stream.new) (T.Sink.faults stream.new)) }
{
    let Ok(mut supplier) = Supplier::new(alloc, rid, suffix) else {
        return Err(NoMemory);
    };
    let Ok(mut inbox) = Inbox::new(alloc) else {
        return Err(NoMemory);
    };
    run(rt, alloc, &mut supplier, supply, stream, &mut inbox)
}

/// Writes the bind of this supplier, and takes turns until one of them ends the session.
fn run<R: Wait, S: Supply, T: Stream>(
    rt: &R,
    alloc: Global,
    supplier: &mut Supplier,
    supply: &mut S,
    stream: &mut T,
    inbox: &mut Inbox,
) -> Result<RunEnd, NoMemory>
    requires { inbox.old ≡ [] }
    ensures { Runs S.supplying supplier.old supply.old (sides (T.left stream.old) (T.contents stream.old) (T.Source.faults stream.old) (T.Sink.faults stream.old)) result supply.new (sides (T.left stream.new) (T.contents stream.new) (T.Source.faults stream.new) (T.Sink.faults stream.new)) }
{
    let Ok(bind) = supplier.first(alloc) else {
        return Err(NoMemory);
    };
    let Ok(()) = write_side(stream, bind.as_slice()) else {
        return Ok(RunEnd::Lost);
    };
    for _ in rt.forever() {
        let Ok(turn) = take_turn(rt, alloc, supplier, supply, stream, inbox) else {
            return Err(NoMemory);
        };
        match turn {
            Turn::Sent => {}
            Turn::Ended(end) => return Ok(RunEnd::Ended(end)),
            Turn::NoReply => return Ok(RunEnd::Ended(SessionEnd::Strange)),
            Turn::Unanswered => return Ok(RunEnd::Lost),
            Turn::Unwritten => return Ok(RunEnd::Lost),
        }
    }
    unreachable!()
}
