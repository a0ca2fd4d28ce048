//! What stands at the front of a stream.

ghost use Rattle.std.specs.Prelude.{◌≡◌, IfOk, IsTrue};
ghost use Rattle.conn_core.specs.First.{IsFirst};
ghost use Rattle.conn_core.specs.Stream.{EndsSo};

use crate::reply::is_unbind;
use io_edge::Fed;
use ldap_requests::{ReadFault, read_request};
use ldap_types::{NoMemory, Request};
use request_wait::Unfinished;
use std::alloc::Global;

/// What stands at the front of a stream.
pub(crate) enum First {
    /// A request that is carried out, and how many bytes it has.
    Next(Request, usize),
    /// None.
    Ends(Fed),
}

/// Reads what stands at the front of a stream.
pub(crate) fn read_first(alloc: Global, bytes: &[u8]) -> Result<First, NoMemory>
    ensures { IfOk result (λ first. IsFirst bytes.now first) }
{
    match read_request(alloc, bytes) {
        Ok((request, size)) => {
            if is_unbind(&request.op) {
                return Ok(First::Ends(Fed::Unbound));
            }
            Ok(First::Next(request, size))
        }
        Err(ReadFault::More) => Ok(First::Ends(Fed::Running)),
        Err(ReadFault::NotLdap { place, why: _why }) => Ok(First::Ends(Fed::BadBytes { place })),
        Err(ReadFault::NoMemory) => Err(NoMemory),
    }
}

/// What stands at the front is no whole request yet, and no fault. False: it has to be read.
pub(crate) fn waits(stream: &mut Unfinished) -> bool
    ensures more { IsTrue result → EndsSo stream.old Fed.Running }
    ensures same { stream.new ≡ stream.old }
{
    stream.waits()
}
