//! The one write of a `start`.

ghost use Rattle.std.specs.Prelude.{◌≡◌, IfOk};
ghost use Rattle.dir_top.specs.Message.{request_of};

use ldap_requests::{ReadFault, read_request};
use ldap_types::Request;
use repl_data::NoMemory;
use std::alloc::Global;

/// The request that the bytes spell, if they are exactly one message.
#[tactic(auto, unfolding(crate::specs::Message::request_of))]
pub(crate) fn request_of(alloc: Global, bytes: &[u8]) -> Result<Option<Request>, NoMemory>
    ensures { IfOk result (λ request. request ≡ request_of bytes.now) }
{
    match read_request(alloc, bytes) {
        Ok((request, size)) => {
            if size == bytes.len() {
                Ok(Some(request))
            } else {
                Ok(None)
            }
        }
        Err(ReadFault::NoMemory) => Err(NoMemory),
        Err(_) => Ok(None),
    }
}
