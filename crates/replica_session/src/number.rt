//! Numbers of messages.

ghost use Rattle.std.specs.Prelude.{◌≡◌};
ghost use Rattle.replica_session.specs.Messages.{next_id};

/// The number of the bind.
pub(crate) const BIND: u32 = 1;

/// The number of the start.
pub(crate) const START: u32 = 2;

/// The number of the first message that may be an update.
pub(crate) const FIRST: u32 = 3;

/// The greatest number that a message has (RFC 4511, section 4.1.1).
const LAST: u32 = 2_147_483_647;

/// The number of the message behind the one with this number: after the greatest one they go on at 3.
pub fn next_id(id: u32) -> u32
    ensures { result ≡ next_id id }
{
    if id < LAST { id + 1 } else { FIRST }
}
