//! How a session over a stream ended.

use replica_session::SessionEnd;

/// Why a session over a stream is over.
#[derive(Clone, Debug, Drop)]
pub enum RunEnd {
    /// The supplier's session has ended so. It is [`SessionEnd::Strange`] also where what came is no reply.
    Ended(SessionEnd),
    /// A read or a write failed, or the stream ended before there was a whole answer to the last message.
    Lost,
}
