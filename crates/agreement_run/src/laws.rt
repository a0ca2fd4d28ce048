//! What a session over a stream is.

ghost use Rattle.agreement_run.specs.Laws.{MessagesAreWritten, RepliesAreRead, OneIsUnanswered, EveryEndIsAnswered, EveryLossHasACause};

use replica_session::{Supply, session_laws};

/// What a session over a stream reads and writes, and what its ends say.
pub fn run_laws<S: Supply>()
    // What it wrote are its messages, one behind the other, and what it read the replies and then what it has not heard.
    ensures written { MessagesAreWritten }
    ensures read { RepliesAreRead }

    // Its last message alone has no answer.
    ensures unanswered { OneIsUnanswered }

    // As Done or Refused it is ended by a reply to its last message that says so.
    ensures answered { EveryEndIsAnswered S.supplying }

    // It is lost only where a read or a write failed, or the stream has ended.
    ensures lost { EveryLossHasACause S.supplying }
{
    session_laws::<S>();
}
