//! What a whole session is.

ghost use Rattle.replica_session.specs.Laws.{EverySessionStands, EverySessionEnds, CountsTaken, NumbersAreWithin, BindIsRead, ZeroIsTaken, RefusalIsTold};

use crate::supply::Supply;

/// What a whole session of a supplier is, and what a consumer's answers tell it.
pub fn session_laws<S: Supply>()
    // What it sends is the bind, the start, and then, in order, what its supply has beyond the consumer's vector,
    // which is raised by each; each goes out once the one before is answered with 0.
    ensures stands { EverySessionStands S.supplying }

    // Which reply ends it, and how.
    ensures ends { EverySessionEnds S.supplying }

    // It counts the updates that were taken.
    ensures counts { CountsTaken S.supplying }

    // Its messages have numbers that requests may have.
    ensures numbers { NumbersAreWithin S.supplying }

    // Its bind is a request.
    ensures bind { BindIsRead }

    // An update is answered with 0 only where the consumer's node took it, or had it; a start that it does not accept is
    // answered with another code.
    ensures zero { ZeroIsTaken }
    ensures told { RefusalIsTold }
{}
