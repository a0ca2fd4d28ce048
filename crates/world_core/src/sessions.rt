//! What holds of sessions.

ghost use Rattle.world_core.specs.Sessions.{law_of_sessions, law_of_progress, law_of_cursors};

/// What holds of sessions, after every run in which each update that a client feeds is one that some node had offered.
pub fn session_laws()
    // What a node offers for a cursor that the consumer has followed is not refused there for what the consumer lacks,
    // then or later.
    ensures welcome { law_of_sessions }

    // It is taken or a duplicate there, where its deliverer holds the consumer, its time is at most a day ahead and the
    // keeper does not fail.
    ensures progress { law_of_progress }

    // A session begins followed, and stays so.
    ensures cursors { law_of_cursors }
{}
