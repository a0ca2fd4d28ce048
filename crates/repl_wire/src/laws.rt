//! What messages of a session and their bytes are to one another.

ghost use Rattle.repl_wire.specs.Laws.{StartsComeBack, StartsFit, UpdatesComeBack, UpdatesFit, AnswersComeBack, EndsComeBack, NothingIsMissing};

/// What messages of a session and their bytes are to one another.
pub fn wire_laws()
    // What is written is read back, whatever bytes follow.
    ensures starts { StartsComeBack }
    ensures starts_fit { StartsFit }
    ensures answers { AnswersComeBack }
    ensures ends { EndsComeBack }
    ensures updates { UpdatesComeBack }

    // The message of an update has at most as many bytes as its weight.
    ensures updates_fit { UpdatesFit }

    // Nothing is ever missing of a value.
    ensures missing { NothingIsMissing }
{}
