//! What changes and their rows are to one another.

ghost use Rattle.row_bytes.specs.Laws.{IsReadBack, IsFoundAgain, NoneIsPrefix, AreInOrder};

/// What changes and their rows are to one another.
pub fn row_laws()
    // What is written is read back.
    ensures again { IsReadBack }

    // And so is what is kept.
    ensures kept { IsFoundAgain }

    // A row is that of one change. A row without its last bytes is no row, nor is one with bytes behind it.
    ensures no_prefix { NoneIsPrefix }

    // Keys are in the order of their CSNs.
    ensures order { AreInOrder }
{}
