//! What holds after every run.

ghost use Rattle.node_core.specs.Steps.{Judge};
ghost use Rattle.world_core.specs.World.{World, Deed, after};
ghost use Rattle.world_core.specs.Laws.{IsLawful, May, IsHonestDeed, IsHonest, law_of_draws, law_of_own_entries, law_of_prefixes, law_of_closed, law_of_forms, law_of_agreement, law_of_views, law_of_writes};

/// What one deed keeps, an event or a call.
pub fn deed_laws()
    // A world stays lawful.
    ensures lawful { (judge : Judge) (w : World) (d : Deed) → IsLawful w → May w d → IsLawful (after judge w d) }

    // It stays honest, where each update that a client feeds is one that some node had offered.
    ensures honest { (judge : Judge) (w : World) (d : Deed) → IsHonest w → IsLawful w → May w d → IsHonestDeed w d → IsHonest (after judge w d) }
{}

/// What holds after every run.
pub fn run_laws()
    // The generator of each node is at or above all that was taken and drawn. The own entry of its vector never falls, and
    // nothing at or below it is committed later.
    ensures draws { law_of_draws }

    // Each node's own entry is its greatest committed change with none pending at or below it.
    ensures own_entries { law_of_own_entries }

    // What a node has taken is closed, where the refusal table gives sound verdicts.
    ensures closed { law_of_closed }

    // Each update that was offered is well formed, so that no delivery is answered that it is not.
    ensures forms { law_of_forms }
{}

/// What holds after every run in which each update that a client feeds is one that some node had offered.
pub fn honest_laws()
    // Each node holds a prefix, in order of CSN, of each originator's committed changes, no vector runs ahead of its
    // originator, and each offered update is a committed change with the greatest one below it.
    ensures prefixes { law_of_prefixes }

    // Two nodes with equal vectors and nothing pending have taken the same changes.
    ensures agreement { law_of_agreement }

    // And so they show the same entries, where the refusal table gives sound verdicts.
    ensures views { law_of_views }
{}

/// What a write of a client is.
pub fn write_laws()
    // A begin, a commit, and a settle or an abort, each of them allowed where it comes.
    ensures calls { law_of_writes }
{}
