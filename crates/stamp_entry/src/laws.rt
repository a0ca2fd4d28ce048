//! The law of one change more.

ghost use Rattle.std.specs.Prelude.{◌≡◌, ◌++◌, ◌∷◌, [], List, IsTrue};
ghost use Rattle.repl_data.specs.declared.csn.Uid.{Uid};
ghost use Rattle.repl_data.specs.declared.change.Change.{Change};
ghost use Rattle.repl_data.specs.declared.change.Suffix.{Suffix};
ghost use Rattle.repl_data.specs.Closed.{is_sound};
ghost use Rattle.repl_data.specs.Facts.{own_facts};
ghost use Rattle.stamp_entry.specs.Raised.{facts_after};
ghost use Rattle.stamp_entry.specs.History.{IsHistory};

/// What one change more makes of what is known of its entry.
pub fn stamped_laws()
    // Whatever changes came before, and in whatever order.
    ensures next { (suffix : Suffix) (u : Uid) (own : List Change) (c : Change) → IsTrue (is_sound c) → c.target ≡ u → IsHistory u own c → facts_after c (own_facts suffix u own) ≡ own_facts suffix u (own ++ c ∷ []) }
{}
