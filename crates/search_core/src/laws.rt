//! What holds of every search.

ghost use Rattle.std.specs.Prelude.{◌≡◌, List};
ghost use Rattle.std.specs.List.{AllByRecursion};
ghost use Rattle.repl_data.specs.declared.change.Change.{Change};
ghost use Rattle.repl_data.specs.declared.change.Suffix.{Suffix};
ghost use Rattle.repl_data.specs.Text.{IsInRange};
ghost use Rattle.repl_data.specs.Closed.{IsClosed};
ghost use Rattle.repl_data.specs.View.{view_of};
ghost use Rattle.search_core.specs.Tree.{IsTree};

/// The view of a closed set of changes may be searched.
pub fn search_laws()
    ensures { (suffix : Suffix) (xs : List Change) → IsClosed xs → AllByRecursion (λ (c : Change). IsInRange c.csn) xs → IsTree (view_of suffix xs) }
{}
