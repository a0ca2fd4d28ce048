//! What is walked.

ghost use Rattle.std.specs.Prelude.{◌≡◌, ◌||◌, ◌∷◌, List, true, false, map, filter, flat_map};
ghost use Rattle.std.specs.List.{AllByRecursion};
ghost use Rattle.repl_data.specs.declared.csn.Uid.{Uid};
ghost use Rattle.repl_data.specs.declared.change.Change.{Change};
ghost use Rattle.repl_data.specs.declared.change.Suffix.{Suffix};
ghost use Rattle.repl_data.specs.Closed.{IsClosed};
ghost use Rattle.repl_data.specs.Text.{IsInRange};
ghost use Rattle.repl_data.specs.Order.{uid_eq, suffix_id};
ghost use Rattle.repl_data.specs.View.{DirectoryView, PresentEntry, view_of, is_shown_below, children_of, in_path_order};
ghost use Rattle.view_walk.specs.Tree.{IsNamedTree, IsAmong, is_present};
ghost use Rattle.view_walk.specs.Walk.{is_within, subtree};

/// What is within a base, and in which order a walk answers it.
pub fn walk_laws()
    // The suffix entry is within no other.
    ensures suffix { (v : DirectoryView) (base : Uid) → IsNamedTree v → is_within v base suffix_id ≡ uid_eq suffix_id base }

    // Any other present entry is within the base exactly if it is the base, or if its parent is within the base.
    ensures within { (v : DirectoryView) (base : Uid) (e : PresentEntry) → IsNamedTree v → IsAmong e v.present → uid_eq e.id suffix_id ≡ false → is_within v base e.id ≡ (uid_eq e.id base || is_within v base e.parent) }

    // Within an entry stand it, and then all within its children, child by child in their order.
    ensures step { (v : DirectoryView) (u : Uid) → IsNamedTree v → is_present v u ≡ true → subtree v u ≡ u ∷ flat_map (subtree v) (children_of v u) }

    // The children of an entry are those that show below it, in the order of a listing.
    ensures level { (v : DirectoryView) (u : Uid) → IsNamedTree v → children_of v u ≡ map (λ (e : PresentEntry). e.id) (filter (is_shown_below u) (in_path_order v)) }

    // Within the suffix entry stand all present entries, in the order of a listing.
    ensures whole { (v : DirectoryView) → IsNamedTree v → subtree v suffix_id ≡ map (λ (e : PresentEntry). e.id) (in_path_order v) }

    // The view of a closed set of changes, whose CSNs are in the range of their 80 bits, is a tree of names.
    ensures closed { (suffix : Suffix) (xs : List Change) → IsClosed xs → AllByRecursion (λ (c : Change). IsInRange c.csn) xs → IsNamedTree (view_of suffix xs) }
{}
