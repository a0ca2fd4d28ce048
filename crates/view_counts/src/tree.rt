//! A tree of entries with their counts.
ghost use Rattle.std.specs.Prelude.{◌≡◌, [], true, false, None, IfOk, IsTrue};
ghost use Rattle.stamp_entry.specs.Raised.{is_add};
ghost use Rattle.repl_data.specs.Presence.{is_among_entries};
ghost use Rattle.repl_data.specs.declared.change.Suffix.{Suffix};
ghost use Rattle.repl_data.specs.Closed.{is_sound, needed};
ghost use Rattle.repl_data.specs.Facts.{all_facts};
ghost use Rattle.urp_tree.specs.Known.{known_view, put_fact, entry_after};
ghost use Rattle.view_counts.specs.Counts.{counts_of};
ghost use Rattle.view_counts.specs.Planned.{IsReadyWith};

use crate::counts::ViewCounts;
use crate::tally::moved;
use repl_data::{Change, NoMemory, Suffix, Uid};
use std::alloc::Global;
use std::marker::Model;
use urp_tree::{Plan, UrpTree};

/// The view of a replica as a tree of its entries, and how many of each kind there are.
///
/// Contracts see what the tree knows: its counts are always those of the view.
#[derive(Debug, Drop)]
pub struct CountedTree {
    tree: UrpTree,
    counts: ViewCounts,
}

impl Model for CountedTree {
    ghost use Rattle.urp_tree.specs.Known.{Known, known_view};
    ghost use Rattle.view_counts.specs.Counts.{IsCounted};

    ghost Value = { Known };

    ghost view = { λ t. t.tree };

    ghost invariant = { λ t. IsCounted (known_view t.tree) t.counts };
}

/// A change that a tree has room for, with the counts after it.
///
/// Contracts see the entry as the change leaves it, and these counts.
#[derive(Debug, Drop)]
pub struct CountedPlan {
    plan: Plan,
    counts: ViewCounts,
}

impl Model for CountedPlan {
    ghost use Rattle.view_counts.specs.Planned.{CountedEntry};

    ghost Value = { CountedEntry };

    ghost view = { λ p. record { entry = p.plan.entry; counts = p.counts } };
}

impl CountedTree {
    /// The suffix entry alone.
    pub fn new(alloc: Global, suffix: &Suffix) -> Result<CountedTree, NoMemory>
        ensures facts { IfOk result (λ t. t.facts ≡ all_facts suffix.now []) }
        ensures suffix { IfOk result (λ t. t.suffix ≡ suffix.now.name) }
    {
        let tree = UrpTree::new(alloc, suffix)?;
        let counts = ViewCounts {
            present: 1,
            glue: 0,
            conflict: 0,
            tombstone: 0,
        };
        Ok(CountedTree { tree, counts })
    }

    /// How many entries of each kind there are, in constant time.
    pub fn counts(&self) -> ViewCounts
        ensures { result ≡ counts_of (known_view self.now) }
    {
        self.counts
    }

    /// The tree alone.
    pub fn tree(&self) -> &UrpTree
        ensures { result.now ≡ self.now }
    {
        &self.tree
    }

    /// The entry was added, or is the suffix entry, present or not. One look-up.
    pub fn is_known(&self, id: Uid) -> bool
        ensures { result ≡ is_among_entries self.now.facts id }
    {
        self.tree.is_known(id)
    }

    /// Room for a change, as in the tree, and the counts after it. For each entry that changes three look-ups more. The
    /// view stays as it was, and so it does where memory runs out.
    pub fn plan(&mut self, alloc: Global, change: &Change) -> Result<CountedPlan, NoMemory>
        requires sound { IsTrue (is_sound change.now) }
        requires known { is_among_entries self.old.facts (needed change.now.target change.now.body) ≡ true }
        requires fresh { is_add change.now.body ≡ true → is_among_entries self.old.facts change.now.target ≡ false }

        // The target as the change leaves it.
        ensures entry { IfOk result (λ p. (suffix : Suffix) → p.entry ≡ entry_after suffix change.now self.old.facts) }

        ensures ready { IfOk result (λ p. IsReadyWith self.new p) }
        ensures facts { self.new.facts ≡ self.old.facts }
        ensures suffix { self.new.suffix ≡ self.old.suffix }
    {
        let plan = self.tree.plan(alloc, change)?;
        let counts = moved(&self.tree, self.counts, plan.changed().as_slice())?;
        Ok(CountedPlan { plan, counts })
    }

    /// The tree after the plan's change. Takes no memory and cannot fail.
    pub fn install(&mut self, plan: CountedPlan)
        requires { IsReadyWith self.old plan }
        ensures facts { self.new.facts ≡ put_fact plan.entry self.old.facts }
        ensures suffix { self.new.suffix ≡ self.old.suffix }
    {
        let CountedPlan { plan, counts } = plan;
        self.tree.install(plan);
        self.counts = counts;
    }
}
