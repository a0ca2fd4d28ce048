//! Who has a name: which of the present entries that contend for it.

ghost use Rattle.std.specs.Prelude.{◌≡◌, ◌||◌, ◌&&◌, not, IfOk};
ghost use Rattle.std.specs.List.{list_any};
ghost use Rattle.repl_data.specs.Order.{same_rdn};
ghost use Rattle.plain_view.specs.Seen.{loses_to};
ghost use Rattle.repl_data.specs.Names.{contends_with, is_before, has_name, shown_rdn};

use crate::copied::Copied;
use crate::facts::EntryFacts;
use repl_data::{NoMemory, Rdn};
use shown_entry::with_id;
use std::alloc::Global;

pub(crate) fn same_rdn(a: &Rdn, b: &Rdn) -> bool
    ensures { result ≡ same_rdn a.now b.now }
{
    a == b
}

impl EntryFacts {
    /// The two contend for one name.
    fn contends_with(&self, other: &EntryFacts) -> bool
        ensures { result ≡ contends_with self.now other.now }
    {
        other.is_child_of(self.parent) && same_rdn(&self.rdn, &other.rdn)
    }

    /// A live entry is before glue, and then the one whose name has the lesser CSN.
    fn is_before(&self, other: &EntryFacts) -> bool
        ensures { result ≡ is_before self.now other.now }
    {
        let live = self.is_live();
        let other_live = other.is_live();
        (live && !other_live) || ((live || !other_live) && self.named.is_below(other.named))
    }

    #[tactic(auto, unfolding(crate::specs::Seen::loses_to))]
    fn loses_to(&self, other: &EntryFacts) -> bool
        ensures { result ≡ loses_to self.now other.now }
    {
        self.contends_with(other) && other.is_before(self)
    }

    fn loses_among(&self, present: &[EntryFacts]) -> bool
        ensures { result ≡ list_any (loses_to self.now) present.now }
    {
        present.iter().any(|other| self.loses_to(other))
    }

    #[tactic(auto, unfolding(crate::specs::Seen::loses_to))]
    fn has_name(&self, present: &[EntryFacts]) -> bool
        ensures { result ≡ has_name present.now self.now }
    {
        !self.loses_among(present)
    }

    /// Its name, or where another present entry has that name, its id joined to it. Takes time in
    /// proportion to the number of present entries.
    pub(crate) fn shown_rdn(&self, alloc: Global, present: &[EntryFacts]) -> Result<Rdn, NoMemory>
        ensures { IfOk result (λ rdn. rdn ≡ shown_rdn present.now self.now) }
    {
        if self.has_name(present) {
            Ok(self.rdn.copied()?)
        } else {
            with_id(alloc, self.id, &self.rdn)
        }
    }
}
