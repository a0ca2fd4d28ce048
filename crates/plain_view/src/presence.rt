//! Which entries are present.

ghost use Rattle.std.specs.Prelude.{◌≡◌, ◌∷◌, [], ◌||◌, ◌&&◌, not, IfOk, OnOk, List, filter};
ghost use Rattle.std.specs.List.{list_any};
ghost use Rattle.repl_data.specs.Order.{uid_eq, suffix_id};
ghost use Rattle.repl_data.specs.Facts.{EntryFacts};
ghost use Rattle.repl_data.specs.Presence.{is_live, is_child, present_of, is_among_entries, gone_of};

use crate::copied::{Copied, push_if};
use crate::facts::{EntryFacts, EntryFactsList};
use crate::stamp::Stamp;
use repl_data::{Items, NoMemory, Uid, same_id};
use std::alloc::Global;

impl EntryFacts {
    /// It was added and has no Del.
    pub(crate) fn is_live(&self) -> bool
        ensures { result ≡ is_live self.now }
    {
        self.dead.is(Stamp::zero())
    }

    /// The suffix entry is no child.
    pub(crate) fn is_child_of(&self, parent: Uid) -> bool
        ensures { result ≡ is_child parent self.now }
    {
        same_id(self.parent, parent) && !same_id(self.id, Uid::SUFFIX)
    }

    pub(crate) fn has_id(&self, id: Uid) -> bool
        ensures { result ≡ uid_eq self.now.id id }
    {
        same_id(self.id, id)
    }

    fn has_child_in(&self, entries: &[EntryFacts]) -> bool
        ensures { result ≡ list_any (is_child self.now.id) entries.now }
    {
        let id = self.id;
        entries.iter().any(|e| e.is_child_of(id))
    }

    fn is_present_over(&self, above: &[EntryFacts]) -> bool
        ensures { result ≡ (is_live self.now || list_any (is_child self.now.id) above.now) }
    {
        self.is_live() || self.has_child_in(above)
    }
}

fn is_among_entries(entries: &[EntryFacts], id: Uid) -> bool
    ensures { result ≡ is_among_entries entries.now id }
{
    entries.iter().any(|e| e.has_id(id))
}

/// The entries that are live or have a present child, found from the greatest id down. Takes
/// quadratic time.
pub(crate) fn present_of(alloc: Global, entries: &[EntryFacts]) -> Result<EntryFactsList, NoMemory>
    ensures { IfOk result (λ present. present ≡ present_of entries.now) }
{
    let mut present = Items::new(alloc);
    let mut left = entries.len();
    while left > 0 {
        left -= 1;
        let e = &entries[left];
        if e.is_present_over(present.as_slice()) {
            let copy = e.copied()?;
            present.insert(0, copy)?;
        }
    }
    Ok(present)
}

/// The entries that are not among the present ones.
#[tactic(auto, using(repl_data::proofs::Loops::filter_more))]
pub(crate) fn gone_of(
    alloc: Global,
    entries: &[EntryFacts],
    present: &[EntryFacts],
) -> Result<EntryFactsList, NoMemory>
    requires { present.now ≡ present_of entries.now }
    ensures { IfOk result (λ gone. gone ≡ gone_of entries.now) }
{
    let mut gone = Items::new(alloc);
    for e in entries {
        push_if(!is_among_entries(present, e.id), e, &mut gone)?;
    }
    Ok(gone)
}
