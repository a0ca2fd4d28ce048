//! The view after one add more.

ghost use Rattle.std.specs.Prelude.{◌≡◌, ◌++◌, ◌∷◌, [], ◌≤◌, ◌&&◌, not, true, false, ℕ, Bool, List, IsTrue, IfOk, OnOk, OnErr, length, filter, map, insert, if◌then◌else◌};
ghost use Rattle.std.specs.List.{list_any, list_all};
ghost use Rattle.std.specs.List.Sorted.{IsPartitionPoint};
ghost use Rattle.std.specs.Ordering.{is_lt};
ghost use Rattle.repl_data.specs.declared.change.Change.{Change};
ghost use Rattle.repl_data.specs.declared.change.Suffix.{Suffix};
ghost use Rattle.repl_data.specs.Order.{uid_cmp, uid_eq};
ghost use Rattle.repl_data.specs.Closed.{IsArrival};
ghost use Rattle.repl_data.specs.View.{PresentEntry, view_of};
ghost use Rattle.plain_view.specs.Growth.{is_add, no_suffix, facts_alone, gives_way, stands_before, yields, joined_name, renamed, fresh, placed, grown, HasRisingIds, is_among_present};

use crate::copied::Copied;
use crate::facts::{EntryFacts, own_facts};
use crate::names::same_rdn;
use crate::rows::{PresentEntry, PresentList, shown_entry};
use crate::view::PlainView;
use repl_data::{Change, Items, NoMemory, Rdn, Suffix, Uid};
use shown_entry::{Ranked, with_id};
use std::alloc::Global;
use std::mem;

fn is_below(a: Uid, b: Uid) -> bool
    ensures { result ≡ is_lt (uid_cmp a b) }
{
    a.compare(&b).is_lt()
}

/// What a change says alone of its target, which is not the suffix entry.
#[tactic(auto, unfolding(crate::specs::Growth::facts_alone))]
fn facts_alone(alloc: Global, change: &Change) -> Result<EntryFacts, NoMemory>
    ensures { IfOk result (λ f. f ≡ facts_alone change.now) }
{
    let suffix = Suffix {
        name: Items::new(alloc),
        rdn: Rdn {
            avas: Items::new(alloc),
        },
    };
    let mut own = Items::new(alloc);
    own.push(change.copied()?)?;
    own_facts(alloc, &suffix, change.target, own.as_slice())
}

impl PresentEntry {
    /// The new entry contends for its name and has the lower id.
    #[tactic(auto, unfolding(crate::specs::Growth::gives_way))]
    fn gives_way(&self, new: &EntryFacts) -> bool
        ensures { result ≡ gives_way new.now self.now }
    {
        new.is_child_of(self.parent) && same_rdn(&self.name, &new.rdn) && is_below(new.id, self.id)
    }

    /// It has the name that the new entry contends for, and the lower id.
    #[tactic(auto, unfolding(crate::specs::Growth::stands_before))]
    fn stands_before(&self, new: &EntryFacts) -> bool
        ensures { result ≡ stands_before new.now self.now }
    {
        self.is_shown_below(new.parent)
            && same_rdn(&new.rdn, &self.name)
            && is_below(self.id, new.id)
    }

    /// It loses the name that it shows to the new entry.
    #[tactic(auto, unfolding(crate::specs::Growth::yields))]
    fn yields(&self, new: &EntryFacts) -> bool
        ensures { result ≡ yields new.now self.now }
    {
        self.gives_way(new) && !self.lost_name()
    }

    /// Its name with its id joined to it.
    fn joined_name(&self, alloc: Global) -> Result<Rdn, NoMemory>
        ensures { IfOk result (λ rdn. rdn ≡ joined_name self.now) }
    {
        with_id(alloc, self.id, &self.name)
    }

    fn has_id_below(&self, id: Uid) -> bool
        ensures { result ≡ is_lt (uid_cmp self.now.id id) }
    {
        is_below(self.id, id)
    }
}

fn is_taken(present: &[PresentEntry], new: &EntryFacts) -> bool
    ensures { result ≡ list_any (stands_before new.now) present.now }
{
    present.iter().any(|e| e.stands_before(new))
}

/// The new entry, as it shows where it contends with none.
#[tactic(auto, unfolding(crate::specs::Growth::fresh, crate::specs::Seen::present_entry))]
fn fresh(alloc: Global, new: &EntryFacts) -> Result<PresentEntry, NoMemory>
    ensures { IfOk result (λ entry. entry ≡ fresh new.now) }
{
    let none = Items::new(alloc);
    shown_entry(alloc, none.as_slice(), new)
}

/// The new entry, as it shows among those that are present.
#[tactic(auto, unfolding(crate::specs::Growth::placed))]
fn placed(
    alloc: Global,
    present: &[PresentEntry],
    new: &EntryFacts,
) -> Result<PresentEntry, NoMemory>
    ensures { IfOk result (λ entry. entry ≡ placed new.now present.now) }
{
    let mut entry = fresh(alloc, new)?;
    if is_taken(present, new) {
        entry.shown = entry.joined_name(alloc)?;
    }
    Ok(entry)
}

fn push_lost(
    alloc: Global,
    e: &PresentEntry,
    new: &EntryFacts,
    names: &mut Items<Rdn>,
) -> Result<(), NoMemory>
    ensures { OnOk result (names.new ≡ names.old ++ (if yields new.now e.now then joined_name e.now ∷ [] else [])) }
{
    if e.yields(new) {
        names.push(e.joined_name(alloc)?)?;
    }
    Ok(())
}

/// What those show that lose the name that they show.
#[tactic(auto, using(repl_data::proofs::Loops::map_filter_more))]
fn names_lost(
    alloc: Global,
    present: &[PresentEntry],
    new: &EntryFacts,
) -> Result<Items<Rdn>, NoMemory>
    ensures { IfOk result (λ names. names ≡ map joined_name (filter (yields new.now) present.now)) }
{
    let mut names = Items::new(alloc);
    for e in present {
        push_lost(alloc, e, new, &mut names)?;
    }
    Ok(names)
}

fn rename_each(entries: &mut [PresentEntry], new: &EntryFacts, names: Items<Rdn>)
    requires { names ≡ map joined_name (filter (yields new.now) entries.old) }
    ensures { entries.new ≡ map (renamed new.now) entries.old }
{
    let mut names = names;
    for e in entries.iter_mut() {
        if e.yields(new) {
            e.shown = names.remove(0);
        }
    }
}

/// The entries, each as it shows beside the new one.
fn renamed(present: PresentList, new: &EntryFacts, names: Items<Rdn>) -> PresentList
    requires { names ≡ map joined_name (filter (yields new.now) present) }
    ensures { result ≡ map (renamed new.now) present }
{
    let mut entries = present.into_vec();
    rename_each(entries.as_mut_slice(), new, names);
    Items::from_vec(entries)
}

/// How many entries have an id below this one, where the ids rise. Takes logarithmic time.
fn count_below(present: &[PresentEntry], id: Uid) -> usize
    ensures within { result ≤ length present.now }
    ensures parted { HasRisingIds present.now → IsPartitionPoint (λ (e : PresentEntry). is_lt (uid_cmp e.id id) ≡ true) (λ (e : PresentEntry). is_lt (uid_cmp e.id id) ≡ false) present.now result }
{
    present.partition_point(|e| e.has_id_below(id))
}

impl PlainView {
    /// The view of no changes: the suffix entry alone. Takes memory for it.
    pub fn new(alloc: Global, suffix: &Suffix) -> Result<PlainView, NoMemory>
        ensures { IfOk result (λ v. v ≡ view_of suffix.now []) }
    {
        let none = Items::new(alloc);
        PlainView::of(alloc, suffix, none.as_slice())
    }

    /// How many entries are present.
    pub fn len(&self) -> usize
        ensures { result ≡ length self.now.present }
    {
        self.present.len()
    }

    fn grow(&mut self, alloc: Global, new: &EntryFacts) -> Result<(), NoMemory>
        ensures ok { OnOk result (HasRisingIds self.old.present → is_among_present self.old.present new.now.id ≡ false → self.new ≡ grown new.now self.old) }
        ensures err { OnErr result (self.new ≡ self.old) }
    {
        let entry = placed(alloc, self.present.as_slice(), new)?;
        let names = names_lost(alloc, self.present.as_slice(), new)?;
        let at = count_below(self.present.as_slice(), new.id);
        self.present.insert(at, entry)?;
        let present = mem::replace(&mut self.present, Items::new(alloc));
        self.present = renamed(present, new, names);
        Ok(())
    }

    /// The view after one add more, where none but adds were taken. Takes one look at each present
    /// entry, and memory for the new entry and for the names that change. Without memory the view
    /// stays as it was.
    pub fn add(&mut self, alloc: Global, change: &Change) -> Result<(), NoMemory>
        // The view of some adds, and of this one after them.
        ensures ok { OnOk result ((suffix : Suffix) (taken : List Change) → self.old ≡ view_of suffix taken → IsTrue (list_all is_add (taken ++ change.now ∷ [])) → IsArrival (taken ++ change.now ∷ []) → self.new ≡ view_of suffix (taken ++ change.now ∷ [])) }
        ensures err { OnErr result (self.new ≡ self.old) }
    {
        let new = facts_alone(alloc, change)?;
        self.grow(alloc, &new)
    }
}
