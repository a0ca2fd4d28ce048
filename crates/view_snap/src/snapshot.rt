//! A snapshot of the view of a tree.
ghost use Rattle.std.specs.Prelude.{◌≡◌, ◌+◌, ◌*◌, ◌<◌, ◌≤◌, ◌^◌, length, IfOk};
ghost use Rattle.repl_data.specs.View.{DirectoryView};
ghost use Rattle.urp_tree.specs.Known.{known_view};
ghost use Rattle.urp_tree.specs.Moves.{IsViewMove, empty_view};

use crate::asked::{name, own, parent, standing, tombstone_own, tombstone_parent, tombstones};
use crate::listing::{child, children};
use crate::maps::{Maps, put_all};
use crate::shown::{entry, tombstone};
use cow_map::Steps;
use repl_data::{Bytes, NoMemory, Rdn, Shown, ShownEntry, Standing, Uid, UidList, View};
use std::alloc::Global;
use std::marker::{Brand, Model};
use std::sync::ledger::{Blank, Ledger};
use urp_tree::{Changed, Plan, UrpTree};

/// The view of a tree at one moment, and the number of that moment.
///
/// Contracts see the number and the view. No call changes a snapshot: `moved` makes another one, which shares with it
/// all that the plan does not change.
#[derive(Drop)]
pub struct Snapshot {
    suffix: Bytes,
    number: u64,
    maps: Maps,
}

impl Model for Snapshot {
    ghost use Rattle.view_snap.specs.Told.{Shot, view_of_rows};
    ghost use Rattle.view_snap.specs.Maps.{AreMaps};

    ghost Value = { Shot };

    ghost view = { λ s. record { number = s.number; view = view_of_rows s.suffix s.maps.entries } };

    ghost invariant = { λ s. AreMaps s.maps };
}

fn copied(name: &Bytes) -> Result<Bytes, NoMemory>
    ensures { IfOk result (λ copy. copy ≡ name.now) }
{
    Ok(name.clone()?)
}

/// The snapshot of entries as they are told, with a counter over this ledger.
fn told<L: Ledger>(
    alloc: Global,
    blank: Blank,
    suffix: Bytes,
    entries: &[Changed],
    number: u64,
) -> Result<Snapshot, NoMemory>
    requires name { blank.name ≡ L.name }
    requires parts { blank.parts ≡ L.parts }
    requires some { 0 < blank.parts }
    ensures view { IfOk result (λ s. (after : DirectoryView) → IsViewMove (empty_view suffix) after entries.now → s.view ≡ after) }
    ensures number { IfOk result (λ s. s.number ≡ number) }
{
    let mut steps: Steps<L> = Steps::new(blank);
    let none = Maps::new();
    let maps = put_all(alloc, &none, entries, &mut steps)?;
    Ok(Snapshot {
        suffix,
        number,
        maps,
    })
}

/// The same with a counter of its own.
fn told_with(
    alloc: Global,
    blank: Blank,
    suffix: Bytes,
    entries: &[Changed],
    number: u64,
) -> Result<Snapshot, NoMemory>
    requires { 0 < blank.parts }
    ensures view { IfOk result (λ s. (after : DirectoryView) → IsViewMove (empty_view suffix) after entries.now → s.view ≡ after) }
    ensures number { IfOk result (λ s. s.number ≡ number) }
{
    told::<Brand>(alloc, blank, suffix, entries, number)
}

impl Snapshot {
    /// The view of a tree. A copy of all that it shows.
    pub fn of(alloc: Global, tree: &UrpTree, number: u64) -> Result<Snapshot, NoMemory>
        ensures view { IfOk result (λ s. s.view ≡ known_view tree.now) }
        ensures number { IfOk result (λ s. s.number ≡ number) }
    {
        let suffix = Bytes::from_slice(alloc, tree.suffix_name())?;
        let entries = tree.told(alloc)?;
        told_with(alloc, Blank::new(1), suffix, entries.as_slice(), number)
    }

    /// The number of its moment.
    pub fn number(&self) -> u64
        ensures { result ≡ self.now.number }
    {
        self.number
    }

    /// The snapshot after a plan of the tree whose view this is, as it was when the plan was made: the next number,
    /// and the view that the tree has once the plan is installed. The snapshot stays as it was.
    ///
    /// For each entry that the plan changes a copy of its names and values, and copies of the pages that it stands on.
    pub fn moved<L: Ledger>(
        &self,
        alloc: Global,
        plan: &Plan,
        steps: &mut Steps<L>,
    ) -> Result<Snapshot, NoMemory>
        requires { self.now.number + 1 < 2 ^ 64 }

        // Whatever view the plan leads to from this one.
        ensures view { IfOk result (λ s. (after : DirectoryView) → IsViewMove self.now.view after plan.now.changed → s.view ≡ after) }

        ensures number { IfOk result (λ s. s.number ≡ self.now.number + 1) }

        // For each entry that the plan changes at most eight steps, and eight more.
        ensures steps { steps.new ≤ steps.old + (8 * length plan.now.changed + 8) }
    {
        let suffix = copied(&self.suffix)?;
        let maps = put_all(alloc, &self.maps, plan.changed().as_slice(), steps)?;
        Ok(Snapshot {
            suffix,
            number: self.number + 1,
            maps,
        })
    }

    /// The same snapshot once more. It shares all but the name of the suffix.
    pub fn share(&self, alloc: Global) -> Result<Snapshot, NoMemory>
        ensures { IfOk result (λ s. s ≡ self.now) }
    {
        let suffix = copied(&self.suffix)?;
        let maps = self.maps.share(alloc)?;
        Ok(Snapshot {
            suffix,
            number: self.number,
            maps,
        })
    }
}

impl View for Snapshot {
    ghost view = { λ s. s.view };

    fn suffix_name(&self) -> &[u8] {
        self.suffix.as_slice()
    }

    fn root(&self) -> Uid {
        Uid::SUFFIX
    }

    /// A search for it among the children of all entries.
    fn child(&self, parent: Uid, rdn: &Rdn) -> Option<Uid> {
        child(&self.maps, parent, rdn)
    }

    /// A search for the first of them, and one look at each.
    fn children(&self, alloc: Global, parent: Uid) -> Result<UidList, NoMemory> {
        children(&self.maps, alloc, parent)
    }

    /// A copy of its values and of its ancestors' names, and a look-up for each of them.
    fn entry(&self, alloc: Global, id: Uid) -> Result<Option<ShownEntry>, NoMemory> {
        entry(&self.maps.entries, self.suffix.as_slice(), alloc, id)
    }

    /// One look at each entry.
    fn tombstones(&self, alloc: Global) -> Result<UidList, NoMemory> {
        tombstones(&self.maps.entries, alloc)
    }

    /// One look-up, and a copy of its values.
    fn tombstone(&self, alloc: Global, id: Uid) -> Result<Option<ShownEntry>, NoMemory> {
        tombstone(&self.maps.entries, self.suffix.as_slice(), alloc, id)
    }

    /// One look-up.
    fn name(&self, id: Uid) -> Option<&Rdn> {
        name(&self.maps.entries, id)
    }

    /// One look-up.
    fn parent(&self, id: Uid) -> Option<Uid> {
        parent(&self.maps.entries, id)
    }

    /// One look-up.
    fn own(&self, id: Uid) -> Option<&[Shown]> {
        own(&self.maps.entries, id)
    }

    /// One look-up.
    fn standing(&self, id: Uid) -> Option<Standing> {
        standing(&self.maps.entries, id)
    }

    /// One look-up.
    fn tombstone_own(&self, id: Uid) -> Option<&[Shown]> {
        tombstone_own(&self.maps.entries, id)
    }

    /// One look-up.
    fn tombstone_parent(&self, id: Uid) -> Option<Uid> {
        tombstone_parent(&self.maps.entries, id)
    }
}
