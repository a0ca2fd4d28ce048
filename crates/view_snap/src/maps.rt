//! The maps of a snapshot, and what it takes to put entries into them.
ghost use Rattle.std.specs.Prelude.{◌≡◌, ◌+◌, ◌*◌, ◌≤◌, ◌&&◌, ◌||◌, not, true, [], length, Some, IfOk, if◌then◌else◌};
ghost use Rattle.std.specs.Option.{option_copied};
ghost use Rattle.repl_data.specs.declared.csn.Uid.{Uid};
ghost use Rattle.repl_data.specs.Order.{uid_cmp, uid_eq};
ghost use Rattle.cow_map.specs.Rows.{IsRising};
ghost use Rattle.view_snap.specs.declared.spot.Spot.{Spot};
ghost use Rattle.view_snap.specs.Told.{told_of};
ghost use Rattle.view_snap.specs.Maps.{AreMaps, spot_cmp, told_at, told_after, spot_of, spot_in, is_spot, has_spot};

use crate::seen::Seen;
use crate::spot::{Spot, same_spot, spot_in, spot_of};
use cow_map::{CowMap, Steps};
use repl_data::{NoMemory, Uid};
use std::alloc::Global;
use std::sync::ledger::Ledger;
use urp_tree::Changed;

/// What is kept of each entry, by its id.
pub(crate) type Entries = CowMap<Uid, Seen>;

/// The present entries but the suffix entry, each where it stands below its parent.
pub(crate) type Below = CowMap<Spot, ()>;

/// The maps of a snapshot.
#[derive(Drop)]
pub(crate) struct Maps {
    pub(crate) entries: Entries,
    pub(crate) below: Below,
}

/// The spots without this one. One step.
#[tactic(auto, using(crate::proofs::Spots::without_one))]
fn without<L: Ledger>(
    alloc: Global,
    below: &Below,
    spot: &Spot,
    steps: &mut Steps<L>,
) -> Result<Below, NoMemory>
    requires { IsRising spot_cmp below.now }
    ensures rising { IfOk result (IsRising spot_cmp) }
    ensures spots { IfOk result (λ b. (q : Spot) → has_spot b q ≡ (not (is_spot (Some spot.now) q) && has_spot below.now q)) }
    ensures steps { steps.new ≤ steps.old + 1 }
{
    match below.without(alloc, spot, steps) {
        Ok(after) => Ok(after),
        Err(_) => Err(NoMemory),
    }
}

/// The spots without one, if there is one. One step, or none.
fn left<L: Ledger>(
    alloc: Global,
    below: &Below,
    spot: &Option<Spot>,
    steps: &mut Steps<L>,
) -> Result<Below, NoMemory>
    requires { IsRising spot_cmp below.now }
    ensures rising { IfOk result (IsRising spot_cmp) }
    ensures spots { IfOk result (λ b. (q : Spot) → has_spot b q ≡ (not (is_spot spot.now q) && has_spot below.now q)) }
    ensures steps { steps.new ≤ steps.old + 1 }
{
    match spot {
        Some(spot) => without(alloc, below, spot, steps),
        None => shared(alloc, below),
    }
}

/// The spots with one more, if there is one. One step, or none.
#[tactic(auto, using(crate::proofs::Spots::with_one))]
fn entered<L: Ledger>(
    alloc: Global,
    below: Below,
    spot: Option<Spot>,
    steps: &mut Steps<L>,
) -> Result<Below, NoMemory>
    requires { IsRising spot_cmp below }
    ensures rising { IfOk result (IsRising spot_cmp) }
    ensures spots { IfOk result (λ b. (q : Spot) → has_spot b q ≡ (is_spot spot q || has_spot below q)) }
    ensures steps { steps.new ≤ steps.old + 1 }
{
    let Some(spot) = spot else {
        return Ok(below);
    };
    match below.with(alloc, spot, (), steps) {
        Ok(after) => Ok(after),
        Err(_) => Err(NoMemory),
    }
}

fn shared(alloc: Global, below: &Below) -> Result<Below, NoMemory>
    ensures { IfOk result (λ b. b ≡ below.now) }
{
    match below.share(alloc) {
        Ok(after) => Ok(after),
        Err(_) => Err(NoMemory),
    }
}

/// The spots where an entry goes from one to another. At most two steps, and none where it stays.
fn respotted<L: Ledger>(
    alloc: Global,
    below: &Below,
    old: Option<Spot>,
    new: Option<Spot>,
    steps: &mut Steps<L>,
) -> Result<Below, NoMemory>
    requires rising { IsRising spot_cmp below.now }
    requires there { (q : Spot) → is_spot old q ≡ true → has_spot below.now q ≡ true }
    ensures rising { IfOk result (IsRising spot_cmp) }
    ensures spots { IfOk result (λ b. (q : Spot) → has_spot b q ≡ (is_spot new q || (not (is_spot old q) && has_spot below.now q))) }
    ensures steps { steps.new ≤ steps.old + 2 }
{
    if same_spot(&old, &new) {
        return shared(alloc, below);
    }
    let without = left(alloc, below, &old, steps)?;
    entered(alloc, without, new, steps)
}

fn kept<L: Ledger>(
    alloc: Global,
    entries: &Entries,
    id: Uid,
    seen: Seen,
    steps: &mut Steps<L>,
) -> Result<Entries, NoMemory>
    ensures rising { IfOk result (IsRising uid_cmp) }
    ensures entries { IfOk result (λ es. (u : Uid) → told_at es u ≡ (if uid_eq id u then Some seen else told_at entries.now u)) }
    ensures steps { steps.new ≤ steps.old + 1 }
{
    match entries.with(alloc, id, seen, steps) {
        Ok(after) => Ok(after),
        Err(_) => Err(NoMemory),
    }
}

/// The maps with an entry as it is told. At most four steps.
fn put<L: Ledger>(
    alloc: Global,
    maps: &Maps,
    told: &Changed,
    steps: &mut Steps<L>,
) -> Result<Maps, NoMemory>
    requires { AreMaps maps.now }
    ensures maps { IfOk result AreMaps }
    ensures entries { IfOk result (λ m. (u : Uid) → told_at m.entries u ≡ (if uid_eq told.now.id u then Some (told_of told.now) else told_at maps.now.entries u)) }
    ensures steps { steps.new ≤ steps.old + 4 }
{
    let id = told.id;
    let seen = Seen::of(alloc, told)?;
    let old = spot_in(id, maps.entries.get(&id, steps))?;
    let new = spot_of(id, &seen)?;
    let below = respotted(alloc, &maps.below, old, new, steps)?;
    let entries = kept(alloc, &maps.entries, id, seen, steps)?;
    Ok(Maps { entries, below })
}

fn shared_maps(alloc: Global, maps: &Maps) -> Result<Maps, NoMemory>
    ensures { IfOk result (λ m. m ≡ maps.now) }
{
    let Ok(entries) = maps.entries.share(alloc) else {
        return Err(NoMemory);
    };
    let below = shared(alloc, &maps.below)?;
    Ok(Maps { entries, below })
}

/// The maps with entries as they are told, one after the other. At most four steps for each.
pub(crate) fn put_all<L: Ledger>(
    alloc: Global,
    maps: &Maps,
    told: &[Changed],
    steps: &mut Steps<L>,
) -> Result<Maps, NoMemory>
    requires { AreMaps maps.now }
    ensures maps { IfOk result AreMaps }
    ensures entries { IfOk result (λ m. (u : Uid) → told_at m.entries u ≡ told_after told.now (told_at maps.now.entries u) u) }
    ensures steps { steps.new ≤ steps.old + 4 * length told.now }
{
    let mut after = shared_maps(alloc, maps)?;
    for one in told {
        after = put(alloc, &after, one, steps)?;
    }
    Ok(after)
}

impl Maps {
    /// No entry.
    pub(crate) fn new() -> Maps
        ensures maps { AreMaps result }
        ensures none { result.entries ≡ [] }
    {
        Maps {
            entries: CowMap::new(),
            below: CowMap::new(),
        }
    }

    /// The same maps once more, in constant time.
    pub(crate) fn share(&self, alloc: Global) -> Result<Maps, NoMemory>
        ensures { IfOk result (λ m. m ≡ self.now) }
    {
        shared_maps(alloc, self)
    }
}
