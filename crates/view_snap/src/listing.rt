//! The children of an entry, in order of the names that they show.
ghost use Rattle.std.specs.Prelude.{◌≡◌, ◌++◌, ◌&&◌, Bool, List, ℕ, true, map, filter, IfOk, OnOk};
ghost use Rattle.std.specs.Map.{keys_of};
ghost use Rattle.std.specs.Ordering.{is_le, ordering_then};
ghost use Rattle.repl_data.specs.Order.{uid_cmp, uid_eq, same_rdn, rdn_key, rdn_key_cmp};
ghost use Rattle.repl_data.specs.View.{child_of, children_of};
ghost use Rattle.cow_map.specs.Rows.{IsRising};
ghost use Rattle.view_snap.specs.declared.spot.Spot.{Spot};
ghost use Rattle.view_snap.specs.Told.{view_of_rows};
ghost use Rattle.view_snap.specs.Maps.{AreMaps, spot_cmp};
ghost use Rattle.view_snap.specs.Listed.{is_below, is_named, first_named};

use crate::maps::{Below, Maps};
use crate::spot::Spot;
use cow_map::Start;
use repl_data::{Items, NoMemory, Rdn, Uid, UidList};
use std::alloc::Global;

/// Where the children of an entry begin.
#[derive(Drop)]
struct FirstBelow {
    parent: Uid,
}

impl Start<Spot> for FirstBelow {
    ghost from = { λ s k. is_le (uid_cmp s.parent k.parent) };

    fn is_from(&self, spot: &Spot) -> bool {
        self.parent.csn.compare(spot.parent.csn).is_le()
    }
}

/// Where the children of an entry begin that show a name.
#[derive(Drop)]
struct FirstNamed<'a> {
    parent: Uid,
    shown: &'a Rdn,
}

impl<'a> Start<Spot> for FirstNamed<'a> {
    ghost from = { λ s k. is_le (ordering_then (uid_cmp s.parent k.parent) (rdn_key_cmp (rdn_key s.shown.now) (rdn_key k.shown))) };

    fn is_from(&self, spot: &Spot) -> bool {
        let parents = self.parent.csn.compare(spot.parent.csn);
        parents.then(self.shown.cmp(&spot.shown)).is_le()
    }
}

fn is_below(spot: &Spot, parent: Uid) -> bool
    ensures { result ≡ is_below parent spot.now }
{
    spot.parent.csn.compare(parent.csn).is_eq()
}

fn is_named(spot: &Spot, parent: Uid, rdn: &Rdn) -> bool
    ensures { result ≡ is_named parent rdn.now spot.now }
{
    let below = is_below(spot, parent);
    let named = spot.shown.cmp(rdn).is_eq();
    repl_data::and(below, named)
}

/// The ids of those below an entry, in order. A search for the first of them, and one look at each.
fn ids_below(below: &Below, alloc: Global, parent: Uid) -> Result<UidList, NoMemory>
    requires { IsRising spot_cmp below.now }
    ensures { IfOk result (λ ids. ids ≡ map (λ (k : Spot). k.id) (filter (is_below parent) (keys_of below.now))) }
{
    let mut ids = Items::new(alloc);
    for (spot, _) in below.walk_from(&FirstBelow { parent }) {
        if !is_below(spot, parent) {
            return Ok(ids);
        }
        ids.push(spot.id)?;
    }
    Ok(ids)
}

/// The children of an entry, in order of the names that they show. A search for the first of them, and one look at
/// each.
pub(crate) fn children(maps: &Maps, alloc: Global, parent: Uid) -> Result<UidList, NoMemory>
    requires { AreMaps maps.now }
    ensures { IfOk result (λ ids. (suffix : List ℕ) → ids ≡ children_of (view_of_rows suffix maps.now.entries) parent) }
{
    ids_below(&maps.below, alloc, parent)
}

/// The first of those below an entry that show a name. A search for it.
fn first_named(below: &Below, parent: Uid, rdn: &Rdn) -> Option<Uid>
    requires { IsRising spot_cmp below.now }
    ensures { result ≡ first_named parent rdn.now (keys_of below.now) }
{
    let (spot, _) = below.walk_from(&FirstNamed { parent, shown: rdn }).next()?;
    if is_named(spot, parent, rdn) {
        return Some(spot.id);
    }
    None
}

/// The child that shows a name. A search for it.
pub(crate) fn child(maps: &Maps, parent: Uid, rdn: &Rdn) -> Option<Uid>
    requires { AreMaps maps.now }
    ensures { (suffix : List ℕ) → result ≡ child_of (view_of_rows suffix maps.now.entries) parent rdn.now }
{
    first_named(&maps.below, parent, rdn)
}
