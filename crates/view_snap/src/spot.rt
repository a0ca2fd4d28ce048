//! Where a child stands.
ghost use Rattle.std.specs.Prelude.{◌≡◌, true, IfOk};
ghost use Rattle.std.specs.Option.{option_copied};
ghost use Rattle.repl_data.specs.Order.{uid_eq, suffix_id};
ghost use Rattle.view_snap.specs.Maps.{spot_of, spot_in, is_spot};
ghost use Rattle.view_snap.specs.declared.spot.Spot.{Spot};

use crate::seen::{Seen, copied};
use repl_data::{Csn, NoMemory, Rdn, Uid};

/// Where a child stands: below its parent, by the name that it shows, and among those that show the same by its id.
#[derive(Clone, Debug, Drop, Eq, Ord, PartialEq, PartialOrd)]
pub(crate) struct Spot {
    pub(crate) parent: Uid,
    pub(crate) shown: Rdn,
    pub(crate) id: Uid,
}

pub(crate) fn is_root(id: Uid) -> bool
    ensures { result ≡ uid_eq id suffix_id }
{
    id.csn.compare(Csn::ZERO).is_eq()
}

/// Where an entry stands: the suffix entry and tombstones nowhere. A copy of its name.
pub(crate) fn spot_of(id: Uid, seen: &Seen) -> Result<Option<Spot>, NoMemory>
    ensures { IfOk result (λ spot. spot ≡ spot_of id seen.now) }
{
    if is_root(id) {
        return Ok(None);
    }
    match seen.shown() {
        Some(rdn) => Ok(Some(Spot {
            parent: seen.parent(),
            shown: copied(rdn)?,
            id,
        })),
        None => Ok(None),
    }
}

/// Where an entry stands, if it is kept.
pub(crate) fn spot_in(id: Uid, seen: Option<&Seen>) -> Result<Option<Spot>, NoMemory>
    ensures { IfOk result (λ spot. spot ≡ spot_in id (option_copied seen.entry)) }
{
    match seen {
        Some(seen) => spot_of(id, seen),
        None => Ok(None),
    }
}

/// Both stand at one place, or nowhere.
#[tactic(auto, using(crate::proofs::Spots::tied_spots))]
pub(crate) fn same_spot(a: &Option<Spot>, b: &Option<Spot>) -> bool
    ensures { result ≡ true → (q : Spot) → is_spot a.now q ≡ is_spot b.now q }
{
    match a {
        None => b.is_none(),
        Some(a) => match b {
            None => false,
            Some(b) => a.cmp(b).is_eq(),
        },
    }
}
