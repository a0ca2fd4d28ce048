//! The index beside the list: places by originator and CSN.

ghost use Rattle.std.specs.Prelude.{map, filter, Contains, IsTrue, ◌↔◌, ◌≡◌, ℕ, ◌<◌, ◌≤◌, true, false, length, slice_index_or};
ghost use Rattle.repl_data.specs.declared.csn.Csn.{Csn};
ghost use Rattle.change_log.specs.Index.{place_lt, no_place, IsRising, is_upto, is_in_reach, IsLeastOf, lower_place};
ghost use Rattle.vector_core.specs.Greatest.{greatest};
ghost use Rattle.change_log.specs.Log.{is_before, is_between};

use repl_data::Csn;
use vector_core::Vector;

/// Where the change of a CSN stands in the order of arrival.
#[derive(Clone, Copy, Debug, Drop)]
pub(crate) struct Place {
    pub csn: Csn,
    pub at: usize,
}

/// By originator, and then by CSN.
fn is_lower(a: Csn, b: Csn) -> bool
    ensures { result ≡ place_lt a b }
{
    if a.rid == b.rid {
        a.compare(b).is_lt()
    } else {
        a.rid < b.rid
    }
}

/// How many places are lower than that of this CSN.
pub(crate) fn place_of(index: &[Place], csn: Csn) -> usize
    requires { IsRising index.now }
    ensures within { result ≤ length index.now }
    ensures below { (k : ℕ) → k < result → place_lt (slice_index_or index.now k no_place).csn csn ≡ true }
    ensures above { (k : ℕ) → result ≤ k → k < length index.now → place_lt (slice_index_or index.now k no_place).csn csn ≡ false }
{
    index.partition_point(|place| is_lower(place.csn, csn))
}

/// The CSN stands in the index.
pub(crate) fn contains_in(index: &[Place], csn: Csn) -> bool
    requires { IsRising index.now }
    ensures { IsTrue result ↔ Contains (map (λ place. place.csn) index.now) csn }
{
    let at = place_of(index, csn);
    stands_at(index, at, csn)
}

fn stands_at(index: &[Place], at: usize, csn: Csn) -> bool
    ensures { IsTrue result ↔ ((at < length index.now) × ((slice_index_or index.now at no_place).csn ≡ csn)) }
{
    at < index.len() && index[at].csn == csn
}

/// The greatest CSN of the same originator below this one, and zero where there is none.
pub(crate) fn prev_in(index: &[Place], csn: Csn) -> Csn
    requires { IsRising index.now }
    ensures { result ≡ greatest (filter (is_before csn) (map (λ place. place.csn) index.now)) }
{
    let at = place_of(index, csn);
    if at > 0 && index[at - 1].csn.rid == csn.rid {
        index[at - 1].csn
    } else {
        Csn::ZERO
    }
}

/// How many places come before those of this originator beyond the CSN.
fn place_beyond(index: &[Place], rid: u16, beyond: Csn) -> usize
    requires { IsRising index.now }
    ensures within { result ≤ length index.now }
    ensures below { (k : ℕ) → k < result → is_upto rid beyond (slice_index_or index.now k no_place).csn ≡ true }
    ensures above { (k : ℕ) → result ≤ k → k < length index.now → is_upto rid beyond (slice_index_or index.now k no_place).csn ≡ false }
{
    index.partition_point(|place| comes_before(place.csn, rid, beyond))
}

fn comes_before(csn: Csn, rid: u16, beyond: Csn) -> bool
    ensures { result ≡ is_upto rid beyond csn }
{
    if csn.rid == rid {
        !beyond.compare(csn).is_lt()
    } else {
        csn.rid < rid
    }
}

/// The place of the least CSN of one originator above `beyond`, if it is at most `limit`.
fn next_of(index: &[Place], beyond: Csn, limit: Csn) -> Option<Place>
    requires { IsRising index.now }
    ensures { IsLeastOf index.now (is_in_reach beyond limit) result }
{
    let at = place_beyond(index, limit.rid, beyond);
    if at < index.len() {
        let place = index[at];
        if place.csn.rid == limit.rid && place.csn.compare(limit).is_le() {
            return Some(place);
        }
    }
    None
}

/// The place of the least CSN beyond the one vector and within the other.
pub(crate) fn first_between(index: &[Place], beyond: &Vector, limit: &Vector) -> Option<Place>
    requires { IsRising index.now }
    ensures { IsLeastOf index.now (is_between beyond.now limit.now) result }
{
    let mut best: Option<Place> = None;
    let entries = limit.entries();
    for last in entries {
        best = lower_of(best, next_of(index, beyond.get(last.rid), *last));
    }
    best
}

/// The place of the lower CSN, where there are two.
fn lower_of(a: Option<Place>, b: Option<Place>) -> Option<Place>
    ensures { result ≡ lower_place a b }
{
    match (a, b) {
        (Some(one), Some(other)) => {
            if other.csn.compare(one.csn).is_lt() {
                Some(other)
            } else {
                Some(one)
            }
        }
        (Some(one), None) => Some(one),
        (None, other) => other,
    }
}
