//! Whether changes are a closed set: a view of such a set is one that can be searched.

ghost use Rattle.std.specs.Prelude.{◌≡◌, ◌&&◌, ◌||◌, IsTrue, not, map};
ghost use Rattle.std.specs.List.{list_any, list_all, AllByRecursion};
ghost use Rattle.repl_data.specs.declared.change.Change.{Change};
ghost use Rattle.repl_data.specs.Order.{csn_eq, uid_eq, suffix_id};
ghost use Rattle.repl_data.specs.Text.{IsInRange};
ghost use Rattle.repl_data.specs.Facts.{ids_added, added_ids};
ghost use Rattle.repl_data.specs.Closed.{IsClosed, all_differ, is_sound, is_known, needed, is_rooted};

use repl_data::{Body, Change, Csn, Uid, and, check, or};

fn is_at(change: &Change, csn: Csn) -> bool
    ensures { result ≡ csn_eq csn change.now.csn }
{
    csn.compare(change.csn).is_eq()
}

/// One of the changes has this CSN.
fn has_csn(changes: &[Change], csn: Csn) -> bool
    ensures { result ≡ list_any (λ (c : Change). csn_eq csn c.csn) changes.now }
{
    changes.iter().any(|change| is_at(change, csn))
}

/// One of their CSNs is this one.
#[tactic(auto, using(repl_data::proofs::Known::any_map))]
fn is_among_csns(changes: &[Change], csn: Csn) -> bool
    ensures { result ≡ list_any (csn_eq csn) (map (λ (c : Change). c.csn) changes.now) }
{
    has_csn(changes, csn)
}

/// The first change has a CSN of its own, and so have the others.
fn differ_from(first: &Change, rest: &[Change], others: bool) -> bool
    ensures { result ≡ (not (list_any (csn_eq first.now.csn) (map (λ (c : Change). c.csn) rest.now)) && others) }
{
    and(!is_among_csns(rest, first.csn), others)
}

fn all_differ(changes: &[Change]) -> bool
    ensures { result ≡ all_differ (map (λ (c : Change). c.csn) changes.now) }
{
    match changes.split_first() {
        None => true,
        Some((first, rest)) => differ_from(first, rest, all_differ(rest)),
    }
}

fn is_sound(change: &Change) -> bool
    ensures { result ≡ is_sound change.now }
{
    match check(change) {
        Ok(()) => true,
        Err(_) => false,
    }
}

fn are_sound(changes: &[Change]) -> bool
    ensures { result ≡ list_all is_sound changes.now }
{
    changes.iter().all(|change| is_sound(change))
}

fn is_added(change: &Change, id: Uid) -> bool
    ensures { result ≡ list_any (uid_eq id) (ids_added change.now.target change.now.body) }
{
    match &change.body {
        Body::Add { .. } => or(id.csn.compare(change.target.csn).is_eq(), false),
        Body::Mod { .. } | Body::Ren { .. } | Body::Del => false,
    }
}

fn is_one_added(changes: &[Change], id: Uid) -> bool
    ensures { result ≡ list_any (λ (c : Change). list_any (uid_eq id) (ids_added c.target c.body)) changes.now }
{
    changes.iter().any(|change| is_added(change, id))
}

/// One of the ids that they add is this one.
#[tactic(auto, using(crate::proofs::AddedIds::added_any))]
fn is_among_added(changes: &[Change], id: Uid) -> bool
    ensures { result ≡ list_any (uid_eq id) (added_ids changes.now) }
{
    is_one_added(changes, id)
}

/// The id is that of the suffix, or one that was added.
fn is_known_or(id: Uid, added: bool) -> bool
    ensures { result ≡ (uid_eq id suffix_id || added) }
{
    or(id.csn.compare(Csn::ZERO).is_eq(), added)
}

fn is_known(changes: &[Change], id: Uid) -> bool
    ensures { result ≡ is_known changes.now id }
{
    is_known_or(id, is_among_added(changes, id))
}

fn needed(change: &Change) -> Uid
    ensures { result ≡ needed change.now.target change.now.body }
{
    match &change.body {
        Body::Add { parent, .. } => *parent,
        Body::Mod { .. } | Body::Ren { .. } | Body::Del => change.target,
    }
}

fn is_rooted(changes: &[Change], change: &Change) -> bool
    ensures { result ≡ is_rooted changes.now change.now }
{
    is_known(changes, needed(change))
}

fn are_rooted(changes: &[Change]) -> bool
    ensures { result ≡ list_all (is_rooted changes.now) changes.now }
{
    changes.iter().all(|change| is_rooted(changes, change))
}

/// Each CSN stands once, each change may be taken, and what it needs was added.
pub fn is_closed(changes: &[Change]) -> bool
    ensures { IsTrue result → IsClosed changes.now }
{
    and(
        all_differ(changes),
        and(are_sound(changes), are_rooted(changes)),
    )
}

fn is_in_range(csn: Csn) -> bool
    ensures { IsInRange csn }
{
    csn.compare(csn).is_eq()
}

/// The parts of each CSN are in the range of their types.
pub fn are_in_range(changes: &[Change]) -> bool
    ensures { AllByRecursion (λ (c : Change). IsInRange c.csn) changes.now }
{
    match changes.split_first() {
        None => true,
        Some((first, rest)) => and(is_in_range(first.csn), are_in_range(rest)),
    }
}
