//! Which values of an attribute show.

ghost use Rattle.std.specs.Prelude.{◌≡◌, ◌∷◌, [], ◌||◌, ◌&&◌, Bool, not, IfOk, OnOk, ◌++◌, map, filter, if◌then◌else◌};
ghost use Rattle.std.specs.List.{list_any};
ghost use Rattle.std.specs.Ordering.{is_lt};
ghost use Rattle.repl_data.specs.declared.csn.Csn.{Csn};
ghost use Rattle.repl_data.specs.Order.{bytes_cmp, bytes_eq, csn_cmp, csn_lt, csn_eq, csn_le};
ghost use Rattle.repl_data.specs.Facts.{ValFacts, is_in_name, is_held, shows_before, vals_shown};
ghost use Rattle.stamp_entry.specs.Shown.{val_of, gives_way, shows_among};

use repl_data::{
    AttrKey, Ava, Bytes, Items, NoMemory, Rdn, Val, ValList, is_below, is_single, same_bytes,
};
use std::alloc::Global;
use std::cmp::Ordering;

/// A value with the stamps that added and deleted it, however they are kept.
pub trait HeldVal {
    /// What is known of the value.
    ghost facts: { Self → ValFacts };

    /// The key by which it compares.
    fn key(&self) -> &Bytes
        ensures { result.now ≡ (facts self.now).key };

    fn spelled(&self) -> &Bytes
        ensures { result.now ≡ (facts self.now).spelled };

    /// It was added, and not deleted later.
    fn is_up(&self) -> bool
        ensures { result ≡ csn_le (facts self.now).down (facts self.now).up };

    /// How the stamps compare that added this one and another.
    fn compare_up(&self, other: &Self) -> Ordering
        ensures { result ≡ csn_cmp (facts self.now).up (facts other.now).up };
}

fn is_part(a: &Ava, attr: &AttrKey, key: &Bytes) -> bool
    ensures { result ≡ (bytes_eq a.now.attr.name attr.now.name && bytes_eq a.now.val.key key.now) }
{
    same_bytes(a.attr.name.as_slice(), attr.name.as_slice())
        && same_bytes(a.val.key.as_slice(), key.as_slice())
}

/// The name has this value.
fn is_in_name(rdn: &Rdn, attr: &AttrKey, key: &Bytes) -> bool
    ensures { result ≡ is_in_name rdn.now attr.now key.now }
{
    rdn.avas.as_slice().iter().any(|a| is_part(a, attr, key))
}

/// It is in the name, or was added and not deleted later.
fn is_held<T: HeldVal>(val: &T, rdn: &Rdn, attr: &AttrKey) -> bool
    ensures { result ≡ is_held rdn.now attr.now (T.facts val.now) }
{
    is_in_name(rdn, attr, val.key()) || val.is_up()
}

/// The later one, and of two with one stamp the one of the greater key.
fn is_later<T: HeldVal>(val: &T, other: &T) -> bool
    ensures { result ≡ (csn_lt (T.facts other.now).up (T.facts val.now).up || (csn_eq (T.facts other.now).up (T.facts val.now).up && is_lt (bytes_cmp (T.facts other.now).key (T.facts val.now).key))) }
{
    let order = other.compare_up(val);
    order.is_lt() || (order.is_eq() && is_below(other.key().as_slice(), val.key().as_slice()))
}

/// Of two held values of a single-valued type the first one shows before the other.
fn shows_before<T: HeldVal>(val: &T, other: &T, rdn: &Rdn, attr: &AttrKey) -> bool
    ensures { result ≡ shows_before rdn.now attr.now (T.facts val.now) (T.facts other.now) }
{
    match (
        is_in_name(rdn, attr, val.key()),
        is_in_name(rdn, attr, other.key()),
    ) {
        (true, false) => true,
        (false, true) => false,
        _ => is_later(val, other),
    }
}

/// The other one is held, and shows before it.
#[tactic(auto, unfolding(crate::specs::Shown::gives_way))]
fn gives_way<T: HeldVal>(val: &T, other: &T, rdn: &Rdn, attr: &AttrKey) -> bool
    ensures { result ≡ gives_way rdn.now attr.now (T.facts val.now) (T.facts other.now) }
{
    is_held(other, rdn, attr) && shows_before(other, val, rdn, attr)
}

fn gives_way_to_any<T: HeldVal>(val: &T, vals: &[T], rdn: &Rdn, attr: &AttrKey) -> bool
    ensures { result ≡ list_any (λ w. gives_way rdn.now attr.now (T.facts val.now) (T.facts w)) vals.now }
{
    vals.iter().any(|other| gives_way(val, other, rdn, attr))
}

/// It is held and shows: of a single-valued type before all others.
#[tactic(auto, unfolding(crate::specs::Shown::shows_among))]
fn shows_among<T: HeldVal>(single: bool, val: &T, vals: &[T], rdn: &Rdn, attr: &AttrKey) -> bool
    ensures { result ≡ shows_among T.facts rdn.now attr.now single vals.now val.now }
{
    is_held(val, rdn, attr) && (!single || !gives_way_to_any(val, vals, rdn, attr))
}

/// Appends the value without its stamps where it is wanted.
fn push_if<T: HeldVal>(wanted: bool, val: &T, shown: &mut ValList) -> Result<(), NoMemory>
    ensures { OnOk result (shown.new ≡ shown.old ++ (if wanted then val_of (T.facts val.now) ∷ [] else [])) }
{
    if wanted {
        let key = val.key().clone()?;
        let spelled = val.spelled().clone()?;
        shown.push(Val { key, spelled })?;
    }
    Ok(())
}

#[tactic(auto, using(repl_data::proofs::Loops::map_filter_more))]
fn each_shown<T: HeldVal>(
    alloc: Global,
    single: bool,
    rdn: &Rdn,
    attr: &AttrKey,
    vals: &[T],
) -> Result<ValList, NoMemory>
    ensures { IfOk result (λ shown. shown ≡ map (λ v. val_of (T.facts v)) (filter (shows_among T.facts rdn.now attr.now single vals.now) vals.now)) }
{
    let mut shown = Items::new(alloc);
    for val in vals {
        let wanted = shows_among(single, val, vals, rdn, attr);
        push_if(wanted, val, &mut shown)?;
    }
    Ok(shown)
}

/// The values of an attribute that show, of an entry with this name: all held ones, and of a single-valued type
/// the one before which no other shows. Takes time in proportion to the values, and quadratic time for a
/// single-valued type.
pub fn vals_shown<T: HeldVal>(
    alloc: Global,
    rdn: &Rdn,
    attr: &AttrKey,
    vals: &[T],
) -> Result<ValList, NoMemory>
    ensures { IfOk result (λ shown. (whole : Csn) → shown ≡ vals_shown rdn.now (record { attr = attr.now; whole = whole; vals = map T.facts vals.now })) }
{
    let single = is_single(attr);
    let shown = each_shown(alloc, single, rdn, attr, vals)?;
    Ok(shown)
}
