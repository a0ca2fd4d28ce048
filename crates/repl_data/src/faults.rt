//! Which changes may be taken: `check`, and the weight of a change.

ghost use Rattle.std.specs.Prelude.{◌≡◌, ◌+◌, ◌-◌, ◌*◌, ◌^◌, ◌≤◌, ◌<◌, ◌++◌, ◌==◌, nat_lt, map, Option, ℕ, Bool, not, ◌||◌, ◌&&◌, List, length, min, sum_by, IfSome, is_none, if◌then◌else◌, [], ◌∷◌, true};
ghost use Rattle.std.specs.List.{position_from, list_any, list_all};
ghost use Rattle.std.specs.Result.{result_err};
ghost use Rattle.std.specs.Ordering.{is_lt};
ghost use Rattle.repl_data.specs.declared.change.Ava.{Ava};
ghost use Rattle.repl_data.specs.declared.change.Val.{Val};
ghost use Rattle.repl_data.specs.declared.change.Attr.{Attr};
ghost use Rattle.repl_data.specs.declared.change.Mod.{Mod};
ghost use Rattle.repl_data.specs.Order.{bytes_cmp, bytes_eq};
ghost use Rattle.repl_data.specs.Types.{is_derived_attribute, is_derived_value, is_derived_ava};
ghost use Rattle.repl_data.specs.Check.{greatest_weight, adds_nothing, is_empty, val_weight, attr_weight, part_weight, weight, falls, falls_after, vals_rise, parts_of, part_falls, either_place, either_fault, first_fault, fault_at, fault_if, faults_of_frame, faults_of_body, names_derived, has_value, lacks_name_value, is_out_of_order, is_of_root, has_too_many, empty_places, double_places, derived_places, fault_of};
ghost use Rattle.repl_data.specs.Places.{first_of, earlier_of};

use crate::change::{Attr, AttrKey, Ava, Body, Change, Malformed, Mod, ModKind, Rdn, Val};
use crate::csn::{Csn, Uid};
use crate::items::Bytes;
use crate::sorted::{Keyed, is_below};
use crate::truth::{and, or, same_bytes};
use crate::types::{is_derived_attribute, is_derived_part, is_derived_value};

/// The greatest weight of a change that is taken.
pub const GREATEST_WEIGHT: u128 = 2_097_152;

/// The weight of values: exact where it fits, and else the greatest number.
fn vals_weight(vals: &[Val]) -> u128
    ensures { result ≡ min (sum_by val_weight vals.now) (2 ^ 128 - 1) }
{
    let mut total: u128 = 0;
    for v in vals {
        total = total.saturating_add(32 + v.spelled.len() as u128);
    }
    total
}

fn attr_weight(attr: &AttrKey, vals: &[Val]) -> u128
    ensures { result ≡ min (attr_weight attr.now vals.now) (2 ^ 128 - 1) }
{
    vals_weight(vals).saturating_add(32 + attr.name.len() as u128)
}

fn parts_weight(parts: &[Ava]) -> u128
    ensures { result ≡ min (sum_by part_weight parts.now) (2 ^ 128 - 1) }
{
    let mut total: u128 = 0;
    for a in parts {
        let bytes = a.attr.name.len() as u128 + a.val.spelled.len() as u128;
        total = total.saturating_add(32 + 4 * bytes);
    }
    total
}

fn attrs_weight(attrs: &[Attr]) -> u128
    ensures { result ≡ min (sum_by (λ (a : Attr). attr_weight a.attr a.vals) attrs.now) (2 ^ 128 - 1) }
{
    let mut total: u128 = 0;
    for a in attrs {
        total = total.saturating_add(attr_weight(&a.attr, a.vals.as_slice()));
    }
    total
}

fn mods_weight(mods: &[Mod]) -> u128
    ensures { result ≡ min (sum_by (λ (m : Mod). attr_weight m.attr m.vals) mods.now) (2 ^ 128 - 1) }
{
    let mut total: u128 = 0;
    for m in mods {
        total = total.saturating_add(attr_weight(&m.attr, m.vals.as_slice()));
    }
    total
}

/// The weight of a body, by which changes are bounded: 512, and 32 for each attribute, modification,
/// value and name part, and the bytes of names and spelled values, four times in relative names and
/// dropped values. A weight that does not fit is the greatest number. Takes time in proportion to the
/// number of values.
pub fn weight(body: &Body) -> u128
    ensures { result ≡ min (weight body.now) (2 ^ 128 - 1) }
{
    match body {
        Body::Add { rdn, attrs, .. } => parts_weight(rdn.avas.as_slice())
            .saturating_add(attrs_weight(attrs.as_slice()))
            .saturating_add(512),
        Body::Mod { mods } => mods_weight(mods.as_slice()).saturating_add(512),
        Body::Ren { rdn, dropped } => parts_weight(rdn.avas.as_slice())
            .saturating_add(parts_weight(dropped.as_slice()))
            .saturating_add(512),
        Body::Del => 512,
    }
}

/// The place of the first item whose key is not above the one before it.
fn first_fall<T: Keyed>(items: &[T]) -> Option<usize>
    ensures { result ≡ position_from (λ b. b) 0 (falls T.key_of items.now) }
{
    match items.split_first() {
        Some((first, rest)) => fall_after(first, rest),
        None => None,
    }
}

fn fall_after<T: Keyed>(first: &T, rest: &[T]) -> Option<usize>
    ensures { result ≡ position_from (λ b. b) 1 (falls_after T.key_of first.now rest.now) }
{
    let mut before = first;
    for (i, item) in rest.iter().enumerate() {
        if !is_below(before.key(), item.key()) {
            return Some(i + 1);
        }
        before = item;
    }
    None
}

fn rises(vals: &[Val]) -> bool
    ensures { result ≡ vals_rise vals.now }
{
    is_absent(first_fall(vals))
}

fn is_absent(place: Option<usize>) -> bool
    ensures { result ≡ is_none place }
{
    match place {
        Some(_) => false,
        None => true,
    }
}

fn has_derived_class(attr: &AttrKey, vals: &[Val]) -> bool
    ensures { result ≡ list_any (is_derived_value attr.now) vals.now }
{
    vals.iter().any(|v| is_derived_value(attr, v))
}

fn is_derived(attr: &AttrKey, vals: &[Val]) -> bool
    ensures { result ≡ names_derived attr.now vals.now }
{
    or(is_derived_attribute(attr), has_derived_class(attr, vals))
}

fn has_key(vals: &[Val], key: &Bytes) -> bool
    ensures { result ≡ list_any (λ (v : Val). bytes_eq v.key key.now) vals.now }
{
    vals.iter()
        .any(|v| same_bytes(v.key.as_slice(), key.as_slice()))
}

fn is_part_of(b: &Attr, a: &Ava) -> bool
    ensures { result ≡ (bytes_eq b.now.attr.name a.now.attr.name && list_any (λ (v : Val). bytes_eq v.key a.now.val.key) b.now.vals) }
{
    let named = same_bytes(b.attr.name.as_slice(), a.attr.name.as_slice());
    and(named, has_key(b.vals.as_slice(), &a.val.key))
}

fn has_part(attrs: &[Attr], a: &Ava) -> bool
    ensures { result ≡ has_value attrs.now a.now }
{
    attrs.iter().any(|b| is_part_of(b, a))
}

fn has_parts(attrs: &[Attr], parts: &[Ava]) -> bool
    ensures { result ≡ list_all (has_value attrs.now) parts.now }
{
    parts.iter().all(|a| has_part(attrs, a))
}

fn is_bare(m: &Mod) -> bool
    ensures { result ≡ adds_nothing m.now }
{
    m.kind == ModKind::Add && m.vals.is_empty()
}

fn empty_attr(attrs: &[Attr]) -> Option<usize>
    ensures { result ≡ position_from (λ (a : Attr). is_empty a.vals) 0 attrs.now }
{
    attrs.iter().position(|a| a.vals.is_empty())
}

fn empty_mod(mods: &[Mod]) -> Option<usize>
    ensures { result ≡ position_from adds_nothing 0 mods.now }
{
    mods.iter().position(|m| is_bare(m))
}

fn unsorted_attr(attrs: &[Attr]) -> Option<usize>
    ensures { result ≡ position_from (λ (a : Attr). not (vals_rise a.vals)) 0 attrs.now }
{
    attrs.iter().position(|a| !rises(a.vals.as_slice()))
}

fn unsorted_mod(mods: &[Mod]) -> Option<usize>
    ensures { result ≡ position_from (λ (m : Mod). not (vals_rise m.vals)) 0 mods.now }
{
    mods.iter().position(|m| !rises(m.vals.as_slice()))
}

fn derived_part(parts: &[Ava]) -> Option<usize>
    ensures { result ≡ position_from is_derived_ava 0 parts.now }
{
    parts.iter().position(|a| is_derived_part(a))
}

fn derived_attr(attrs: &[Attr]) -> Option<usize>
    ensures { result ≡ position_from (λ (a : Attr). names_derived a.attr a.vals) 0 attrs.now }
{
    attrs
        .iter()
        .position(|a| is_derived(&a.attr, a.vals.as_slice()))
}

fn derived_mod(mods: &[Mod]) -> Option<usize>
    ensures { result ≡ position_from (λ (m : Mod). names_derived m.attr m.vals) 0 mods.now }
{
    mods.iter()
        .position(|m| is_derived(&m.attr, m.vals.as_slice()))
}

/// The first place of two lists of places, the second behind `count` places.
fn first(before: Option<usize>, count: usize, after: Option<usize>) -> Option<usize>
    requires { IfSome after (λ k. count + k < 2 ^ 64) }
    ensures { result ≡ first_of before count after }
{
    match (before, after) {
        (Some(k), _) => Some(k),
        (None, Some(k)) => Some(count + k),
        (None, None) => None,
    }
}

/// The earlier of two places.
fn earlier(a: Option<usize>, b: Option<usize>) -> Option<usize>
    ensures { result ≡ earlier_of a b }
{
    match (a, b) {
        (Some(i), Some(j)) => Some(i.min(j)),
        (Some(i), None) => Some(i),
        (None, b) => b,
    }
}

/// Place 0 where there is no part.
fn no_part(rdn: &Rdn) -> Option<usize>
    ensures { result ≡ position_from (λ b. b) 0 (parts_of rdn.now) }
{
    if rdn.avas.is_empty() { Some(0) } else { None }
}

fn empty_in_mods(mods: &[Mod]) -> Option<usize>
    ensures { result ≡ position_from (λ b. b) 0 (if is_empty mods.now then true ∷ [] else map adds_nothing mods.now) }
{
    if mods.is_empty() {
        Some(0)
    } else {
        empty_mod(mods)
    }
}

fn empty_in_add(rdn: &Rdn, attrs: &[Attr]) -> Option<usize>
    requires { length rdn.now.avas + length attrs.now < 2 ^ 64 }
    ensures { result ≡ position_from (λ b. b) 0 (parts_of rdn.now ++ map (λ (a : Attr). is_empty a.vals) attrs.now) }
{
    first(no_part(rdn), rdn.avas.len(), empty_attr(attrs))
}

fn double_in_add(parts: &[Ava], attrs: &[Attr]) -> Option<usize>
    requires { length parts.now + length attrs.now < 2 ^ 64 }
    ensures { result ≡ position_from (λ b. b) 0 (part_falls parts.now ++ either_place (falls (λ (a : Attr). a.attr.name) attrs.now) (map (λ (a : Attr). not (vals_rise a.vals)) attrs.now)) }
{
    let among_attrs = earlier(first_fall(attrs), unsorted_attr(attrs));
    first(first_fall(parts), parts.len(), among_attrs)
}

fn double_in_ren(parts: &[Ava], dropped: &[Ava]) -> Option<usize>
    requires { length parts.now + length dropped.now < 2 ^ 64 }
    ensures { result ≡ position_from (λ b. b) 0 (part_falls parts.now ++ part_falls dropped.now) }
{
    let among_dropped = first_fall(dropped);
    first(first_fall(parts), parts.len(), among_dropped)
}

fn derived_in_add(parts: &[Ava], attrs: &[Attr]) -> Option<usize>
    requires { length parts.now + length attrs.now < 2 ^ 64 }
    ensures { result ≡ position_from (λ b. b) 0 (map is_derived_ava parts.now ++ map (λ (a : Attr). names_derived a.attr a.vals) attrs.now) }
{
    first(derived_part(parts), parts.len(), derived_attr(attrs))
}

fn derived_in_ren(parts: &[Ava], dropped: &[Ava]) -> Option<usize>
    requires { length parts.now + length dropped.now < 2 ^ 64 }
    ensures { result ≡ position_from (λ b. b) 0 (map is_derived_ava parts.now ++ map is_derived_ava dropped.now) }
{
    let among_dropped = derived_part(dropped);
    first(derived_part(parts), parts.len(), among_dropped)
}

fn empty_place(body: &Body) -> Option<usize>
    requires { weight body.now ≤ greatest_weight }
    ensures { result ≡ position_from (λ b. b) 0 (empty_places body.now) }
{
    match body {
        Body::Add { rdn, attrs, .. } => empty_in_add(rdn, attrs.as_slice()),
        Body::Mod { mods } => empty_in_mods(mods.as_slice()),
        Body::Ren { rdn, .. } => no_part(rdn),
        Body::Del => None,
    }
}

fn double_place(body: &Body) -> Option<usize>
    requires { weight body.now ≤ greatest_weight }
    ensures { result ≡ position_from (λ b. b) 0 (double_places body.now) }
{
    match body {
        Body::Add { rdn, attrs, .. } => double_in_add(rdn.avas.as_slice(), attrs.as_slice()),
        Body::Mod { mods } => unsorted_mod(mods.as_slice()),
        Body::Ren { rdn, dropped } => double_in_ren(rdn.avas.as_slice(), dropped.as_slice()),
        Body::Del => None,
    }
}

fn derived_place(body: &Body) -> Option<usize>
    requires { weight body.now ≤ greatest_weight }
    ensures { result ≡ position_from (λ b. b) 0 (derived_places body.now) }
{
    match body {
        Body::Add { rdn, attrs, .. } => derived_in_add(rdn.avas.as_slice(), attrs.as_slice()),
        Body::Mod { mods } => derived_mod(mods.as_slice()),
        Body::Ren { rdn, dropped } => derived_in_ren(rdn.avas.as_slice(), dropped.as_slice()),
        Body::Del => None,
    }
}

fn no_name_value(body: &Body) -> bool
    ensures { result ≡ lacks_name_value body.now }
{
    match body {
        Body::Add { rdn, attrs, .. } => !has_parts(attrs.as_slice(), rdn.avas.as_slice()),
        _ => false,
    }
}

fn out_of_order(csn: Csn, target: Uid, body: &Body) -> bool
    ensures { result ≡ is_out_of_order csn target body.now }
{
    match body {
        Body::Add { parent, .. } => or(target.csn != csn, !(parent.csn < csn)),
        _ => !(target.csn < csn),
    }
}

fn of_root(target: Uid, body: &Body) -> bool
    ensures { result ≡ is_of_root target body.now }
{
    match body {
        Body::Ren { .. } | Body::Del => target == Uid::SUFFIX,
        _ => false,
    }
}

fn too_many(body: &Body) -> bool
    ensures { result ≡ has_too_many body.now }
{
    match body {
        Body::Add { attrs, .. } => attrs.len() > 500,
        Body::Mod { mods } => mods.len() > 1000,
        _ => false,
    }
}

fn too_heavy(body: &Body) -> bool
    ensures { result ≡ nat_lt greatest_weight (weight body.now) }
{
    weight(body) > GREATEST_WEIGHT
}

fn fault_where(is_so: bool, why: Malformed) -> Option<Malformed>
    ensures { result ≡ fault_if is_so why }
{
    if is_so { Some(why) } else { None }
}

fn either(a: Option<Malformed>, b: Option<Malformed>) -> Option<Malformed>
    ensures { result ≡ either_fault a b }
{
    match a {
        Some(why) => Some(why),
        None => b,
    }
}

fn empty_fault(body: &Body) -> Option<Malformed>
    requires { weight body.now ≤ greatest_weight }
    ensures { result ≡ fault_at Malformed.Empty (empty_places body.now) }
{
    match empty_place(body) {
        Some(place) => Some(Malformed::Empty { place }),
        None => None,
    }
}

fn double_fault(body: &Body) -> Option<Malformed>
    requires { weight body.now ≤ greatest_weight }
    ensures { result ≡ fault_at Malformed.DoubleKey (double_places body.now) }
{
    match double_place(body) {
        Some(place) => Some(Malformed::DoubleKey { place }),
        None => None,
    }
}

fn derived_fault(body: &Body) -> Option<Malformed>
    requires { weight body.now ≤ greatest_weight }
    ensures { result ≡ fault_at Malformed.Derived (derived_places body.now) }
{
    match derived_place(body) {
        Some(place) => Some(Malformed::Derived { place }),
        None => None,
    }
}

fn body_fault(body: &Body) -> Option<Malformed>
    requires { weight body.now ≤ greatest_weight }
    ensures { result ≡ first_fault (faults_of_body body.now) }
{
    let empty = empty_fault(body);
    let double = double_fault(body);
    let derived = derived_fault(body);
    let name_value = fault_where(no_name_value(body), Malformed::NameValue);
    either(empty, either(double, either(derived, name_value)))
}

fn has_bad_rid(csn: Csn) -> bool
    ensures { result ≡ ((csn.rid == 0) || (csn.rid == 65535)) }
{
    or(csn.rid == 0, csn.rid == 65535)
}

fn has_sub(csn: Csn) -> bool
    ensures { result ≡ not (csn.sub == 0) }
{
    csn.sub != 0
}

fn frame_fault(change: &Change) -> Option<Malformed>
    ensures { result ≡ first_fault (faults_of_frame change.now) }
{
    let rid = fault_where(has_bad_rid(change.csn), Malformed::Rid);
    let sub = fault_where(has_sub(change.csn), Malformed::Sub);
    let late = out_of_order(change.csn, change.target, &change.body);
    let order = fault_where(late, Malformed::Order);
    let root = fault_where(of_root(change.target, &change.body), Malformed::Root);
    let many = fault_where(too_many(&change.body), Malformed::TooMany);
    let heavy = fault_where(too_heavy(&change.body), Malformed::TooHeavy);
    either(
        rid,
        either(sub, either(order, either(root, either(many, heavy)))),
    )
}

fn fault(change: &Change) -> Option<Malformed>
    ensures { result ≡ fault_of change.now }
{
    match frame_fault(change) {
        Some(why) => Some(why),
        None => body_fault(&change.body),
    }
}

/// Whether a change may be taken at all: the first of the faults of `Malformed` that it has, in the
/// order in which they stand there, with the first place at fault. Never `Prev`, which is no fault of a
/// change. Takes time in proportion to the change's bytes, and of an Add's name parts times its values.
pub fn check(change: &Change) -> Result<(), Malformed>
    ensures { result_err result ≡ fault_of change.now }
{
    match fault(change) {
        Some(why) => Err(why),
        None => Ok(()),
    }
}
