//! The child of a name, and names that have a part for the id, as one shows that lost its own.
ghost use Rattle.std.specs.Prelude.{◌≡◌, ◌≤◌, ◌∷◌, ◌++◌, ◌&&◌, List, [], ℕ, true, false, None, length, map, find, take, drop, insert, codes};
ghost use Rattle.std.specs.List.{list_any};
ghost use Rattle.std.specs.Option.{option_copied};
ghost use Rattle.std.specs.Ordering.{is_eq};
ghost use Rattle.repl_data.specs.declared.csn.Uid.{Uid};
ghost use Rattle.repl_data.specs.declared.change.Ava.{Ava};
ghost use Rattle.repl_data.specs.Order.{bytes_cmp, part_key, part_cmp, rdn_key, rdn_key_cmp, same_rdn, put_by, uid_eq};
ghost use Rattle.repl_data.specs.Text.{uid_text};
ghost use Rattle.repl_data.specs.Presence.{present_of, is_child};
ghost use Rattle.repl_data.specs.Names.{is_id_part, has_id, id_ava, with_id, shown_rdn};
ghost use Rattle.repl_data.specs.View.{view_of_facts, child_of};
ghost use Rattle.urp_tree.specs.Rows.{facts_in};
ghost use Rattle.urp_tree.specs.Known.{IsTree};
ghost use Rattle.urp_tree.specs.Seen.{IsKept, is_sought};

use crate::asked::{holder, is_root, lost, present_row};
use crate::room::seat_count;
use crate::row::Row;
use crate::seat::Rows;
use repl_data::{Ava, Rdn, Uid, and, same_bytes};
use stamp_entry::StampedEntry;
use std::cmp::Ordering;

fn is_id_part(part: &Ava) -> bool
    ensures { result ≡ is_id_part (part_key part.now) }
{
    same_bytes(part.attr.name.as_slice(), b"nsuniqueid".as_slice())
}

/// The first part for an id.
fn id_part(parts: &[Ava]) -> Option<&Ava>
    ensures { option_copied result ≡ find (λ (a : Ava). is_id_part (part_key a)) parts.now }
{
    parts.iter().find(|a| is_id_part(a))
}

/// How the name `nsuniqueid` stands to that of a part.
fn compare_id_to(part: &Ava) -> Ordering
    ensures { result ≡ bytes_cmp (codes "nsuniqueid") part.now.attr.name }
{
    b"nsuniqueid".as_slice().cmp(part.attr.name.as_slice())
}

/// Where a part for an id goes among parts of which none is one.
fn id_place(parts: &[Ava]) -> usize
    ensures within { result ≤ length parts.now }
    ensures put { (u : Uid) → list_any (λ (a : Ava). is_id_part (part_key a)) parts.now ≡ false → put_by (λ (a : Ava). a.attr.name) bytes_cmp (id_ava u) parts.now ≡ insert parts.now result (id_ava u) }
{
    for (at, part) in parts.iter().enumerate() {
        match compare_id_to(part) {
            Ordering::Less => return at,
            Ordering::Equal => return at,
            Ordering::Greater => {}
        }
    }
    parts.len()
}

fn compare_parts(a: &[Ava], b: &[Ava]) -> Ordering
    ensures { result ≡ rdn_key_cmp (map part_key a.now) (map part_key b.now) }
{
    a.cmp(b)
}

/// The part is one for the id of this text.
fn has_text(part: &Ava, text: &[u8]) -> bool
    ensures { result ≡ is_eq (part_cmp (codes "nsuniqueid", text.now) (part_key part.now)) }
{
    compare_id_to(part)
        .then(text.cmp(part.val.key.as_slice()))
        .is_eq()
}

/// The parts are others with one for the id of this text at its place.
fn is_joined_at(own: &[Ava], at: usize, text: &[u8], parts: &[Ava]) -> bool
    requires { at ≤ length own.now }
    ensures { result ≡ is_eq (rdn_key_cmp (take at (map part_key own.now) ++ (codes "nsuniqueid", text.now) ∷ drop at (map part_key own.now)) (map part_key parts.now)) }
{
    if parts.len() <= at {
        return false;
    }
    let front = compare_parts(&own[..at], &parts[..at]).is_eq();
    let part = has_text(&parts[at], text);
    let rest = compare_parts(&own[at..], &parts[at + 1..]).is_eq();
    and(front, and(part, rest))
}

/// A name is another, that has no part for an id, with the id of this text joined to it.
fn is_joined(own: &Rdn, text: &[u8], rdn: &Rdn) -> bool
    ensures { (u : Uid) → has_id own.now ≡ false → text.now ≡ uid_text u → result ≡ same_rdn (with_id u own.now) rdn.now }
{
    let at = id_place(own.avas.as_slice());
    is_joined_at(own.avas.as_slice(), at, text, rdn.avas.as_slice())
}

pub(crate) fn same_id(a: Uid, b: Uid) -> bool
    ensures { result ≡ uid_eq a b }
{
    a.csn.compare(b.csn).is_eq()
}

fn stands_below(entry: &StampedEntry, parent: Uid) -> bool
    ensures { result ≡ is_child parent entry.now }
{
    and(same_id(entry.parent, parent), !is_root(entry.id))
}

/// The entry is a child that shows this name, which has a part for the id of the entry.
fn is_lost_child(rows: &Rows, row: &Row, parent: Uid, text: &[u8], rdn: &Rdn) -> bool
    requires tree { IsTree rows.now None [] }
    requires keeps { IsKept (facts_in rows.now.entries) row.now }
    requires text { text.now ≡ uid_text row.now.entry.id }
    requires joined { has_id rdn.now ≡ true }
    ensures { result ≡ is_sought (present_of (facts_in rows.now.entries)) parent rdn.now row.now.entry }
{
    let child = stands_below(&row.entry, parent);
    let lost = lost(rows, &row.entry);
    let joined = is_joined(&row.entry.rdn, text, rdn);
    and(child, and(lost, joined))
}

/// The child that shows a name. Two look-ups.
pub(crate) fn child(rows: &Rows, parent: Uid, rdn: &Rdn) -> Option<Uid>
    requires { IsTree rows.now None [] }
    ensures { (suffix : List ℕ) → result ≡ child_of (view_of_facts suffix (facts_in rows.now.entries)) parent rdn.now }
{
    let _seats = seat_count(rows);
    let Some(part) = id_part(rdn.avas.as_slice()) else {
        return holder(rows, parent, rdn);
    };
    let Some(id) = Uid::read(part.val.key.as_slice()) else {
        return None;
    };
    let Some(row) = present_row(rows, id) else {
        return None;
    };
    if is_lost_child(rows, row, parent, part.val.key.as_slice(), rdn) {
        return Some(id);
    }
    None
}
