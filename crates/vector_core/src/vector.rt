//! The update vector.

ghost use Rattle.std.specs.Prelude.{◌≡◌, ◌≢◌, ℕ, ◌+◌, ◌<◌, ◌≤◌, ◌↔◌, ◌⊎◌, ◌++◌, ◌∷◌, [], List, true, length, slice_index_or, Contains, IsOk, IfOk, OnOk, OnErr, MatchOption, vec_len, vec_capacity};
ghost use Rattle.repl_data.specs.declared.csn.Csn.{Csn};
ghost use Rattle.repl_data.specs.Order.{csn_le, zero_csn};
ghost use Rattle.vector_core.specs.Vector.{IsVector, entry_of, is_covered_by, IsRaised, IsMerged, HasEntries};
ghost use Rattle.vector_core.specs.Greatest.{greatest, later_of};

use repl_data::{Csn, NoMemory};
use std::alloc::Global;
use std::marker::Model;

/// An update vector: the greatest CSN of each originator.
///
/// Contracts see the list of its entries, in rising order of replica id.
#[derive(Debug, Drop)]
pub struct Vector {
    list: Vec<Csn>,
}

impl Model for Vector {
    ghost use Rattle.std.specs.Prelude.{List};
    ghost use Rattle.repl_data.specs.declared.csn.Csn.{Csn};
    ghost use Rattle.vector_core.specs.Vector.{IsVector};

    ghost Value = { List Csn };

    ghost view = { λ v. v.list.items };

    ghost invariant = { λ v. IsVector v.list.items };
}

impl Vector {
    /// A vector with no entry.
    pub fn new(alloc: Global) -> Result<Vector, NoMemory>
        ensures { IfOk result (λ v. v ≡ []) }
    {
        Ok(Vector {
            list: Vec::new(alloc),
        })
    }

    /// The entries, in rising order of replica id.
    pub fn entries(&self) -> &[Csn]
        ensures value { result.now ≡ self.now }
        ensures vector { IsVector self.now }
    {
        self.list.as_slice()
    }

    /// The entry of this originator, and zero where it has none. Costs the logarithm of the number
    /// of entries.
    pub fn get(&self, rid: u16) -> Csn
        ensures entry { result ≡ entry_of self.now rid }
    {
        entry_in(self.list.as_slice(), rid)
    }

    /// The CSN is at or below the entry of its originator. Costs what `get` does.
    pub fn covers(&self, csn: Csn) -> bool
        ensures { result ≡ is_covered_by self.now csn }
    {
        csn.compare(self.get(csn.rid)).is_le()
    }

    /// Raises the entry of the CSN's originator to at least the CSN. A search by halves, and where
    /// the originator had no entry a move of those behind.
    pub fn raise(&mut self, _alloc: Global, csn: Csn) -> Result<(), NoMemory>
        ensures ok { OnOk result (IsRaised self.old self.new csn) }
        ensures vector { IsVector self.new }
        ensures err { OnErr result (self.new ≡ self.old) }
    {
        raise_in(&mut self.list, csn)
    }

    /// Raises each entry to at least that of the other vector. Costs one `raise` for each entry of
    /// the other one.
    pub fn merge(&mut self, _alloc: Global, other: &Vector) -> Result<(), NoMemory>
        ensures ok { OnOk result (IsMerged self.old other.now self.new) }
        ensures vector { IsVector self.new }
        ensures err { OnErr result (self.new ≡ self.old) }
    {
        let more = other.list.as_slice();
        self.list.reserve(more.len())?;
        raise_all(&mut self.list, more);
        Ok(())
    }
}

/// Where the entry of this originator stands, or would stand.
fn place_of(list: &[Csn], rid: u16) -> usize
    requires { IsVector list.now }
    ensures within { result ≤ length list.now }
    ensures below { (k : ℕ) → k < result → (slice_index_or list.now k zero_csn).rid < rid }
    ensures above { (k : ℕ) → result ≤ k → k < length list.now → rid ≤ (slice_index_or list.now k zero_csn).rid }
{
    list.partition_point(|c| c.rid < rid)
}

/// The element at this place, if it is of this originator.
fn entry_at(list: &[Csn], at: usize, rid: u16) -> Option<Csn>
    ensures { MatchOption result (at < length list.now → (slice_index_or list.now at zero_csn).rid ≢ rid) (λ entry. (at < length list.now) × (entry ≡ slice_index_or list.now at zero_csn) × (entry.rid ≡ rid)) }
{
    if at < list.len() {
        let entry = list[at];
        if entry.rid == rid {
            return Some(entry);
        }
    }
    None
}

fn entry_in(list: &[Csn], rid: u16) -> Csn
    requires { IsVector list.now }
    ensures { result ≡ entry_of list.now rid }
{
    match entry_at(list, place_of(list, rid), rid) {
        Some(entry) => entry,
        None => Csn::ZERO,
    }
}

fn raise_in(list: &mut Vec<Csn>, csn: Csn) -> Result<(), NoMemory>
    requires { IsVector list.old.items }
    ensures ok { OnOk result (IsRaised list.old.items list.new.items csn) }
    ensures vector { IsVector list.new.items }
    ensures err { OnErr result (list.new.items ≡ list.old.items) }
    ensures capacity { vec_capacity list.old ≤ vec_capacity list.new }
    ensures len { vec_len list.new ≤ vec_len list.old + 1 }
    ensures room { vec_len list.old < vec_capacity list.old → IsOk result }
{
    if csn == Csn::ZERO {
        return Ok(());
    }
    let at = place_of(list.as_slice(), csn.rid);
    let Some(entry) = entry_at(list.as_slice(), at, csn.rid) else {
        list.insert(at, csn)?;
        return Ok(());
    };
    if entry.compare(csn).is_ge() {
        return Ok(());
    }
    list[at] = csn;
    Ok(())
}

/// Raises by each of these. There are places for all of them.
fn raise_all(list: &mut Vec<Csn>, more: &[Csn])
    requires vector { IsVector list.old.items }
    requires room { vec_len list.old + length more.now ≤ vec_capacity list.old }
    ensures merged { IsMerged list.old.items more.now list.new.items }
    ensures vector { IsVector list.new.items }
{
    for csn in more {
        raise_in(list, *csn).unwrap();
    }
}

/// What the greatest CSN of a list is.
pub fn greatest_laws()
    // No member is above it.
    ensures above { (csns : List Csn) (csn : Csn) → Contains csns csn → csn_le csn (greatest csns) ≡ true }

    // It is a member, or none where it is zero.
    ensures among { (csns : List Csn) → (greatest csns ≡ zero_csn) ⊎ Contains csns (greatest csns) }

    // Lists with the same members have the same one.
    ensures same { (a b : List Csn) → ((csn : Csn) → Contains a csn ↔ Contains b csn) → greatest a ≡ greatest b }

    // One more CSN raises it.
    ensures push { (csns : List Csn) (csn : Csn) → greatest (csns ++ csn ∷ []) ≡ later_of (greatest csns) csn }
    ensures empty { greatest [] ≡ zero_csn }
{}
