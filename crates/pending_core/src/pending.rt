//! The CSNs that were drawn and not settled.

ghost use Rattle.std.specs.Prelude.{◌≡◌, ◌+◌, ◌<◌, ◌≤◌, ◌↔◌, ◌++◌, ◌∷◌, [], ℕ, true, false, length, slice_index_or, Contains, IsTrue, IsErr, OnOk, OnErr, IfOk, MatchOption, vec_len, vec_capacity};
ghost use Rattle.repl_data.specs.declared.csn.Csn.{Csn};
ghost use Rattle.repl_data.specs.Order.{csn_lt, zero_csn};
ghost use Rattle.pending_core.specs.Pending.{places, IsRising, IsAbove, IsLeast, without};

use repl_data::{Csn, NoMemory};
use std::alloc::Global;
use std::marker::Model;

/// The number of CSNs that can be pending at a time. (Contracts name it `places`.)
pub const PLACES: usize = 1024;

/// As many CSNs are pending as can be.
#[derive(Clone, Copy, Debug, Drop, Eq, PartialEq)]
pub struct Full;

/// The CSNs that a node has drawn and not settled.
///
/// Contracts see the list of them, which rises. Its places are reserved once, at the making.
#[derive(Debug, Drop)]
pub struct PendingList {
    held: Vec<Csn>,
}

impl Model for PendingList {
    ghost use Rattle.std.specs.Prelude.{◌≤◌, List, vec_len, vec_capacity};
    ghost use Rattle.repl_data.specs.declared.csn.Csn.{Csn};
    ghost use Rattle.pending_core.specs.Pending.{IsRising, places};

    ghost Value = { List Csn };

    ghost view = { λ p. p.held.items };

    ghost invariant = { λ p. IsRising p.held.items × (vec_len p.held ≤ places) × (places ≤ vec_capacity p.held) };
}

impl PendingList {
    /// A list that holds none, with its places reserved.
    pub fn new(alloc: Global) -> Result<PendingList, NoMemory>
        ensures { IfOk result (λ list. list ≡ []) }
    {
        Ok(PendingList {
            held: Vec::with_capacity(alloc, PLACES)?,
        })
    }

    /// The CSNs held, in rising order.
    pub fn as_slice(&self) -> &[Csn]
        ensures value { result.now ≡ self.now }
        ensures rising { IsRising self.now }
    {
        self.held.as_slice()
    }

    pub fn len(&self) -> usize
        ensures value { result ≡ length self.now }
        ensures places { length self.now ≤ places }
        ensures rising { IsRising self.now }
    {
        self.held.len()
    }

    pub fn is_empty(&self) -> bool
        ensures { IsTrue result ↔ (self.now ≡ []) }
    {
        self.held.is_empty()
    }

    pub fn is_full(&self) -> bool
        ensures { IsTrue result ↔ (length self.now ≡ places) }
    {
        self.held.len() == PLACES
    }

    /// The CSN is held. A search by halves.
    pub fn contains(&self, csn: Csn) -> bool
        ensures { IsTrue result ↔ Contains self.now csn }
    {
        contains_in(self.held.as_slice(), csn)
    }

    /// The least CSN held, in constant time.
    pub fn front(&self) -> Option<Csn>
        ensures { MatchOption result (self.now ≡ []) (λ csn. Contains self.now csn × IsLeast self.now csn) }
    {
        least_of(self.held.as_slice())
    }

    /// Holds a CSN that is above all held ones, in constant time. Full exactly with 1,024 held.
    pub fn begin(&mut self, csn: Csn) -> Result<(), Full>
        requires { IsAbove self.old csn }
        ensures ok { OnOk result (self.new ≡ self.old ++ csn ∷ []) }
        ensures full { IsErr result ↔ (length self.old ≡ places) }
        ensures err { OnErr result (self.new ≡ self.old) }
    {
        if self.held.len() == PLACES {
            return Err(Full);
        }
        self.held.push(csn).unwrap();
        Ok(())
    }

    /// Takes out the CSN of a change that is settled. A search by halves, and a move of those behind.
    pub fn settle(&mut self, csn: Csn)
        requires { Contains self.old csn }
        ensures { self.new ≡ without self.old csn }
    {
        take_out(&mut self.held, csn);
    }

    /// Takes out the CSN of a change that is given up. A search by halves, and a move of those behind.
    pub fn abort(&mut self, csn: Csn)
        requires { Contains self.old csn }
        ensures { self.new ≡ without self.old csn }
    {
        self.settle(csn);
    }

    /// Puts a CSN that is above all held ones in the place of a held one. A search by halves, and a
    /// move of those behind.
    pub fn replace(&mut self, old: Csn, new: Csn)
        requires held { Contains self.old old }
        requires above { IsAbove self.old new }
        ensures { self.new ≡ without self.old old ++ new ∷ [] }
    {
        take_out(&mut self.held, old);
        self.held.push(new).unwrap();
    }
}

/// Where the CSN stands, or would stand.
fn place_of(held: &[Csn], csn: Csn) -> usize
    requires { IsRising held.now }
    ensures within { result ≤ length held.now }
    ensures below { (k : ℕ) → k < result → csn_lt (slice_index_or held.now k zero_csn) csn ≡ true }
    ensures above { (k : ℕ) → result ≤ k → k < length held.now → csn_lt (slice_index_or held.now k zero_csn) csn ≡ false }
    ensures found { Contains held.now csn → (result < length held.now) × (slice_index_or held.now result zero_csn ≡ csn) }
{
    held.partition_point(|c| c.compare(csn).is_lt())
}

fn least_of(held: &[Csn]) -> Option<Csn>
    requires { IsRising held.now }
    ensures { MatchOption result (held.now ≡ []) (λ csn. Contains held.now csn × IsLeast held.now csn) }
{
    if held.is_empty() {
        return None;
    }
    Some(held[0])
}

fn take_out(held: &mut Vec<Csn>, csn: Csn)
    requires rising { IsRising held.old.items }
    requires held { Contains held.old.items csn }
    ensures value { held.new.items ≡ without held.old.items csn }
    ensures rising { IsRising held.new.items }
    ensures len { vec_len held.new + 1 ≡ vec_len held.old }
    ensures capacity { vec_capacity held.new ≡ vec_capacity held.old }
{
    let at = place_of(held.as_slice(), csn);
    held.remove(at);
}

fn contains_in(held: &[Csn], csn: Csn) -> bool
    requires { IsRising held.now }
    ensures { IsTrue result ↔ Contains held.now csn }
{
    let at = place_of(held, csn);
    stands_at(held, at, csn)
}

fn stands_at(held: &[Csn], at: usize, csn: Csn) -> bool
    ensures { IsTrue result ↔ ((at < length held.now) × (slice_index_or held.now at zero_csn ≡ csn)) }
{
    at < held.len() && held[at] == csn
}
