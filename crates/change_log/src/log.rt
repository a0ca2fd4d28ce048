//! The changelog: appends, the change before, the next one beyond a vector.

ghost use Rattle.std.specs.Prelude.{◌≡◌, ℕ, ◌+◌, ◌-◌, ◌<◌, ◌≤◌, ◌↔◌, ◌++◌, ◌∷◌, [], List, true, false, length, slice_index_or, slice_get, max, Contains, IsTrue, IfOk, OnOk, OnErr, MatchOption, vec_len, vec_capacity};
ghost use Rattle.std.specs.Option.{option_copied};
ghost use Rattle.repl_data.specs.declared.csn.Csn.{Csn};
ghost use Rattle.change_log.specs.Log.{Log, csns_of, prev_in, HasNoNext, IsNext};
ghost use Rattle.change_log.specs.Index.{IsIndex};

use crate::index::{self, Place, first_between, place_of};
use repl_data::{Change, Csn, NoMemory};
use std::alloc::Global;
use std::marker::Model;
use vector_core::Vector;

/// The changes that a node has taken, in order of arrival.
///
/// Contracts see the list of them and the number of spare places.
#[derive(Debug, Drop)]
pub struct ChangeLog {
    changes: Vec<Change>,
    index: Vec<Place>,
    spare: usize,
}

impl Model for ChangeLog {
    ghost use Rattle.std.specs.Prelude.{◌+◌, ◌≤◌, vec_len, vec_capacity};
    ghost use Rattle.change_log.specs.Log.{Log};
    ghost use Rattle.change_log.specs.Index.{IsIndex};

    ghost Value = { Log };

    ghost view = { λ l. record { changes = l.changes.items; spare = l.spare } };

    ghost invariant = { λ l. IsIndex l.index.items l.changes.items × (vec_len l.changes + l.spare ≤ vec_capacity l.changes) × (vec_len l.index + l.spare ≤ vec_capacity l.index) };
}

impl ChangeLog {
    /// An empty log without spare places.
    pub fn new(alloc: Global) -> Result<ChangeLog, NoMemory>
        ensures { IfOk result (λ log. (log.changes ≡ []) × (log.spare ≡ 0)) }
    {
        Ok(ChangeLog {
            changes: Vec::new(alloc),
            index: Vec::new(alloc),
            spare: 0,
        })
    }

    /// Makes at least `n` spare places.
    pub fn reserve(&mut self, _alloc: Global, n: usize) -> Result<(), NoMemory>
        ensures ok { OnOk result (self.new ≡ record self.old { spare = max self.old.spare n }) }
        ensures err { OnErr result (self.new ≡ self.old) }
    {
        if n <= self.spare {
            return Ok(());
        }
        self.changes.reserve(n)?;
        self.index.reserve(n)?;
        self.spare = n;
        Ok(())
    }

    /// The changes, in order of arrival.
    pub fn changes(&self) -> &[Change]
        ensures { result.now ≡ self.now.changes }
    {
        self.changes.as_slice()
    }

    pub fn len(&self) -> usize
        ensures { result ≡ length self.now.changes }
    {
        self.changes.len()
    }

    pub fn is_empty(&self) -> bool
        ensures { IsTrue result ↔ (self.now.changes ≡ []) }
    {
        self.changes.is_empty()
    }

    /// How many changes can be appended before places must be reserved.
    pub fn spare(&self) -> usize
        ensures { result ≡ self.now.spare }
    {
        self.spare
    }

    /// The change at this place, counted from 0, if there is one.
    pub fn get(&self, at: usize) -> Option<&Change>
        ensures value { option_copied result ≡ slice_get self.now.changes at }
    {
        self.changes.get(at)
    }
}

impl ChangeLog {
    /// A change with this CSN is in the log. A search by halves.
    pub fn contains(&self, csn: Csn) -> bool
        ensures { IsTrue result ↔ Contains (csns_of self.now.changes) csn }
    {
        index::contains_in(self.index.as_slice(), csn)
    }

    /// Appends the change, whose CSN is new, and takes no memory. A search by halves in the index,
    /// and a move of the places behind.
    pub fn append(&mut self, change: Change)
        requires spare { 0 < self.old.spare }
        requires fresh { Contains (csns_of self.old.changes) change.csn → ⊥ }
        ensures appended { self.new ≡ record { changes = self.old.changes ++ change ∷ []; spare = self.old.spare - 1 } }
    {
        let place = Place {
            csn: change.csn,
            at: self.changes.as_slice().len(),
        };
        let slot = place_of(self.index.as_slice(), change.csn);
        self.index.insert(slot, place).unwrap();
        self.changes.push(change).unwrap();
        self.spare -= 1;
    }

    /// The greatest CSN of the same originator below this one in the log, and zero where there is
    /// none. A search by halves.
    pub fn prev(&self, csn: Csn) -> Csn
        ensures greatest_below { result ≡ prev_in self.now.changes csn }
    {
        index::prev_in(self.index.as_slice(), csn)
    }

    /// The change of least CSN beyond the one vector and within the other. One search by halves
    /// for each entry of `limit`.
    pub fn next_beyond(&self, beyond: &Vector, limit: &Vector) -> Option<&Change>
        ensures next { MatchOption result (HasNoNext self.now.changes beyond.now limit.now) (λ c. IsNext self.now.changes beyond.now limit.now c.now) }
    {
        let Some(place) = first_between(self.index.as_slice(), beyond, limit) else {
            return None;
        };
        Some(&self.changes[place.at])
    }
}
