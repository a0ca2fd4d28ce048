// The map: versions that share pages.
ghost use Rattle.std.specs.Prelude.{◌≡◌, ◌+◌, [], None, Some, IfOk, filter, if◌then◌else◌};
ghost use Rattle.std.specs.Option.{option_copied};
ghost use Rattle.std.specs.Ordering.{is_eq};
ghost use Rattle.std.specs.BTreeMap.{insert_entry, is_at};
ghost use Rattle.std.specs.Map.{remove_entry};
ghost use Rattle.cow_map.specs.Rows.{IsRising, ClonesAreEqual, value_at};
ghost use Rattle.cow_map.specs.Places.{IsUpward};

use crate::memory::NoMemory;
use crate::pages::{pages_with, pages_without, value_among};
use crate::root::Root;
use crate::start::{Start, walk_among};
use crate::steps::Steps;
use crate::walk::Walk;
use std::alloc::Global;
use std::marker::Model;
use std::sync::Arc;
use std::sync::ledger::Ledger;

/// A version of a map from keys to values, in the order of the keys.
///
/// Contracts see the list of its rows, a key and its value each, in strictly rising order. No call
/// changes a version: `with` and `without` make another one, which shares with it the values and the
/// pages that the change does not touch.
#[derive(Drop)]
pub struct CowMap<K: Ord, V> {
    root: Root<K, V>,
}

impl<K: Ord, V> Model for CowMap<K, V> {
    ghost use Rattle.std.specs.Prelude.{List};
    ghost use Rattle.cow_map.specs.Rows.{all_rows, IsRising};

    ghost Value = { List (K × V) };

    ghost view = { λ m. all_rows m.root };

    ghost invariant = { λ m. IsRising K.cmp (all_rows m.root) };
}

impl<K: Ord, V> CowMap<K, V> {
    /// A map without rows. It takes no memory.
    pub fn new() -> CowMap<K, V>
        ensures { result ≡ [] }
    {
        CowMap { root: Root::new() }
    }

    /// The value at the key, and None exactly where no row has it. One step: two binary searches.
    pub fn get<L: Ledger>(&self, key: &K, steps: &mut Steps<L>) -> Option<&V>
        ensures value { option_copied result ≡ value_at K.cmp self.now key.now }
        ensures step { steps.new ≡ steps.old + 1 }
    {
        steps.tick();
        self.find(key)
    }

    /// What `get` answers, for those who count no steps.
    pub fn find(&self, key: &K) -> Option<&V>
        ensures { option_copied result ≡ value_at K.cmp self.now key.now }
    {
        value_among(self.root.pages(), key)
    }

    /// The map with the value at the key. A row that has the key already keeps its key and takes the
    /// value. One step: a lookup, and copies of the root and of one page.
    pub fn with<L: Ledger>(
        &self,
        alloc: Global,
        key: K,
        value: V,
        steps: &mut Steps<L>,
    ) -> Result<CowMap<K, V>, NoMemory>
    where
        K: Clone + Drop,
        V: Drop,
        requires { ClonesAreEqual K.is_clone }
        ensures rows { IfOk result (λ map. map ≡ insert_entry K.cmp self.now key value) }
        ensures values { IfOk result (λ map. (q : K) → value_at K.cmp map q ≡ (if is_eq (K.cmp key q) then Some value else value_at K.cmp self.now q)) }
        ensures rising { IfOk result (IsRising K.cmp) }
        ensures step { steps.new ≡ steps.old + 1 }
    {
        steps.tick();
        let value = Arc::new(alloc, value)?;
        let pages = pages_with(alloc, self.root.pages(), key, value)?;
        Ok(CowMap {
            root: Root::of(alloc, pages)?,
        })
    }

    /// The map without the row that has the key, and the same map where no row has it. One step: a
    /// lookup, and copies of the root and of one page where there was such a row.
    pub fn without<L: Ledger>(
        &self,
        alloc: Global,
        key: &K,
        steps: &mut Steps<L>,
    ) -> Result<CowMap<K, V>, NoMemory>
    where
        K: Clone + Drop,
        V: Drop,
        requires { ClonesAreEqual K.is_clone }
        ensures rows { IfOk result (λ map. map ≡ remove_entry (is_at (K.cmp key.now)) self.now) }
        ensures values { IfOk result (λ map. (q : K) → value_at K.cmp map q ≡ (if is_eq (K.cmp key.now q) then None else value_at K.cmp self.now q)) }
        ensures rising { IfOk result (IsRising K.cmp) }
        ensures step { steps.new ≡ steps.old + 1 }
    {
        steps.tick();
        match pages_without(alloc, self.root.pages(), key)? {
            Some(pages) => Ok(CowMap {
                root: Root::of(alloc, pages)?,
            }),
            None => Ok(CowMap {
                root: self.root.share()?,
            }),
        }
    }

    /// Goes over the rows in rising order. It takes no memory at present.
    pub fn walk(&self, _alloc: Global) -> Result<Walk<'_, K, V>, NoMemory>
        ensures rows { IfOk result (λ walk. walk ≡ self.now) }
        ensures rising { IsRising K.cmp self.now }
    {
        Ok(Walk::over(self.root.pages()))
    }

    /// Goes over the rows from a place on, in rising order. Two binary searches to find the first of them.
    pub fn walk_from<S: Start<K>>(&self, start: &S) -> Walk<'_, K, V>
        requires { IsUpward K.cmp (S.from start.now) }
        ensures { result ≡ filter (λ row. S.from start.now row.0) self.now }
    {
        walk_among(self.root.pages(), start)
    }

    /// The same version once more, in constant time. It shares all, and takes no memory at present
    /// (want of memory stands for a count of owners that is full).
    pub fn share(&self, _alloc: Global) -> Result<CowMap<K, V>, NoMemory>
        ensures { IfOk result (λ map. map ≡ self.now) }
    {
        Ok(CowMap {
            root: self.root.share()?,
        })
    }
}
