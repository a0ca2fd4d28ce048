//! What a supplier hands out.

use repl_data::{NoMemory, Update};
use replica_session::{Offer, Supply, Vector};
use std::alloc::Global;

/// Updates in rising order of CSN.
#[derive(Clone, Copy, Debug)]
pub struct Offered<'a> {
    pub updates: &'a [Update],
}

impl Supply for Offered<'_> {
    ghost supplying = { record { fronts = λ _ _ _. Unit {0}; offers = λ _ _ _ _. Unit {0} } };

    fn front(&mut self, alloc: Global) -> Result<Vector, NoMemory> {
        let mut vector = Vector::new(alloc)?;
        for update in self.updates {
            vector.raise(alloc, update.change.csn)?;
        }
        Ok(vector)
    }

    fn next(&mut self, _alloc: Global, beyond: &Vector) -> Result<Offer, NoMemory> {
        for update in self.updates {
            if !beyond.covers(update.change.csn) {
                return Ok(Offer::Next(update.clone()?));
            }
        }
        Ok(Offer::Done)
    }
}
