//! The changes of the cases so far, and the suffix that they are below.

use case_changes::{next_change, next_rdn};
use case_lines::{CaseFault, Fields, or_memory};
use repl_data::{Bytes, Change, Items, Suffix};
use std::alloc::Global;
use std::fmt::Write;

/// The changes that the cases wrote so far. A case names them by their places, from 0 on.
#[derive(Debug, Drop)]
pub struct Taken {
    changes: Items<Change>,
}

impl Taken {
    /// None yet. Takes no memory.
    pub fn new(alloc: Global) -> Taken {
        Taken {
            changes: Items::new(alloc),
        }
    }

    /// Takes the change of the next words, and tells its place.
    pub fn take(
        &mut self,
        alloc: Global,
        fields: &mut Fields<'_>,
        told: &mut String,
    ) -> Result<(), CaseFault> {
        let place = self.changes.len();
        or_memory(self.changes.push(next_change(alloc, fields)?))?;
        write!(told, "{place}")?;
        Ok(())
    }

    /// Copies of the changes at these places, with a comma between each two, in this order. A dash
    /// names no place.
    pub fn picked(&self, alloc: Global, places: &str) -> Result<Items<Change>, CaseFault> {
        let mut list = Items::new(alloc);
        if places == "-" {
            return Ok(list);
        }
        for place in places.split(',') {
            let found = place
                .parse::<usize>()
                .ok()
                .and_then(|at| self.changes.get(at));
            let Some(change) = found else {
                return Err(CaseFault::Argument);
            };
            or_memory(list.push(or_memory(change.clone())?))?;
        }
        Ok(list)
    }
}

/// The suffix `dc=example`.
pub fn example_suffix(alloc: Global) -> Result<Suffix, CaseFault> {
    Ok(Suffix {
        name: or_memory(Bytes::from_slice(alloc, b"dc=example".as_slice()))?,
        rdn: next_rdn(alloc, &mut Fields::new(b"dc:example".as_slice()))?,
    })
}
