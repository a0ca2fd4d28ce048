//! What a supplier hands out.

use repl_data::NoMemory;
use std::alloc::Global;
use vector_core::{Offer, Vector};

/// The changes of a node, as a supplier asks for them, however the node is reached.
///
/// Steps of others may come between two calls. `supplying` says which answer a call may give, from which value
/// to which.
pub trait Supply {
    ghost use Rattle.replica_session.specs.Calls.{Supplying};

    ghost supplying: { Supplying Self };

    /// The update vector.
    fn front(&mut self, alloc: Global) -> Result<Vector, NoMemory>
        ensures { supplying.fronts self.old result self.new };

    /// The change of least CSN beyond this vector that the node has for others.
    fn next(&mut self, alloc: Global, beyond: &Vector) -> Result<Offer, NoMemory>
        ensures { supplying.offers self.old beyond.now result self.new };
}
