//! What takes changes.

ghost use Rattle.repl_wire.specs.Keys.{HasKeysOfSpellings};

use repl_data::{NoMemory, Update};
use std::alloc::Global;
use vector_core::{AcquireFault, Applied, ApplyFault, Start, Vector};

/// A node, as a consumer's connections use it, however it is reached.
///
/// Steps of others may come between two calls. `taking` says which answer a call may give, from which value to
/// which.
pub trait Take {
    ghost use Rattle.replica_session.specs.Calls.{Taking};

    ghost taking: { Taking Self };

    /// Lets a supplier begin to send, at the time `now` in seconds since 1970.
    fn acquire(&mut self, alloc: Global, start: &Start, now: u32) -> Result<(), AcquireFault>
        ensures { taking.acquires self.old start.now now result self.new };

    /// Takes an update of the supplier `from`, at the time `now` in seconds since 1970.
    fn apply(
        &mut self,
        alloc: Global,
        from: u16,
        update: &Update,
        now: u32,
    ) -> Result<Applied, ApplyFault>
        requires { HasKeysOfSpellings update.now }
        ensures { taking.applies self.old from update.now now result self.new };

    /// The supplier holds the node no longer.
    fn release(&mut self, rid: u16)
        ensures { taking.releases self.old rid self.new };

    /// The update vector.
    fn front(&mut self, alloc: Global) -> Result<Vector, NoMemory>
        ensures { taking.fronts self.old result self.new };
}
