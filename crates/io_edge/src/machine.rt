//! The trait of one side of a conversation in bytes.

ghost use Rattle.std.specs.Prelude.{◌≡◌, ◌↔◌, ◌⊎◌, ◌≤◌, ◌++◌, [], ℕ, List, Option, Ok, IfSome, length, take, drop, true};
ghost use Rattle.io_edge.specs.Machine.{ends};

use crate::edge::NoMemory;
use std::alloc::Global;

/// What came of a feed.
#[derive(Clone, Copy, Debug, Drop, Eq, PartialEq)]
pub enum Fed {
    /// The bytes were taken, and more may come.
    Running,
    /// The other side has asked for the end, and the machine has ended.
    Unbound,
    /// The bytes are no messages, and the machine has ended. The place of the fault counts from the
    /// first byte behind the last whole message.
    BadBytes { place: usize },
    /// The machine had ended before, or memory had run out.
    Closed,
}

/// One side of a conversation in bytes: it is fed what the other side sends, and gives what it has to
/// send.
pub trait Machine {
    ghost use Rattle.std.specs.Prelude.{Bool, List, ℕ, Result};
    ghost use Rattle.io_edge.specs.declared.edge.NoMemory.{NoMemory};
    ghost use Rattle.io_edge.specs.declared.machine.Fed.{Fed};

    /// A machine, apart from the bytes that wait to be sent.
    ghost State: { Type 0 };

    ghost state: { Self → State };

    /// The bytes that wait to be sent, in order.
    ghost waiting: { Self → List ℕ };

    /// It has ended, or memory had run out.
    ghost is_ended: { State → Bool };

    /// A feed of this piece leads from the one machine to the other, with this answer, and adds these
    /// bytes to those that wait.
    ghost adds: { State → List ℕ → Result Fed NoMemory → List ℕ → State → Type 0 };

    /// Takes the next bytes that the other side sent. What they ask for is answered behind the bytes
    /// that wait.
    ///
    /// [`Fed::Closed`] changes nothing. After [`NoMemory`] a part of what the piece asks for was done,
    /// and a part of the answers may have been added; the machine has ended.
    fn feed(&mut self, alloc: Global, bytes: &[u8]) -> Result<Fed, NoMemory>
        ensures added { (added : List ℕ) × (waiting self.new ≡ waiting self.old ++ added) × adds (state self.old) bytes.now result added (state self.new) }
        ensures closed { (result ≡ Ok Fed.Closed) ↔ (is_ended (state self.old) ≡ true) }
        ensures unchanged { result ≡ Ok Fed.Closed → (state self.new ≡ state self.old) × (waiting self.new ≡ waiting self.old) }
        ensures ended { is_ended (state self.new) ≡ ends result };

    /// Moves the first of the bytes that wait into the front of `out`, and answers how many: none only
    /// where nothing waits or `out` is empty. Takes no memory.
    fn take(&mut self, out: &mut [u8]) -> usize
        ensures fits { result ≤ length out.old }
        ensures within { result ≤ length (waiting self.old) }
        ensures some { result ≡ 0 → (waiting self.old ≡ []) ⊎ (out.old ≡ []) }
        ensures moved { out.new ≡ take result (waiting self.old) ++ drop result out.old }
        ensures rest { waiting self.new ≡ drop result (waiting self.old) }
        ensures state { state self.new ≡ state self.old };
}
