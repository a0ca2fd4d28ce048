//! What hands out the streams that others open, and what opens streams to others.

ghost use Rattle.std.specs.Prelude.{◌≡◌, ◌<◌, ◌≤◌, ℕ, None, IfOk};
ghost use Rattle.io_edge.specs.Causes.{HasCause, next_count};
ghost use Rattle.io_edge.specs.Doors.{handed_after, nones_after};

use crate::edge::Failed;
use crate::stream::Stream;

/// What hands out the streams that others open.
pub trait Acceptor {
    type S: Stream;

    /// How many faults there were. The count stands still at `u64::MAX`, as the other two do.
    ghost faults: { Self → ℕ };

    /// How many streams it has handed out.
    ghost handed: { Self → ℕ };

    /// How often it answered `None`.
    ghost nones: { Self → ℕ };

    /// Hands out the next stream, and may wait for it. `None` comes only when it is closed for good,
    /// and then no stream comes any more. After [`Failed`] the count of faults rose.
    fn accept(&mut self) -> Result<Option<Self::S>, Failed>
        ensures cause { HasCause (faults self.old) (faults self.new) result }
        ensures handed { handed self.new ≡ handed_after (handed self.old) result }
        ensures nones { nones self.new ≡ nones_after (nones self.old) result }
        ensures closed { 0 < nones self.old → IfOk result (λ stream. stream ≡ None) };
}

/// What opens streams to other nodes.
pub trait Dialer {
    type S: Stream;

    /// How many faults there were. The count stands still at `u64::MAX`, as the other one does.
    ghost faults: { Self → ℕ };

    /// How often it was called.
    ghost calls: { Self → ℕ };

    /// Opens a stream to the node with this replica id. After [`Failed`] the count of faults rose.
    fn dial(&mut self, rid: u16) -> Result<Self::S, Failed>
        ensures cause { HasCause (faults self.old) (faults self.new) result }
        ensures calls { calls self.new ≡ next_count (calls self.old) };
}
