//! What a replica has, counted.
ghost use Rattle.std.specs.Prelude.{◌≡◌};
ghost use Rattle.urp_tree.specs.Known.{known_view};
ghost use Rattle.view_counts.specs.Audit.{audit_of};

use crate::tree::CountedTree;
use change_log::ChangeLog;
use pending_core::PendingList;

/// How many entries, changes and pending CSNs a replica has.
#[derive(Clone, Copy, Debug, Drop, Eq, PartialEq)]
pub struct Audit {
    /// The entries that are present, the suffix entry and glue among them.
    pub present: u64,
    /// Present entries that are deleted, and show for the sake of their present children.
    pub glue: u64,
    /// Present entries that lost their name to another one.
    pub conflict: u64,
    /// Entries that were added and are not present.
    pub tombstone: u64,
    /// The changes that were taken.
    pub taken: u64,
    /// The CSNs that were drawn and are not settled.
    pub pending: u64,
}

/// The counts of a replica: of its entries, of the changes in its log, and of its pending CSNs. Takes constant time.
pub fn audit_of(tree: &CountedTree, log: &ChangeLog, pending: &PendingList) -> Audit
    ensures { result ≡ audit_of (known_view tree.now) log.now.changes pending.now }
{
    let counts = tree.counts();
    let taken = log.len() as u64;
    let pending = pending.len() as u64;
    Audit {
        present: counts.present,
        glue: counts.glue,
        conflict: counts.conflict,
        tombstone: counts.tombstone,
        taken,
        pending,
    }
}
