//! Keys, rows, and the steps of a batch.

ghost use Rattle.std.specs.Prelude.{◌≡◌};
ghost use Rattle.keeper_core.specs.Rows.{key_cmp};

use repl_data::{Bytes, Items};
use std::cmp::Ordering;

/// The key of a row: its kind, and ten bytes that name it among the rows of that kind.
///
/// Keys compare by kind, and then by their bytes.
#[derive(Clone, Copy, Debug, Drop, Eq, Ord, PartialEq, PartialOrd)]
pub struct RowKey {
    pub kind: u8,
    pub key: [u8; 10],
}

impl RowKey {
    /// By kind, and then by the bytes of the key.
    pub fn compare(self, other: RowKey) -> Ordering
        ensures { result ≡ key_cmp self other }
    {
        self.cmp(&other)
    }
}

/// A row: its key and its bytes, which a keeper does not look into.
#[derive(Clone, Debug, Drop)]
pub struct Row {
    pub key: RowKey,
    pub bytes: Bytes,
}

/// Rows, in rising order of key.
pub type RowList = Items<Row>;

/// One step of a batch.
#[derive(Clone, Debug, Drop)]
pub enum BatchStep {
    /// The key has these bytes from then on.
    Put { key: RowKey, bytes: Bytes },
    /// The key has no row from then on. It may have had none.
    Remove { key: RowKey },
}

/// Steps that are taken one after the other, and whole or not at all.
pub type Batch = Items<BatchStep>;
