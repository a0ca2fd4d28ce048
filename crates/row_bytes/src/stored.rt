//! Rows under their kind and key.

ghost use Rattle.std.specs.Prelude.{◌≡◌, IfOk, Ok};
ghost use Rattle.repl_data.specs.declared.change.Change.{Change};
ghost use Rattle.repl_data.specs.Order.{bytes_eq};
ghost use Rattle.repl_data.specs.Text.{csn_bytes};
ghost use Rattle.row_bytes.specs.Form.{IsChangeInRange};
ghost use Rattle.row_bytes.specs.Given.{Gives};
ghost use Rattle.row_bytes.specs.Stored.{stored, belongs, change_of};

use crate::fault::{RowFault, RowWhy};
use crate::key::csn_key;
use crate::read::read_change;
use crate::write::write_change;
use keeper_core::{Row, RowKey};
use repl_data::{Change, Csn, NoMemory};
use std::alloc::Global;

/// The kind of the rows of changes.
pub const CHANGE_KIND: u8 = 1;

/// The row that a change is kept as: its bytes, under the kind of changes and the key of its CSN.
///
/// In time and memory proportional to the change.
pub fn row_of_change(alloc: Global, change: &Change) -> Result<Row, NoMemory>
    ensures { IfOk result (λ row. row ≡ stored change.now) }
{
    let bytes = write_change(alloc, change)?;
    let key = RowKey {
        kind: CHANGE_KIND,
        key: csn_key(change.csn),
    };
    Ok(Row { key, bytes })
}

fn has_key(row: &Row, csn: Csn) -> bool
    ensures { result ≡ bytes_eq row.now.key.key (csn_bytes csn) }
{
    row.key.key.cmp(&csn_key(csn)).is_eq()
}

/// The row stands under the kind and the key of this change.
fn belongs(row: &Row, change: &Change) -> Result<(), RowFault>
    ensures { Gives (λ u. u) result (belongs row.now change.now) }
{
    if row.key.kind != CHANGE_KIND {
        return Err(RowFault::Bad {
            place: 0,
            why: RowWhy::Kind,
        });
    }
    if has_key(row, change.csn) {
        Ok(())
    } else {
        Err(RowFault::Bad {
            place: 0,
            why: RowWhy::Key,
        })
    }
}

#[tactic(auto, unfolding(crate::specs::Stored::change_of))]
fn find_stored(alloc: Global, row: &Row) -> Result<Change, RowFault>
    ensures found { IfOk result (λ c. row.now ≡ stored c) }
    ensures exact { Gives (λ c. c) result (change_of row.now) }
{
    let change = read_change(alloc, row.bytes.as_slice())?;
    belongs(row, &change)?;
    Ok(change)
}

/// The change that a row is of.
///
/// A row of another kind or under another key than its change's is none, though its bytes be a row:
/// `Kind` or `Key`, at place 0, once the bytes were read. Other faults are those of `read_change`.
///
/// In one pass over the bytes, in time and memory proportional to them.
pub fn read_row(alloc: Global, row: &Row) -> Result<Change, RowFault>
    // What is read is the change that the row is kept for.
    ensures found { IfOk result (λ c. row.now ≡ stored c) }

    // The row that each change is kept as is read, unless memory ran out.
    ensures only { (c : Change) → IsChangeInRange c → row.now ≡ stored c
        → Gives (λ d. d) result (Ok c) }

    // Which answer it is, with the first fault, unless memory ran out.
    ensures exact { Gives (λ c. c) result (change_of row.now) }
{
    find_stored(alloc, row)
}
