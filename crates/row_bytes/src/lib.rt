//! Rows of changes, written and read back. A change has one row, and a row is that of one change.
#![tactic(auto)]

mod cursor;
mod fault;
mod key;
mod laws;
mod read;
mod stored;
mod write;

pub use ber_core::BerWhy;
pub use fault::{RowFault, RowWhy};
pub use keeper_core::{Row, RowKey};
pub use key::{csn_key, csn_of_key};
pub use laws::row_laws;
pub use read::read_change;
pub use repl_data::{Bytes, Change, Csn, NoMemory};
pub use stored::{CHANGE_KIND, read_row, row_of_change};
pub use write::write_change;
