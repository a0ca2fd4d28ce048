//! Where rows are kept: the trait of a keeper, batches of rows, and the keepers in memory.
//!
//! A batch is kept whole or not at all. A keeper counts its faults and may answer
//! [`KeepFault::Failed`] only where that count rose in the call.
#![tactic(auto)]

mod calm;
mod keeper;
mod laws;
mod map;
mod row;
mod rows;

pub use calm::CalmKeeper;
pub use keeper::{KeepFault, Keeper};
pub use laws::row_laws;
pub use map::MapKeeper;
pub use row::{Batch, BatchStep, Row, RowKey, RowList};
