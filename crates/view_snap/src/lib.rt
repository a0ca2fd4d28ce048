//! Snapshots of the view of a replica: what a search reads while others write.
//!
//! A snapshot shows the view of a tree at one moment, and no call changes it. It moves by a plan of the tree: the
//! snapshot after the plan shares with it all that the plan does not change.
#![tactic(auto)]

mod asked;
mod listing;
mod maps;
mod seen;
mod shown;
mod snapshot;
mod spot;

pub use snapshot::Snapshot;
