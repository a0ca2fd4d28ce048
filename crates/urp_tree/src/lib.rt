//! The view of a replica, kept as a tree of its entries.
#![tactic(auto)]

mod asked;
mod changed;
mod child;
mod laws;
mod listing;
mod named;
mod places;
mod plan;
mod room;
mod row;
mod seat;
mod shown;
mod step;
mod tree;
mod way;

pub use changed::{Changed, ChangedList};
pub use laws::tree_laws;
pub use plan::Plan;
pub use tree::UrpTree;
