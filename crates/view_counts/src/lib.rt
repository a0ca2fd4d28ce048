//! How many entries of each kind a view has, kept up change by change, and the audit of a replica.
#![tactic(auto)]

mod counts;
mod replica;
mod tally;
mod tree;

pub use counts::ViewCounts;
pub use replica::{Audit, audit_of};
pub use tree::{CountedPlan, CountedTree};
