//! Update vectors, and the answers that suppliers and consumers give each other.
#![tactic(auto)]

mod answers;
mod text;
mod vector;

pub use answers::{AcquireFault, Applied, ApplyFault, Offer, Start};
pub use repl_data::VectorText;
pub use vector::{Vector, greatest_laws};
