//! What a node draws and has not settled: its generator of CSNs, and the pending ones.
#![tactic(auto)]

mod generator;
mod pending;

pub use generator::{Exhausted, Generator, draw_laws};
pub use pending::{Full, PLACES, PendingList};
