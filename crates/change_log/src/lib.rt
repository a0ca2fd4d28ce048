//! The changes that a node has taken, in order of arrival, and what it offers of them.
#![tactic(auto)]

mod index;
mod log;

pub use log::ChangeLog;
