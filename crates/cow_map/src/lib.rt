//! A map in the order of its keys whose versions share what they have in common, so that a version
//! that is being read stays as it is while later ones are made.
//!
//! A version has a root, a list of pages of at most 128 rows each. A change copies the root and the
//! page that it touches. Pages and values are shared and never copied.
#![tactic(auto)]

mod map;
mod memory;
mod page;
mod pages;
mod root;
mod rows;
mod start;
mod steps;
mod walk;

pub use map::CowMap;
pub use memory::NoMemory;
pub use start::Start;
pub use steps::Steps;
pub use walk::Walk;
