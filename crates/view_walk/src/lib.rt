//! A walk over the entries of a view, parents first and siblings in order of the names that they show, at the
//! cost of what it visits.
#![tactic(auto)]

mod laws;
mod list;
mod visit;

pub use laws::walk_laws;
pub use list::listing;
pub use visit::Walk;
