//! Searches over a view (RFC 4511, section 4.5): which entries are in scope, for which the filter says Yes, in which
//! order, cut where, and with which attributes.
#![tactic(auto)]

mod dead;
mod found;
mod laws;
mod made;
mod matching;
mod query;
mod scope;
mod searching;
mod selection;
mod walk;

pub use filter_truth::{Truth, truth};
pub use found::Found;
pub use laws::search_laws;
pub use searching::search;
