//! The view of a list of changes, computed by the definitions, one function for each definition.
#![tactic(auto)]

mod acts;
mod copied;
mod facts;
mod grow;
mod names;
mod order;
mod presence;
mod rows;
mod stamp;
mod values;
mod view;

pub use view::PlainView;
