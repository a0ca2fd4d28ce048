//! What an entry shows beside its user attributes: its printed name, the attributes and classes that a view
//! derives, and its name with its id in it. One place for every view, however the view is kept.
#![tactic(auto)]

mod key;
mod name;
mod order;
mod shown;
mod text;

pub use name::{tombstone_rdn, with_id};
pub use order::{Ranked, in_order, put};
pub use shown::{present_shown, tombstone_shown};
pub use text::dn_text;
