//! One entry as its changes leave it: what is known of its name, its death and each of its values,
//! with the stamps that decide between changes that come in any order.
#![tactic(auto)]

mod entry;
mod held;
mod laws;
mod raise;
mod root;
mod shown;

pub use entry::{StampedAttr, StampedAttrList, StampedEntry, StampedVal, StampedValList};
pub use held::{HeldVal, vals_shown};
pub use laws::stamped_laws;
