//! Whether an entry is one that a search is for: the truth of a filter (RFC 4511, section 4.5.1.7).
//!
//! What a filter asserts is made ready once, and then asked of each entry where the entry is kept: nothing is
//! copied, and no memory is taken.
#![tactic(auto)]

mod found;
mod gone;
mod kept;
mod laws;
mod lent;
mod pieces;
mod prepared;
mod reading;
mod test;
mod three;
mod whole;

pub use laws::entry_laws;
pub use prepared::{Prepared, PreparedList, prepare};
pub use test::{Assertion, Comparison, Test};
pub use three::Truth;
pub use whole::truth;
