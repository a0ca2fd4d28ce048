//! What an accepted add and an accepted modify do to a view, and so to what a node shows, with no stamp in the statement
//! (RFC 4511, sections 4.6 and 4.7).
#![tactic(auto)]

mod laws;

pub use laws::{add_effect_law, commit_effect_law, modify_effect_law};
