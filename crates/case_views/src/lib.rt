//! What cases of views share: the changes so far, and entries as answers.
#![tactic(auto)]

mod entry;
mod taken;

pub use entry::{tell_attrs, tell_entries, tell_entry, tell_optional_uid, tell_uids};
pub use taken::{Taken, example_suffix};
