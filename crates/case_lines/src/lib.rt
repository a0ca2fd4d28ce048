//! Cases as lines of text: each names a subject, its arguments and the answer that is wanted.
//!
//! A program of cases says by [`Subjects`] what its subjects answer, and [`run_cases`] reads the
//! files that the command line names. In a file a blank line or one that begins with `#` says
//! nothing, and each other line is a case:
//!
//!     read_tlv 0403+"abc" 100 = tag 4, size 5, body 616263
//!
//! The first word is the subject. Its arguments follow, up to an `=` that stands alone. All behind
//! it, without the spaces around it, is the answer that is wanted, to the letter. Words are kept
//! apart by spaces, and a space between quotes, `"` or `'`, parts nothing.
//!
//! Bytes are written in parts with `+` between: each part is hexadecimal, or text in quotes, and a
//! `*` with a count behind it repeats it: `3081ff+"a"*200`. No byte is `""`. In quotes each
//! character stands for itself, and text with one of the two quotes stands in the other one.
#![tactic(auto)]

mod fault;
mod fields;
mod judge;
mod notation;
mod run;
mod scan;

pub use fault::{CaseFault, or_memory};
pub use fields::Fields;
pub use judge::{Subjects, Tally, judge_text};
pub use notation::{read_bytes, tell_bytes, tell_text};
pub use run::run_cases;
pub use scan::split_bare;
