//! Waiting for a request whose bytes come in pieces (RFC 4511, section 5.2), without reading the bytes that are there again.
#![tactic(auto)]

mod levels;
mod next;
mod part;
mod place;
mod unfinished;
mod waiting;

pub use unfinished::Unfinished;
pub use waiting::{Waiting, waiting_laws};
