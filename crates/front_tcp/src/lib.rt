//! One stream is served by one machine: what the stream brings is fed to the machine, and what the
//! machine gives is written to the stream, until the stream ends, the machine ends, or a read or a write
//! fails. It serves any stream and any machine, and it may wait for the other side.
#![tactic(auto)]

mod end;
mod serve;
mod sides;
mod tally;

pub use end::StreamEnd;
pub use serve::serve_stream;
pub use tally::Tally;
