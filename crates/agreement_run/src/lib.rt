//! One session of a supplier over one stream: what the supplier says is written, and what the stream brings is read for
//! the consumer's replies, until the session ends or the stream does. It takes any supply and any stream, and it may wait
//! for the other side.
#![tactic(auto)]

mod end;
mod inbox;
mod laws;
mod next;
mod session;
mod sides;
mod turn;

pub use end::RunEnd;
pub use laws::run_laws;
pub use replica_session::{SessionEnd, Supply};
pub use session::run_session;
