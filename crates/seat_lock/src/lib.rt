//! A lock whose holders take turns, and whose value tells the history of what was done to it.
#![tactic(auto)]

mod calls;
mod lock;
mod rule;
mod seat;
mod sleep;
mod view;
mod wait;

pub use calls::NoMemory;
pub use lock::SeatLock;
pub use rule::{HasHistory, Setup, Turns};
pub use seat::{Seat, SeatOf};
pub use view::{Stage, Told, View};
