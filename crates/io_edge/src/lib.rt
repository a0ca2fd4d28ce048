//! Where bytes come from and where they go, what hands out streams of both kinds, and what tells the
//! time: the traits of the outside, the forms in memory for tests and for proofs, and thin adapters over
//! the real standard streams, sockets and clock. Beside them stands the trait of one side of a
//! conversation in bytes.
//!
//! Each object counts its faults. A call may answer [`Failed`] only where that count rose in the
//! call, so a program that answers a fault has met one.
#![tactic(auto)]

mod bytes;
mod calm;
mod clock;
mod door;
mod edge;
mod gate;
mod machine;
mod memory;
mod standard;
mod stream;
mod system;
mod tcp;

pub use calm::{CalmSink, CalmSource};
pub use clock::{Clock, SetClock};
pub use door::{Acceptor, Dialer};
pub use edge::{Failed, NoMemory, Sink, Source};
pub use gate::{Gate, GatePoint, NoGate, TestGate};
pub use machine::{Fed, Machine};
pub use memory::{MemDialer, MemDoor, MemSink, MemSource, MemStream};
pub use standard::{StdSink, StdSource};
pub use stream::Stream;
pub use system::SystemClock;
pub use tcp::{TcpDialer, TcpDoor, TcpStreamEdge};
