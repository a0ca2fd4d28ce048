//! Sources and sinks in memory.

mod dialer;
mod door;
mod sink;
mod source;
mod stream;

pub use dialer::MemDialer;
pub use door::MemDoor;
pub use sink::MemSink;
pub use source::MemSource;
pub use stream::MemStream;
