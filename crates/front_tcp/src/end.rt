//! How a stream ended.

/// Why a stream is served no longer.
#[derive(Clone, Copy, Debug, Drop, Eq, PartialEq)]
pub enum StreamEnd {
    /// The stream was read to its end.
    Ended,
    /// The other side asked for the end.
    Unbound,
    /// The bytes are no messages. The place of the fault counts from the first byte behind the last whole
    /// message.
    BadBytes { place: usize },
    /// A read failed.
    ReadFault,
    /// A write failed.
    WriteFault,
}
