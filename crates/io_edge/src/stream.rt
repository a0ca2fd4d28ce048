//! Streams: the two sides of one connection.

ghost use Rattle.std.specs.Prelude.{◌≡◌, Option, List, ℕ};

use crate::edge::{Sink, Source};

/// Where bytes come from and go to: the two sides of one connection.
///
/// A read leaves what was written and the sink's count of faults as they were, and a write leaves what
/// is left to be read and the source's count. So a stream has met a fault where one of its two counts
/// rose.
pub trait Stream: Source + Sink {
    ghost read_keeps: { (a b : Self) → Self.Source.apart a ≡ Self.Source.apart b → (Self.contents a ≡ Self.contents b) × (Self.Sink.faults a ≡ Self.Sink.faults b) };

    ghost write_keeps: { (a b : Self) → Self.Sink.apart a ≡ Self.Sink.apart b → (Self.left a ≡ Self.left b) × (Self.Source.faults a ≡ Self.Source.faults b) };
}
