//! A stream in memory: a source and a sink.

ghost use Rattle.std.specs.Prelude.{◌≡◌};
ghost use Rattle.std.proofs.Common.{ap};

use crate::edge::{Failed, Sink, Source};
use crate::stream::Stream;

/// A stream in memory: a source and a sink, as `MemStream<MemSource, MemSink>`, whose calls are the
/// stream's.
///
/// A stream over `&mut MemSink` leaves what was written with the sink's owner.
#[derive(Debug, Drop)]
pub struct MemStream<S, K> {
    source: S,
    sink: K,
}

impl<S, K> MemStream<S, K> {
    /// A stream that reads from the one and writes to the other.
    pub fn new(source: S, sink: K) -> MemStream<S, K>
        ensures { result ≡ record { source = source; sink = sink } }
    {
        MemStream { source, sink }
    }

    /// Hands both back.
    pub fn into_parts(self) -> (S, K)
        ensures { result ≡ record { 0 = self.source; 1 = self.sink } }
    {
        let MemStream { source, sink } = self;
        (source, sink)
    }
}

impl<S: Source, K> Source for MemStream<S, K> {
    ghost left = { λ s. S.left s.source };

    ghost faults = { λ s. S.faults s.source };

    ghost Apart = { K };

    ghost apart = { λ s. s.sink };

    fn read(&mut self, buf: &mut [u8]) -> Result<usize, Failed> {
        self.source.read(buf)
    }
}

impl<S, K: Sink> Sink for MemStream<S, K> {
    ghost contents = { λ s. K.contents s.sink };

    ghost faults = { λ s. K.faults s.sink };

    ghost Apart = { S };

    ghost apart = { λ s. s.source };

    fn write(&mut self, bytes: &[u8]) -> Result<(), Failed> {
        self.sink.write(bytes)
    }
}

impl<S: Source, K: Sink> Stream for MemStream<S, K> {
    ghost read_keeps = { λ a b same. (ap K.contents same, ap K.faults same) };

    ghost write_keeps = { λ a b same. (ap S.left same, ap S.faults same) };
}
