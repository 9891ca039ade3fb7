//! A link of a source and a sink.
ghost use Rattle.std.specs.Prelude.{◌≡◌};
ghost use Rattle.ports.specs.Faults.{together};

use crate::failed::Failed;
use crate::link::Link;
use crate::sink::Sink;
use crate::source::Source;

/// A source and a sink as one link, whose count is the sum of theirs.
#[derive(Drop)]
pub struct Pair<S, K> {
    source: S,
    sink: K,
}

impl<S, K> Pair<S, K> {
    /// A link that reads from the one and writes to the other.
    pub fn new(source: S, sink: K) -> Self
        ensures source { result.source ≡ source }
        ensures sink { result.sink ≡ sink }
    {
        Pair { source, sink }
    }
}

impl<S: Source + Drop, K: Sink + Drop> Link for Pair<S, K> {
    ghost faults = { λ p. together (S.faults p.source) (K.faults p.sink) };

    ghost rest = { λ p. S.rest p.source };

    ghost written = { λ p. K.written p.sink };

    fn read(&mut self, buf: &mut [u8]) -> Result<usize, Failed> {
        self.source.read(buf)
    }

    fn write(&mut self, bytes: &[u8]) -> Result<(), Failed> {
        self.sink.write(bytes)
    }
}
