//! A sink over any writer.
ghost use Rattle.std.specs.Prelude.{◌≡◌, None};

use ports::{Failed, Sink};
use std::io::Write;

/// Writes to a writer, as standard output.
#[derive(Drop)]
pub struct WriterSink<W: Write> {
    writer: W,
    faults: u64,
}

impl<W: Write> WriterSink<W> {
    /// A sink over this writer. No call has failed.
    pub fn new(writer: W) -> Self
        ensures { ⟦<Self as Sink>⟧.faults result ≡ 0 }
    {
        WriterSink { writer, faults: 0 }
    }
}

impl<W: Write> Sink for WriterSink<W> {
    ghost faults = { λ s. s.faults };

    ghost written = { λ _. None };

    fn write(&mut self, bytes: &[u8]) -> Result<(), Failed> {
        let written = self.writer.write_all(bytes);
        if written.is_err() || self.writer.flush().is_err() {
            self.faults = self.faults.saturating_add(1);
            return Err(Failed);
        }
        Ok(())
    }
}
