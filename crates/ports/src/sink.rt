//! What bytes are written to.
ghost use Rattle.std.specs.Prelude.{ℕ, List, Option, is_err, OnOk, OnErr};
ghost use Rattle.ports.specs.Faults.{Counts};
ghost use Rattle.ports.specs.Streams.{Puts, PutsFront};

use crate::failed::Failed;

/// A stream of bytes to write, as a connection's output.
pub trait Sink {
    /// How often a call has failed.
    ghost faults: { Self → ℕ };

    /// The bytes that it holds, where the sink tells them.
    ghost written: { Self → Option (List ℕ) };

    /// Writes all bytes. Of a call that fails a front of them went out.
    fn write(&mut self, bytes: &[u8]) -> Result<(), Failed>
        ensures ok { OnOk result (Puts bytes.now (written self.old) (written self.new)) }
        ensures err { OnErr result (PutsFront bytes.now (written self.old) (written self.new)) }
        ensures faults { Counts (faults self.old) (faults self.new) (is_err result) };
}
