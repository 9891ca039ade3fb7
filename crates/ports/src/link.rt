//! What bytes are read from and written to.
ghost use Rattle.std.specs.Prelude.{◌≡◌, ◌<◌, ◌≤◌, ℕ, List, Option, length, is_err, IfOk, OnOk, OnErr};
ghost use Rattle.ports.specs.Faults.{Counts};
ghost use Rattle.ports.specs.Streams.{Puts, PutsFront, Takes};

use crate::failed::Failed;

/// A connection: an input and an output, with one count of their failures.
pub trait Link: Drop {
    /// How often a call has failed.
    ghost faults: { Self → ℕ };

    /// The bytes that are left to read, where the link tells them.
    ghost rest: { Self → Option (List ℕ) };

    /// The bytes that were written, where the link tells them.
    ghost written: { Self → Option (List ℕ) };

    /// Reads at least one byte and at most as many as `buf` has room for, to its front, and answers how many;
    /// 0 only at the end of the input. A call that fails takes nothing.
    fn read(&mut self, buf: &mut [u8]) -> Result<usize, Failed>
        requires { 0 < length buf.old }
        ensures bound { IfOk result (λ n. n ≤ length buf.old) }
        ensures taken { IfOk result (λ n. Takes buf.new n (rest self.old) (rest self.new)) }
        ensures err { OnErr result (rest self.new ≡ rest self.old) }
        ensures output { written self.new ≡ written self.old }
        ensures faults { Counts (faults self.old) (faults self.new) (is_err result) };

    /// Writes all bytes. Of a call that fails a front of them went out.
    fn write(&mut self, bytes: &[u8]) -> Result<(), Failed>
        ensures ok { OnOk result (Puts bytes.now (written self.old) (written self.new)) }
        ensures err { OnErr result (PutsFront bytes.now (written self.old) (written self.new)) }
        ensures input { rest self.new ≡ rest self.old }
        ensures faults { Counts (faults self.old) (faults self.new) (is_err result) };
}
