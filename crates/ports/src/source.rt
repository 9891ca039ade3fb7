//! What bytes are read from.
ghost use Rattle.std.specs.Prelude.{◌≡◌, ◌<◌, ◌≤◌, ℕ, List, Option, length, is_err, IfOk, OnErr};
ghost use Rattle.ports.specs.Faults.{Counts};
ghost use Rattle.ports.specs.Streams.{Takes};

use crate::failed::Failed;

/// A stream of bytes to read, as a connection's input.
pub trait Source {
    /// How often a call has failed.
    ghost faults: { Self → ℕ };

    /// The bytes that are left, where the source tells them.
    ghost rest: { Self → Option (List ℕ) };

    /// Reads at least one byte and at most as many as `buf` has room for, to its front, and answers how many;
    /// 0 only at the end of the input. A call that fails takes nothing.
    fn read(&mut self, buf: &mut [u8]) -> Result<usize, Failed>
        requires { 0 < length buf.old }
        ensures bound { IfOk result (λ n. n ≤ length buf.old) }
        ensures taken { IfOk result (λ n. Takes buf.new n (rest self.old) (rest self.new)) }
        ensures err { OnErr result (rest self.new ≡ rest self.old) }
        ensures faults { Counts (faults self.old) (faults self.new) (is_err result) };
}
