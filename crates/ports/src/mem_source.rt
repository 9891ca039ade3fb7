//! A source over memory.
ghost use Rattle.std.specs.Prelude.{◌≡◌, ◌<◌, ◌≤◌, ◌↔◌, Some, take, drop, length, is_err, IsTrue, IsErr, IfOk, OnErr, if◌then◌else◌};
ghost use Rattle.ports.specs.Faults.{Counts};
ghost use Rattle.ports.specs.Streams.{Takes};
ghost use Rattle.ports.specs.Memory.{Supply, raised, fails_at, read_len};

use crate::failed::Failed;
use crate::source::Source;
use std::marker::Model;

/// A source over bytes in memory, which tells them. The calls of the list `failing` fail, counted from 0.
#[derive(Drop)]
pub struct MemSource {
    bytes: Vec<u8>,
    at: usize,
    piece: usize,
    failing: Vec<u64>,
    calls: u64,
    faults: u64,
}

impl Model for MemSource {
    ghost use Rattle.std.specs.Prelude.{◌≤◌, ◌<◌, drop, length};
    ghost use Rattle.ports.specs.Memory.{Supply};

    ghost Value = { Supply };

    ghost view = { λ s. record { rest = drop s.at s.bytes.items; piece = s.piece; failing = s.failing.items; calls = s.calls; faults = s.faults } };

    ghost invariant = { λ s. (s.at ≤ length s.bytes.items) × (0 < s.piece) };
}

impl MemSource {
    /// A source of these bytes, of which one read takes at most `piece`.
    pub fn new(bytes: Vec<u8>, piece: usize, failing: Vec<u64>) -> MemSource
        requires { 0 < piece }
        ensures { result ≡ record { rest = bytes.items; piece = piece; failing = failing.items; calls = 0; faults = 0 } }
    {
        MemSource {
            bytes,
            at: 0,
            piece,
            failing,
            calls: 0,
            faults: 0,
        }
    }
}

impl Source for MemSource {
    ghost faults = { λ s. s.faults };

    ghost rest = { λ s. Some s.rest };

    fn read(&mut self, buf: &mut [u8]) -> Result<usize, Failed>
        requires { 0 < length buf.old }
        ensures bound { IfOk result (λ n. n ≤ length buf.old) }
        ensures taken { IfOk result (λ n. Takes buf.new n (Some self.old.rest) (Some self.new.rest)) }
        ensures err { OnErr result (self.new.rest ≡ self.old.rest) }
        ensures faults { Counts self.old.faults self.new.faults (is_err result) }
        ensures length { IfOk result (λ n. n ≡ read_len self.old (length buf.old)) }
        ensures fails { IsErr result ↔ IsTrue (fails_at self.old.failing self.old.calls) }
        ensures calls { (self.new.calls ≡ raised self.old.calls) × (self.new.faults ≡ (if is_err result then raised self.old.faults else self.old.faults)) }
        ensures same { (self.new.piece ≡ self.old.piece) × (self.new.failing ≡ self.old.failing) }
    {
        let call = self.calls;
        self.calls = call.saturating_add(1);
        if self.failing.contains(&call) {
            self.faults = self.faults.saturating_add(1);
            return Err(Failed);
        }
        let left = self.bytes.len() - self.at;
        let count = self.piece.min(buf.len()).min(left);
        buf[..count].copy_from_slice(&self.bytes[self.at..self.at + count]);
        self.at += count;
        Ok(count)
    }
}
