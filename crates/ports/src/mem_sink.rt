//! A sink over memory.
ghost use Rattle.std.specs.Prelude.{◌≡◌, ◌<◌, ◌≤◌, ◌↔◌, ◌||◌, [], ◌++◌, Some, length, not, is_err, IsTrue, IsErr, IfOk, OnOk, OnErr, if◌then◌else◌};
ghost use Rattle.ports.specs.Faults.{Counts};
ghost use Rattle.ports.specs.Streams.{Puts, PutsFront};
ghost use Rattle.ports.specs.Memory.{Store, raised, fails_at, fits};

use crate::failed::Failed;
use crate::sink::Sink;
use std::alloc::{AllocError, Global};
use std::marker::Model;

/// A sink over room in memory, which tells what it holds. The calls of the list `failing` fail, counted from 0,
/// and so does a write past the room; a call that fails writes nothing.
#[derive(Drop)]
pub struct MemSink {
    written: Vec<u8>,
    room: usize,
    failing: Vec<u64>,
    calls: u64,
    faults: u64,
}

impl Model for MemSink {
    ghost use Rattle.std.specs.Prelude.{◌≤◌, vec_len, vec_capacity};
    ghost use Rattle.ports.specs.Memory.{Store};

    ghost Value = { Store };

    ghost view = { λ s. record { written = s.written.items; room = s.room; failing = s.failing.items; calls = s.calls; faults = s.faults } };

    ghost invariant = { λ s. (vec_len s.written ≤ s.room) × (s.room ≤ vec_capacity s.written) };
}

impl MemSink {
    /// An empty sink with room for this many bytes, which it takes at once.
    pub fn new(alloc: Global, room: usize, failing: Vec<u64>) -> Result<MemSink, AllocError>
        ensures { IfOk result (λ s. s ≡ record { written = []; room = room; failing = failing.items; calls = 0; faults = 0 }) }
    {
        let written = Vec::with_capacity(alloc, room)?;
        Ok(MemSink {
            written,
            room,
            failing,
            calls: 0,
            faults: 0,
        })
    }

    /// What was written, in order.
    pub fn written(&self) -> &[u8]
        ensures { result.now ≡ self.now.written }
    {
        self.written.as_slice()
    }
}

impl Sink for MemSink {
    ghost faults = { λ s. s.faults };

    ghost written = { λ s. Some s.written };

    fn write(&mut self, bytes: &[u8]) -> Result<(), Failed>
        ensures ok { OnOk result (Puts bytes.now (Some self.old.written) (Some self.new.written)) }
        ensures err { OnErr result (PutsFront bytes.now (Some self.old.written) (Some self.new.written)) }
        ensures faults { Counts self.old.faults self.new.faults (is_err result) }
        ensures fails { IsErr result ↔ IsTrue (fails_at self.old.failing self.old.calls || not (fits self.old (length bytes.now))) }
        ensures calls { (self.new.calls ≡ raised self.old.calls) × (self.new.faults ≡ (if is_err result then raised self.old.faults else self.old.faults)) }
        ensures same { (self.new.room ≡ self.old.room) × (self.new.failing ≡ self.old.failing) }
    {
        let call = self.calls;
        self.calls = call.saturating_add(1);
        if self.failing.contains(&call) || bytes.len() > self.room - self.written.len() {
            self.faults = self.faults.saturating_add(1);
            return Err(Failed);
        }
        self.written.extend_from_slice(bytes).unwrap();
        Ok(())
    }
}
