//! A link over memory.
ghost use Rattle.std.specs.Prelude.{◌≡◌, ◌<◌, ◌≤◌, ◌↔◌, ◌||◌, [], Some, length, not, is_err, IsTrue, IsErr, IfOk, OnOk, OnErr, if◌then◌else◌};
ghost use Rattle.ports.specs.Faults.{Counts, together};
ghost use Rattle.ports.specs.Streams.{Puts, PutsFront, Takes};
ghost use Rattle.ports.specs.Memory.{raised, fails_at, fits, read_len};

use crate::failed::Failed;
use crate::link::Link;
use crate::mem_sink::MemSink;
use crate::mem_source::MemSource;
use crate::sink::Sink;
use crate::source::Source;
use std::alloc::{AllocError, Global};
use std::marker::Model;

/// A link over memory, which tells what is left to read and what was written. The reads of the one
/// list fail and the writes of the other, each counted from 0.
#[derive(Drop)]
pub struct MemLink {
    source: MemSource,
    sink: MemSink,
}

impl Model for MemLink {
    ghost use Rattle.ports.specs.Memory.{Ends};

    ghost Value = { Ends };

    ghost view = { λ l. record { input = l.source; output = l.sink } };
}

impl MemLink {
    /// A link whose input has these bytes, of which one read takes at most `piece`, and whose output
    /// has room for `room` bytes, which it takes at once.
    pub fn new(
        alloc: Global,
        bytes: Vec<u8>,
        piece: usize,
        room: usize,
        reads: Vec<u64>,
        writes: Vec<u64>,
    ) -> Result<MemLink, AllocError>
        requires { 0 < piece }
        ensures input { IfOk result (λ l. l.input ≡ record { rest = bytes.items; piece = piece; failing = reads.items; calls = 0; faults = 0 }) }
        ensures output { IfOk result (λ l. l.output ≡ record { written = []; room = room; failing = writes.items; calls = 0; faults = 0 }) }
    {
        Ok(MemLink {
            sink: MemSink::new(alloc, room, writes)?,
            source: MemSource::new(bytes, piece, reads),
        })
    }

    /// What was written, in order.
    pub fn written(&self) -> &[u8]
        ensures { result.now ≡ self.now.output.written }
    {
        self.sink.written()
    }
}

impl Link for MemLink {
    ghost faults = { λ l. together l.input.faults l.output.faults };

    ghost rest = { λ l. Some l.input.rest };

    ghost written = { λ l. Some l.output.written };

    fn read(&mut self, buf: &mut [u8]) -> Result<usize, Failed>
        requires { 0 < length buf.old }
        ensures bound { IfOk result (λ n. n ≤ length buf.old) }
        ensures taken { IfOk result (λ n. Takes buf.new n (Some self.old.input.rest) (Some self.new.input.rest)) }
        ensures err { OnErr result (Some self.new.input.rest ≡ Some self.old.input.rest) }
        ensures output { Some self.new.output.written ≡ Some self.old.output.written }
        ensures faults { Counts (together self.old.input.faults self.old.output.faults) (together self.new.input.faults self.new.output.faults) (is_err result) }
        ensures length { IfOk result (λ n. n ≡ read_len self.old.input (length buf.old)) }
        ensures fails { IsErr result ↔ IsTrue (fails_at self.old.input.failing self.old.input.calls) }
        ensures calls { (self.new.input.calls ≡ raised self.old.input.calls) × (self.new.input.faults ≡ (if is_err result then raised self.old.input.faults else self.old.input.faults)) }
        ensures same { (self.new.input.piece ≡ self.old.input.piece) × (self.new.input.failing ≡ self.old.input.failing) × (self.new.output ≡ self.old.output) }
    {
        self.source.read(buf)
    }

    fn write(&mut self, bytes: &[u8]) -> Result<(), Failed>
        ensures ok { OnOk result (Puts bytes.now (Some self.old.output.written) (Some self.new.output.written)) }
        ensures err { OnErr result (PutsFront bytes.now (Some self.old.output.written) (Some self.new.output.written)) }
        ensures input { Some self.new.input.rest ≡ Some self.old.input.rest }
        ensures faults { Counts (together self.old.input.faults self.old.output.faults) (together self.new.input.faults self.new.output.faults) (is_err result) }
        ensures fails { IsErr result ↔ IsTrue (fails_at self.old.output.failing self.old.output.calls || not (fits self.old.output (length bytes.now))) }
        ensures calls { (self.new.output.calls ≡ raised self.old.output.calls) × (self.new.output.faults ≡ (if is_err result then raised self.old.output.faults else self.old.output.faults)) }
        ensures same { (self.new.output.room ≡ self.old.output.room) × (self.new.output.failing ≡ self.old.output.failing) × (self.new.input ≡ self.old.input) }
    {
        self.sink.write(bytes)
    }
}
