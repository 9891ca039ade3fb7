//! Goes over the records of a file, in blocks.
ghost use Rattle.std.specs.Prelude.{◌≡◌, ◌⊎◌, ℕ, ◌+◌, ◌-◌, ◌≤◌, ◌<◌, ◌^◌, [], List, false, length, take, drop, IfOk, IsSome, IsTrue, OnErr, OnOk};
ghost use Rattle.ports.specs.Faults.{Counts};
ghost use Rattle.disk_model.specs.Images.{IsImage};
ghost use Rattle.disk_model.specs.Meaning.{IsLong};
ghost use Rattle.disk_model.specs.Calls.{Kept, LeavesOnly, Looked};
ghost use Rattle.repo_journal.specs.Answers.{is_scan_fault};
ghost use Rattle.repo_journal.specs.Scanning.{Holds, IsHeld, IsNext, gate_after, head_step, step_at};

use crate::block::{let_go, read_on};
use crate::fault::ScanFault;
use crate::header::FIRST_GATE;
use crate::span::Span;
use crate::step::Step;
use blob_disk::Disk;
use std::alloc::{AllocError, Global};
use std::marker::Model;

// How many bytes are read at once, where the file has them.
const BLOCK: u32 = 65_536;

// The length of a payload is told in so many bytes.
const LENGTH: u64 = 4;

// The gate of a record that counts.
const OPEN: u8 = 1;

/// Goes over the records of a file from the first gate on. It reads each byte once, 65,536 at a
/// time, and more at once only for a longer payload that is asked for.
#[derive(Drop)]
pub struct Scanner {
    block: Vec<u8>,
    // where the block's first byte stands
    from: u64,
    gate: u64,
    size: u64,
}

impl Model for Scanner {
    ghost use Rattle.repo_journal.specs.Scanning.{Window, IsInFile};

    ghost Value = { Window };

    ghost view = { λ s. record { bytes = s.block.items; from = s.from; gate = s.gate; size = s.size } };

    ghost invariant = { λ s. IsInFile s.block.items s.from s.gate s.size };
}

impl Scanner {
    /// At the first gate of a file of this size. It takes the room for one block.
    pub fn new(alloc: Global, size: u64) -> Result<Scanner, AllocError>
        requires { size < 2 ^ 63 }
        ensures { IfOk result (λ s. s ≡ record { bytes = []; from = 0; gate = FIRST_GATE; size = size }) }
    {
        Ok(Scanner {
            block: Vec::with_capacity(alloc, BLOCK as usize)?,
            from: 0,
            gate: FIRST_GATE,
            size,
        })
    }

    /// Where the next gate stands.
    pub fn gate(&self) -> u64
        ensures { result ≡ self.now.gate }
    {
        self.gate
    }

    /// How far it goes, in bytes.
    pub fn size(&self) -> u64
        ensures { result ≡ self.now.size }
    {
        self.size
    }

    /// What stands at the next gate. A whole record is passed.
    pub fn next<D: Disk>(&mut self, disk: &mut D) -> Result<Step, ScanFault>
        requires { IsLong (D.meaning disk.old).reads self.old.size }
        ensures step { IfOk result (λ step. IsTrue (D.meaning disk.old).honest → Holds self.old (D.meaning disk.old).state.reads
            → step ≡ step_at (take self.old.size (D.meaning disk.old).state.reads) self.old.gate) }
        ensures gate { IfOk result (λ step. self.new.gate ≡ gate_after self.old.gate step) }
        ensures inside { IfOk result (IsNext self.old.gate self.old.size) }
        ensures err { OnErr result (self.new.gate ≡ self.old.gate) }
        ensures size { self.new.size ≡ self.old.size }
        ensures holds { IsTrue (D.meaning disk.old).honest → Holds self.old (D.meaning disk.old).state.reads → Holds self.new (D.meaning disk.old).state.reads }
        ensures looked { Looked (D.meaning disk.old) (D.meaning disk.new) }
        ensures kept { Kept (D.meaning disk.old) (D.meaning disk.new) }
        ensures time { LeavesOnly (IsImage (D.meaning disk.new).state) (D.meaning disk.old) (D.meaning disk.new) }
        ensures faults { Counts (D.meaning disk.old).faults (D.meaning disk.new).faults (is_scan_fault result) }
        ensures quiet { IsSome (D.meaning disk.old).quiet → is_scan_fault result ≡ false }
    {
        let (gate, size) = (self.gate, self.size);
        if gate >= size {
            return Ok(Step::Bad { at: gate });
        }
        let behind = size - gate - 1;
        let head = Span {
            at: gate,
            length: behind.min(LENGTH) as u32 + 1,
        };
        self.hold(disk, head)?;
        let step = step_in(self.held(head), gate, behind);
        self.gate = next_gate(gate, step);
        Ok(step)
    }

    /// Reads what stands at these places, if it isn't held yet. It takes memory only for more than a block.
    pub fn hold<D: Disk>(&mut self, disk: &mut D, span: Span) -> Result<(), ScanFault>
        requires inside { span.at + span.length ≤ self.old.size }
        requires long { IsLong (D.meaning disk.old).reads self.old.size }
        ensures held { OnOk result (IsHeld self.new span) }
        ensures gate { self.new.gate ≡ self.old.gate }
        ensures size { self.new.size ≡ self.old.size }
        ensures holds { IsTrue (D.meaning disk.old).honest → Holds self.old (D.meaning disk.old).state.reads → Holds self.new (D.meaning disk.old).state.reads }
        ensures looked { Looked (D.meaning disk.old) (D.meaning disk.new) }
        ensures kept { Kept (D.meaning disk.old) (D.meaning disk.new) }
        ensures time { LeavesOnly (IsImage (D.meaning disk.new).state) (D.meaning disk.old) (D.meaning disk.new) }
        ensures faults { Counts (D.meaning disk.old).faults (D.meaning disk.new).faults (is_scan_fault result) }
        ensures quiet { IsSome (D.meaning disk.old).quiet → is_scan_fault result ≡ false }
    {
        let (from, size) = (self.from, self.size);
        let end = span.at + u64::from(span.length);
        if from <= span.at && end <= from + self.block.len() as u64 {
            return Ok(());
        }
        let_go(&mut self.block, from, span.at);
        self.from = span.at;
        let have = self.block.len();
        let want = u64::from(span.length.max(BLOCK)).min(size - span.at) as usize;
        read_on(disk, &mut self.block, span.at + have as u64, want - have)
    }

    /// What stands at these places.
    pub fn held(&self, span: Span) -> &[u8]
        requires { IsHeld self.now span }
        ensures bytes { result.now ≡ take span.length (drop (span.at - self.now.from) self.now.bytes) }
        ensures file { (file : List ℕ) → Holds self.now file → result.now ≡ take span.length (drop span.at file) }
    {
        let at = (span.at - self.from) as usize;
        &self.block[at..at + span.length as usize]
    }
}

// Where the next gate stands.
fn next_gate(gate: u64, step: Step) -> u64
    requires { gate_after gate step < 2 ^ 64 }
    ensures { result ≡ gate_after gate step }
{
    match step {
        Step::Record(span) => span.at + u64::from(span.length),
        Step::Closed | Step::Bad { .. } => gate,
    }
}

// What stands at a gate, by the first five bytes from there on, where the file has them.
fn step_in(head: &[u8], gate: u64, behind: u64) -> Step
    requires some { 0 < length head.now }
    requires whole { (behind < LENGTH) ⊎ (length head.now ≡ 5) }
    requires small { gate + behind < 2 ^ 63 }
    ensures step { result ≡ head_step gate head.now behind }
    ensures inside { IsNext gate (gate + behind + 1) result }
{
    if head[0] != OPEN {
        return Step::Closed;
    }
    if behind < LENGTH {
        return Step::Bad { at: gate };
    }
    let mut field = [0; 4];
    field.copy_from_slice(&head[1..5]);
    let length = u32::from_be_bytes(field);
    if behind - LENGTH < u64::from(length) {
        return Step::Bad { at: gate };
    }
    Step::Record(Span {
        at: gate + 1 + LENGTH,
        length,
    })
}
