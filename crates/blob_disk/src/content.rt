//! The bytes of a disk in memory, and which of them were written since the last sync.
ghost use Rattle.std.specs.Prelude.{◌≡◌, ℕ, ◌+◌, ◌<◌, ◌≤◌, false, length, replicate, slice_index_or, IfOk};
ghost use Rattle.std.specs.Vec.{vec_capacity};
ghost use Rattle.disk_model.specs.Images.{write_at};
ghost use Rattle.blob_disk.specs.Memory.{holding_all, wrote, tore, synced};
ghost use Rattle.blob_disk.specs.MemMeaning.{IsCrashed};

use std::alloc::{AllocError, Global};
use std::marker::Model;

/// What reads give, and which places were written since the last sync. It has its room from the start.
#[derive(Drop)]
pub struct Content {
    bytes: Vec<u8>,
    // how long the file was at the last sync
    stable: usize,
    // one for each place that there is room for
    marks: Vec<bool>,
    // no mark is set out of this span
    from: usize,
    to: usize,
}

impl Model for Content {
    ghost use Rattle.std.specs.Prelude.{length};
    ghost use Rattle.std.specs.Vec.{vec_capacity};
    ghost use Rattle.blob_disk.specs.Memory.{Memory};
    ghost use Rattle.blob_disk.specs.Inside.{IsRoomy};

    ghost Value = { Memory };

    ghost view = { λ c. record { reads = c.bytes.items; stable = c.stable; marks = c.marks.items } };

    ghost invariant = { λ c. IsRoomy (vec_capacity c.bytes) (length c.bytes.items) c.stable c.marks.items c.from c.to };
}

impl Content {
    /// These bytes, all stable, with room for `room` bytes in all.
    pub fn new(alloc: Global, bytes: &[u8], room: usize) -> Result<Self, AllocError>
        requires { length bytes.now ≤ room }
        ensures { IfOk result (λ content. content ≡ holding_all bytes.now room) }
    {
        let mut held = Vec::with_capacity(alloc, room)?;
        held.extend_from_slice(bytes)?;
        Ok(Content {
            stable: held.len(),
            bytes: held,
            marks: vec![in alloc; false; room]?,
            from: room,
            to: 0,
        })
    }

    /// How many bytes there are.
    pub fn len(&self) -> usize
        ensures { result ≡ length self.now.reads }
    {
        self.bytes.len()
    }

    /// How many bytes there is room for.
    pub fn room(&self) -> usize
        ensures { result ≡ length self.now.marks }
    {
        self.marks.len()
    }

    pub fn bytes(&self) -> &[u8]
        ensures { result.now ≡ self.now.reads }
    {
        &self.bytes
    }

    /// Writes over what is there, and past the end.
    pub fn write(&mut self, at: usize, bytes: &[u8])
        requires place { at ≤ length self.old.reads }
        requires room { at + length bytes.now ≤ length self.old.marks }
        ensures { self.new ≡ wrote at bytes.now self.old }
    {
        put(&mut self.bytes, at, bytes);
        let end = at + bytes.len();
        self.marks[at..end].fill(true);
        self.from = self.from.min(at);
        self.to = self.to.max(end);
    }

    /// A write of `len` bytes failed: what reads give stays, and a crash may leave any bytes there.
    pub fn tear(&mut self, at: usize, len: usize)
        requires { at ≤ length self.old.reads }
        ensures { self.new ≡ tore at len self.old }
    {
        let room = self.marks.len();
        let end = if len < room - at { at + len } else { room };
        self.marks[at..end].fill(true);
        self.from = self.from.min(at);
        self.to = self.to.max(end);
    }

    /// All that reads give is stable.
    pub fn sync(&mut self)
        ensures { self.new ≡ synced self.old }
    {
        clear(&mut self.marks, self.from, self.to);
        self.from = self.marks.len();
        self.to = 0;
        self.stable = self.bytes.len();
    }

    /// What a crash leaves where each byte that was written since the last sync holds `fill`.
    /// All of it is stable.
    pub fn crash(&mut self, fill: u8)
        ensures bytes { IsCrashed fill self.old self.new.reads }
        ensures stable { self.new ≡ holding_all self.new.reads (length self.old.marks) }
    {
        tear_up(&mut self.bytes, self.stable, &self.marks, fill);
        self.sync();
    }
}

// Writes over what is there, and past the end.
fn put(held: &mut Vec<u8>, at: usize, bytes: &[u8])
    requires place { at ≤ length held.old.items }
    requires room { at + length bytes.now ≤ vec_capacity held.old }
    ensures written { held.new.items ≡ write_at at bytes.now held.old.items }
    ensures capacity { vec_capacity held.old ≤ vec_capacity held.new }
{
    let over = bytes.len().min(held.len() - at);
    let (front, rest) = bytes.split_at(over);
    held[at..at + over].copy_from_slice(front);
    held.extend_from_slice(rest).unwrap();
}

// Takes away all marks, of which none is set out of this span.
fn clear(marks: &mut [bool], from: usize, to: usize)
    requires span { to ≤ length marks.old }
    requires before { (i : ℕ) → i < from → slice_index_or marks.old i false ≡ false }
    requires behind { (i : ℕ) → to ≤ i → slice_index_or marks.old i false ≡ false }
    ensures { marks.new ≡ replicate (length marks.old) false }
{
    if from < to {
        marks[from..to].fill(false);
    }
}

// Puts `fill` at each place that was written since the last sync.
fn tear_up(bytes: &mut [u8], stable: usize, marks: &[bool], fill: u8)
    requires { length bytes.old ≤ length marks.now }
    ensures { IsCrashed fill (record { reads = bytes.old; stable = stable; marks = marks.now }) bytes.new }
{
    for i in 0..bytes.len() {
        if i >= stable || marks[i] {
            bytes[i] = fill;
        }
    }
}
