//! A record of each write and sync of a disk, from which each of its states can be told again.
ghost use Rattle.std.specs.Prelude.{◌≡◌, ◌↔◌, [], length, IfOk, IsTrue};
ghost use Rattle.blob_disk.specs.Log.{blank_log, bytes_of, call_of, noted, HasRoom};

use std::alloc::{AllocError, Global};
use std::marker::Model;

/// A write or a sync. The bytes of a write that was done stand beside the turns.
#[derive(Clone, Copy)]
pub enum Turn {
    Wrote { at: usize, len: usize },
    Tore { at: usize, len: usize },
    Synced,
    Unsynced,
}

/// The turns so far, and the bytes that were written in them. It has its room from the start.
#[derive(Drop)]
pub struct Record {
    turns: Vec<Turn>,
    written: Vec<u8>,
    most_turns: usize,
    most_bytes: usize,
}

impl Model for Record {
    ghost use Rattle.std.specs.Prelude.{◌-◌, length};
    ghost use Rattle.std.specs.Vec.{vec_capacity};
    ghost use Rattle.blob_disk.specs.Log.{Log, calls_of, IsRecord};

    ghost Value = { Log };

    ghost view = { λ r. record { calls = calls_of r.turns.items r.written.items; turns_left = r.most_turns - length r.turns.items; bytes_left = r.most_bytes - length r.written.items } };

    ghost invariant = { λ r. IsRecord r.turns.items r.written.items (vec_capacity r.turns) (vec_capacity r.written) r.most_turns r.most_bytes };
}

impl Record {
    /// No turn yet, with room for so many turns and written bytes.
    pub fn new(alloc: Global, turns: usize, bytes: usize) -> Result<Self, AllocError>
        ensures { IfOk result (λ log. log ≡ blank_log turns bytes) }
    {
        Ok(Record {
            turns: Vec::with_capacity(alloc, turns)?,
            written: Vec::with_capacity(alloc, bytes)?,
            most_turns: turns,
            most_bytes: bytes,
        })
    }

    /// How many turns there were.
    pub fn len(&self) -> usize
        ensures { result ≡ length self.now.calls }
    {
        self.turns.len()
    }

    /// There is room for one more turn that writes so many bytes.
    pub fn has_room(&self, bytes: usize) -> bool
        ensures { IsTrue result ↔ HasRoom bytes self.now }
    {
        self.turns.len() < self.most_turns && bytes <= self.most_bytes - self.written.len()
    }

    /// One more turn, that wrote these bytes.
    pub fn note(&mut self, turn: Turn, bytes: &[u8])
        requires room { HasRoom (length bytes.now) self.old }
        requires all { bytes_of turn ≡ length bytes.now }
        ensures { self.new ≡ noted (call_of turn bytes.now) (length bytes.now) self.old }
    {
        self.written.extend_from_slice(bytes).unwrap();
        self.turns.push(turn).unwrap();
    }
}
