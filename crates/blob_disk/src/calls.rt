//! Counts the calls of a disk, and tells which of them are to fail.
ghost use Rattle.std.specs.Prelude.{◌≡◌, ◌≤◌, []};
ghost use Rattle.blob_disk.specs.Tally.{counted, failed, fresh, is_due, is_kind, made};

use crate::call_kind::CallKind;
use ports::Failed;
use std::marker::Model;

/// How many calls of each kind there were, and the list of those that are to fail: the nth call,
/// from 0, of a kind.
#[derive(Drop)]
pub struct Calls {
    failing: Vec<(CallKind, u64)>,
    sizes: u64,
    reads: u64,
    writes: u64,
    syncs: u64,
    faults: u64,
}

impl Model for Calls {
    ghost use Rattle.blob_disk.specs.Tally.{Tally};

    ghost Value = { Tally };

    ghost view = { λ c. record { failing = c.failing.items; sizes = c.sizes; reads = c.reads; writes = c.writes; syncs = c.syncs; faults = c.faults } };
}

impl Calls {
    /// No call yet.
    pub fn new(failing: Vec<(CallKind, u64)>) -> Self
        ensures { result ≡ fresh failing.items }
    {
        Calls {
            failing,
            sizes: 0,
            reads: 0,
            writes: 0,
            syncs: 0,
            faults: 0,
        }
    }

    /// How many calls of the kind there were. It stands at the last value of its type.
    pub fn made(&self, kind: CallKind) -> u64
        ensures { result ≡ made kind self.now }
    {
        match kind {
            CallKind::Size => self.sizes,
            CallKind::Read => self.reads,
            CallKind::Write => self.writes,
            CallKind::Sync => self.syncs,
        }
    }

    /// How many calls failed. It stands at the last value of its type.
    pub fn faults(&self) -> u64
        ensures { result ≡ self.now.faults }
    {
        self.faults
    }

    /// The next call of the kind is to fail.
    fn is_due(&self, kind: CallKind) -> bool
        ensures { result ≡ is_due kind self.now }
    {
        let made = self.made(kind);
        self.failing
            .iter()
            .any(|call| is_same(call.0, kind) && call.1 == made)
    }

    /// One more call of the kind, and whether it is to fail.
    pub fn count(&mut self, kind: CallKind) -> bool
        ensures due { result ≡ is_due kind self.old }
        ensures counted { self.new ≡ counted kind self.old }
    {
        let due = self.is_due(kind);
        match kind {
            CallKind::Size => self.sizes = self.sizes.saturating_add(1),
            CallKind::Read => self.reads = self.reads.saturating_add(1),
            CallKind::Write => self.writes = self.writes.saturating_add(1),
            CallKind::Sync => self.syncs = self.syncs.saturating_add(1),
        }
        due
    }

    /// One more call failed.
    pub fn fail(&mut self) -> Failed
        ensures failed { self.new ≡ failed self.old }
        ensures no_fewer { self.old.faults ≤ self.new.faults }
    {
        self.faults = self.faults.saturating_add(1);
        Failed
    }

    /// No call was made, and none is to fail.
    pub fn reset(&mut self)
        ensures { self.new ≡ fresh [] }
    {
        self.failing.clear();
        self.sizes = 0;
        self.reads = 0;
        self.writes = 0;
        self.syncs = 0;
        self.faults = 0;
    }
}

fn is_same(kind: CallKind, other: CallKind) -> bool
    ensures { result ≡ is_kind kind other }
{
    match (kind, other) {
        (CallKind::Size, CallKind::Size) => true,
        (CallKind::Read, CallKind::Read) => true,
        (CallKind::Write, CallKind::Write) => true,
        (CallKind::Sync, CallKind::Sync) => true,
        _ => false,
    }
}
