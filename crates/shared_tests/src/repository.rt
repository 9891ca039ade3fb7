//! Repositories over memory.
ghost use Rattle.std.specs.Prelude.{IfOk};
ghost use Rattle.repo_state.specs.State.{IsAllSealed};

use blob_disk::{CallKind, Disk, MemDisk};
use ports::ZeroBytes;
use recovery::{Opened, open};
use repo_journal::init;
use repo_state::RepoState;
use std::alloc::{AllocError, Global};
use std::hash::RandomState;
use std::test::Fail;

// The syncs of these numbers.
fn syncs(alloc: Global, numbers: &[u64]) -> Result<Vec<(CallKind, u64)>, AllocError> {
    let mut calls = Vec::new(alloc);
    for &number in numbers {
        calls.push((CallKind::Sync, number))?;
    }
    Ok(calls)
}

/// An empty disk with room for 65,536 bytes, of whose syncs these fail.
pub(crate) fn new_disk(alloc: Global, failing: &[u64]) -> Result<MemDisk, AllocError> {
    MemDisk::new(alloc, 65_536, syncs(alloc, failing)?)
}

// Makes the file of a new repository.
fn make_file<D: Disk>(disk: &mut D) -> Result<(), Fail> {
    match init(disk, 65_536) {
        Ok(()) => Ok(()),
        Err(_) => Err(Fail::from("a new file")),
    }
}

fn keys() -> Result<RandomState, Fail> {
    Ok(RandomState::new(&ZeroBytes)?)
}

// The repository in a file.
fn open_file<D: Disk>(alloc: Global, keys: RandomState, disk: D) -> Result<RepoState<D>, Fail>
    ensures { IfOk result (λ state. IsAllSealed state.history state.sealed) }
{
    let mut disk = disk;
    let Opened { machine, journal } = open(alloc, keys, &mut disk)?;
    Ok(RepoState::new(alloc, machine, journal, disk))
}

/// A new repository on a disk that keeps a record of each moment. This call of it fails, if one does: it is made by two
/// writes and two syncs and opened by a third sync, and a seal is a write, a sync, a write and a sync.
pub(crate) fn recorded_repository(
    alloc: Global,
    failing: Option<(CallKind, u64)>,
) -> Result<RepoState<MemDisk>, Fail>
    ensures { IfOk result (λ state. IsAllSealed state.history state.sealed) }
{
    let mut calls = Vec::new(alloc);
    if let Some(call) = failing {
        calls.push(call)?;
    }
    repository_on(alloc, MemDisk::recording(alloc, 65_536, 64, 4_096, calls)?)
}

/// A new repository on this disk, which is empty.
pub(crate) fn repository_on<D: Disk>(alloc: Global, disk: D) -> Result<RepoState<D>, Fail>
    ensures { IfOk result (λ state. IsAllSealed state.history state.sealed) }
{
    let mut disk = disk;
    make_file(&mut disk)?;
    opened_on(alloc, disk)
}

/// The repository in a file.
pub(crate) fn opened_on<D: Disk>(alloc: Global, disk: D) -> Result<RepoState<D>, Fail>
    ensures { IfOk result (λ state. IsAllSealed state.history state.sealed) }
{
    open_file(alloc, keys()?, disk)
}

/// How many entries the repository in a file has.
pub(crate) fn entries_in<D: Disk>(alloc: Global, disk: D) -> Result<u64, Fail> {
    let state = opened_on(alloc, disk)?;
    Ok(state.stored_length())
}

/// A new repository of 65,536 bytes at most. Of its disk's syncs those of these numbers fail: it is made by syncs 0 and 1
/// and opened by sync 2, and each seal takes two.
pub(crate) fn new_repository(alloc: Global, failing: &[u64]) -> Result<RepoState<MemDisk>, Fail>
    ensures { IfOk result (λ state. IsAllSealed state.history state.sealed) }
{
    repository_on(alloc, new_disk(alloc, failing)?)
}
