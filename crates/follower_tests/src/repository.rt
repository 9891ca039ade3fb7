//! Repositories over memory.
ghost use Rattle.std.specs.Prelude.{IfOk};
ghost use Rattle.repo_state.specs.State.{IsSealedAlone};

use blob_disk::{CallKind, Disk, MemDisk};
use ports::ZeroBytes;
use recovery::{Opened, open};
use repo_state::{Alone, RepoState};
use std::alloc::Global;
use std::hash::RandomState;
use std::test::Fail;

/// The file of a new repository of 65,536 bytes, one of 4,096 bytes, and one of the first version.
pub(crate) const NEW: &str = "424f4e5341490002000000000001000000";

pub(crate) const SMALL: &str = "424f4e5341490002000000000000100000";

pub(crate) const OLD: &str = "424f4e5341490001000000000001000000";

const ROOM: usize = 65_536;

fn keys() -> Result<RandomState, Fail> {
    Ok(RandomState::new(&ZeroBytes)?)
}

/// A disk with this file, of whose calls these fail.
pub(crate) fn disk_with(
    alloc: Global,
    file: &[u8],
    failing: Vec<(CallKind, u64)>,
) -> Result<MemDisk, Fail> {
    if file.len() > ROOM {
        return Err(Fail::from("a file"));
    }
    Ok(MemDisk::holding(alloc, file, ROOM as u64, failing)?)
}

/// The repository in a file.
pub(crate) fn open_file<D: Disk>(alloc: Global, disk: D) -> Result<RepoState<D>, Fail>
    ensures { IfOk result (λ state. IsSealedAlone state.history state.sealed) }
{
    let mut disk = disk;
    let Opened { machine, journal } = open(alloc, keys()?, &mut disk)?;
    Ok(RepoState::new(alloc, machine, journal, disk))
}

// The same, served alone.
fn open_alone<D: Disk>(alloc: Global, disk: D) -> Result<Alone<D>, Fail> {
    Ok(Alone::new(open_file(alloc, disk)?))
}

// The disk of a new repository.
fn new_disk(alloc: Global) -> Result<MemDisk, Fail> {
    let file = hex::decode(alloc, NEW)?;
    disk_with(alloc, file.as_slice(), Vec::new(alloc))
}

/// A new repository that is served alone.
pub(crate) fn new_alone(alloc: Global) -> Result<Alone<MemDisk>, Fail> {
    open_alone(alloc, new_disk(alloc)?)
}
