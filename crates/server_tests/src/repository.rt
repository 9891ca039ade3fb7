//! Repositories over memory.
use blob_disk::{Disk, MemDisk};
use ports::ZeroBytes;
use recovery::{Opened, open};
use repo_journal::init;
use repo_state::{Alone, RepoState};
use std::alloc::Global;
use std::hash::RandomState;
use std::test::Fail;

// An empty disk with room for 65,536 bytes.
fn new_disk(alloc: Global) -> Result<MemDisk, Fail> {
    Ok(MemDisk::new(alloc, 65_536, Vec::new(alloc))?)
}

// Makes the file of a new repository.
fn make_file<D: Disk>(disk: &mut D) -> Result<(), Fail> {
    match init(disk, 65_536) {
        Ok(()) => Ok(()),
        Err(_) => Err(Fail::from("a new file")),
    }
}

fn keys() -> Result<RandomState, Fail> {
    Ok(RandomState::new(&ZeroBytes)?)
}

// The repository in a file.
fn open_file<D: Disk>(alloc: Global, keys: RandomState, disk: D) -> Result<Alone<D>, Fail> {
    let mut disk = disk;
    let Opened { machine, journal } = open(alloc, keys, &mut disk)?;
    Ok(Alone::new(RepoState::new(alloc, machine, journal, disk)))
}

/// A new repository of 65,536 bytes at most.
pub(crate) fn new_repository(alloc: Global) -> Result<Alone<MemDisk>, Fail> {
    let mut disk = new_disk(alloc)?;
    make_file(&mut disk)?;
    open_file(alloc, keys()?, disk)
}
