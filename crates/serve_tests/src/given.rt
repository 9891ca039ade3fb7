//! What a run is given.
use blob_disk::{CallKind, MemDisk};
use ports::{MemLink, MemOpener, Slot};
use std::alloc::{AllocError, Global};

/// The words of a command line, which a blank parts.
pub(crate) fn words(alloc: Global, line: &str) -> Result<Vec<String>, AllocError> {
    let mut words = Vec::new(alloc);
    for word in line.split(' ') {
        words.push(String::from_str(alloc, word)?)?;
    }
    Ok(words)
}

/// The calls that fail, where one does.
pub(crate) fn calls<T: Drop>(alloc: Global, call: Option<T>) -> Result<Vec<T>, AllocError> {
    let mut calls = Vec::new(alloc);
    if let Some(call) = call {
        calls.push(call)?;
    }
    Ok(calls)
}

// A disk with these bytes and room for 65,536 at least. This sync of it fails.
fn disk_of(alloc: Global, file: &[u8], unsynced: Option<u64>) -> Result<MemDisk, AllocError> {
    let room = 65_536_u64.max(file.len() as u64);
    let failing = calls(alloc, unsynced.map(|call| (CallKind::Sync, call)))?;
    MemDisk::holding(alloc, file, room, failing)
}

// The file `repository` on a disk.
fn slot_of<D: Drop>(alloc: Global, disk: D) -> Result<Slot<D>, AllocError> {
    Ok(Slot {
        name: String::from_str(alloc, "repository")?,
        held: Some(disk),
    })
}

/// An opener that has the file `repository` with these bytes and room for 65,536 at least. This sync of it fails.
pub(crate) fn opener_of(
    alloc: Global,
    file: &[u8],
    unsynced: Option<u64>,
) -> Result<MemOpener<MemDisk>, AllocError> {
    let mut named = Vec::new(alloc);
    let disk = disk_of(alloc, file, unsynced)?;
    named.push(slot_of(alloc, disk)?)?;
    Ok(MemOpener::new(named, Vec::new(alloc), Vec::new(alloc)))
}

/// An opener without files.
pub(crate) fn empty_opener(alloc: Global) -> MemOpener<MemDisk> {
    MemOpener::new(Vec::new(alloc), Vec::new(alloc), Vec::new(alloc))
}

// A link with this input and room for 65,536 bytes, of which these writes fail.
fn link_with(alloc: Global, input: Vec<u8>, writes: Vec<u64>) -> Result<MemLink, AllocError> {
    MemLink::new(alloc, input, 65_536, 65_536, Vec::new(alloc), writes)
}

/// A link with this input and room for 65,536 bytes, of which this write fails.
pub(crate) fn link_of(
    alloc: Global,
    input: &[u8],
    lost: Option<u64>,
) -> Result<MemLink, AllocError> {
    let writes = calls(alloc, lost)?;
    link_with(alloc, Vec::from_slice(alloc, input)?, writes)
}
