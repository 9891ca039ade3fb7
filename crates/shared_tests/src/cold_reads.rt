//! Contents that are read by a second handle of the disk, which gives the file's bytes, or others, or none.
ghost use Rattle.repo_state.specs.State.{IsAllSealed};

use crate::peered::{Given, Peered};
use crate::repository::{new_repository, opened_on};
use blob_disk::{Disk, MemDisk};
use object_id::Id;
use repo_calls::{Ask, Seen};
use repo_state::RepoState;
use shared_repo::Repo;
use std::alloc::{AllocError, Global};
use std::sync::{Arc, Wait};
use std::test::Fail;

// The file of a new repository in which `abc` and `de` are stored, and the whole of both.
fn stored_file(alloc: Global) -> Result<MemDisk, Fail> {
    let mut state = new_repository(alloc, &[])?;
    let mut parts = Vec::new(alloc);
    for bytes in [b"abc".as_slice(), b"de".as_slice()] {
        store(alloc, &mut state, &Ask::PutContent(bytes))?;
        parts.extend_from_slice(Id::of(bytes).as_bytes())?;
    }
    store(alloc, &mut state, &Ask::PutWhole(&parts))?;
    Ok(state.into_disk())
}

// Makes a change, and seals it.
fn store<D: Disk>(alloc: Global, state: &mut RepoState<D>, ask: &Ask) -> Result<(), Fail> {
    if state.store(alloc, 1, ask).is_err() {
        return Err(Fail::from("a change"));
    }
    let stored = state.stored_length();
    match state.seal(1, stored) {
        Ok(()) => Ok(()),
        Err(_) => Err(Fail::from("a seal")),
    }
}

// The bytes, and others where they are to be changed.
fn copied(alloc: Global, bytes: &[u8], changed: bool) -> Result<Vec<u8>, AllocError> {
    let mut copy = Vec::new(alloc);
    for &byte in bytes {
        copy.push(if changed { byte ^ 1 } else { byte })?;
    }
    Ok(copy)
}

// Whether a seat of this repository reads these bytes under their id.
fn is_read<R: Wait, D: Disk>(
    rt: &R,
    alloc: Global,
    state: RepoState<D>,
    bytes: &[u8],
) -> Result<bool, Fail>
    requires sealed { IsAllSealed state.history state.sealed }
{
    let Ok((repo, mut lead)) = Repo::new(alloc, state) else {
        return Err(Fail::from(AllocError));
    };
    match repo.content(rt, alloc, &mut lead, Id::of(bytes))? {
        Seen::Bytes(found) => Ok(found.as_slice() == bytes),
        _ => Err(Fail::from("other than bytes")),
    }
}

// Whether these bytes are read where second handles give those, and how often for it the handle was asked, and the disk.
fn read_beside<R: Wait>(
    rt: &R,
    alloc: Global,
    given: Vec<u8>,
    bytes: &[u8],
) -> Result<(bool, u64, u64), Fail> {
    let given = Arc::new(alloc, Given::new(given))?;
    let disk = Peered::new(stored_file(alloc)?, Arc::try_clone(&given)?);
    let state = opened_on(alloc, disk)?;
    let (_, opening) = given.told();
    let read = is_read(rt, alloc, state, bytes)?;
    let (looks, reads) = given.told();
    Ok((read, looks, reads.saturating_sub(opening)))
}

// The same of `abc`, and of `abcde`, which was joined of two parts.
fn read_both<R: Wait>(
    rt: &R,
    alloc: Global,
    given: &[u8],
    changed: bool,
) -> Result<[(bool, u64, u64); 2], Fail> {
    Ok([
        read_beside(rt, alloc, copied(alloc, given, changed)?, b"abc")?,
        read_beside(rt, alloc, copied(alloc, given, changed)?, b"abcde")?,
    ])
}

// Nothing is read of the disk in a turn.
#[test]
fn a_second_handle_reads_contents_in_the_place_of_the_disk(rt: HostRuntime) -> Result<(), Fail> {
    let alloc = rt.alloc();
    let disk = stored_file(alloc)?;
    let told = read_both(&rt, alloc, disk.bytes(), false)?;
    assert_eq!(rt; told, [(true, 1, 0), (true, 2, 0)]);
    Ok(())
}

#[test]
fn other_bytes_of_a_second_handle_are_no_answer(rt: HostRuntime) -> Result<(), Fail> {
    let alloc = rt.alloc();
    let disk = stored_file(alloc)?;
    let told = read_both(&rt, alloc, disk.bytes(), true)?;
    assert_eq!(rt; told, [(true, 1, 1), (true, 2, 2)]);
    Ok(())
}

// The first part that isn't given ends it.
#[test]
fn what_a_second_handle_fails_to_read_the_disk_reads(rt: HostRuntime) -> Result<(), Fail> {
    let alloc = rt.alloc();
    let told = read_both(&rt, alloc, b"", false)?;
    assert_eq!(rt; told, [(true, 1, 1), (true, 1, 2)]);
    Ok(())
}
