//! What a follower leaves.
use crate::replying::link_with;
use crate::repository::{disk_with, open_file};
use blob_disk::{CallKind, Disk, MemDisk};
use follower::{Followed, follow};
use ports::{Link, MemLink};
use std::alloc::Global;
use std::test::Fail;

/// Which calls of a follower's link and disk fail.
#[derive(Clone, Copy)]
pub(crate) struct Failing {
    pub(crate) reads: &'static [u64],
    pub(crate) writes: &'static [u64],
    pub(crate) disk: &'static [(CallKind, u64)],
}

/// None.
pub(crate) const CALM: Failing = Failing {
    reads: &[],
    writes: &[],
    disk: &[],
};

/// How it ended, what it asked for, and its file.
#[derive(Drop)]
pub(crate) struct Left {
    pub(crate) followed: Followed,
    pub(crate) asked: Vec<u8>,
    pub(crate) file: Vec<u8>,
}

// Follows a server over a link, and gives back the disk and the link.
fn follow_on<D: Disk, L: Link>(alloc: Global, disk: D, link: L) -> Result<(Followed, D, L), Fail> {
    let mut state = open_file(alloc, disk)?;
    let mut link = link;
    let followed = follow(alloc, &mut state, &mut link);
    Ok((followed, state.into_disk(), link))
}

fn left_of(
    alloc: Global,
    followed: Followed,
    disk: &MemDisk,
    link: &MemLink,
) -> Result<Left, Fail> {
    let asked = Vec::from_slice(alloc, link.written())?;
    let file = Vec::from_slice(alloc, disk.bytes())?;
    Ok(Left {
        followed,
        asked,
        file,
    })
}

// The link of a server that replies so.
fn failing_link(alloc: Global, replies: &[u8], failing: Failing) -> Result<MemLink, Fail> {
    let input = Vec::from_slice(alloc, replies)?;
    let reads = Vec::from_slice(alloc, failing.reads)?;
    let writes = Vec::from_slice(alloc, failing.writes)?;
    Ok(link_with(alloc, input, reads, writes)?)
}

fn failing_disk(alloc: Global, file: &[u8], failing: Failing) -> Result<MemDisk, Fail> {
    let calls = Vec::from_slice(alloc, failing.disk)?;
    disk_with(alloc, file, calls)
}

/// Follows a server that replies so, from this file.
pub(crate) fn follow_from(
    alloc: Global,
    file: &[u8],
    replies: &[u8],
    failing: Failing,
) -> Result<Left, Fail> {
    let disk = failing_disk(alloc, file, failing)?;
    let link = failing_link(alloc, replies, failing)?;
    let (followed, disk, link) = follow_on(alloc, disk, link)?;
    left_of(alloc, followed, &disk, &link)
}
