//! A real file: made, served, and opened again.
use crate::program::{INIT, link_of, same, same_bytes, status_with};
use crate::session::script_of;
use blob_disk::Disk;
use command_line::Status;
use file_disk::FileOpener;
use ports::Opener;
use std::alloc::Global;
use std::fs;
use std::process::Abort;
use std::sync::Wait;
use std::test::Fail;
use std::thread::Threads;

const NAME: &str = "repository";

const OPENED: &str = "opened";

const FSCK: &str = "hg_cli fsck opened";

/// A content is stored, and read in another session.
const PUT: &str =
    r#"PUT /content | abc | 200 OK | {"code":"content","id":"ba7816bf8f01cfea414140de5dae2223b00361a396177a9cb410ff61f20015ad","size":3}"#;

const GET: &str =
    "GET /content/ba7816bf8f01cfea414140de5dae2223b00361a396177a9cb410ff61f20015ad |  | 200 OK | 0x616263";

// Runs the program on the words of a line, which ends and writes so.
fn check<R: Abort + Threads + Wait + Sync, D: Disk + Send, O: Opener<D>>(
    rt: &R,
    alloc: Global,
    opener: &mut O,
    line: &str,
    input: &[u8],
    wanted: (Status, &[u8]),
) -> Result<(), Fail>
where
    D::Flush: Send,
    D::Peer: Send,
{
    let mut link = link_of(alloc, input)?;
    let status = status_with(rt, alloc, line, &mut link, opener)?;
    same(rt, (status, link.written()), wanted, line);
    Ok(())
}

fn check_session<R: Abort + Threads + Wait + Sync, D: Disk + Send, O: Opener<D>>(
    rt: &R,
    alloc: Global,
    opener: &mut O,
    lines: &str,
) -> Result<(), Fail>
where
    D::Flush: Send,
    D::Peer: Send,
{
    let script = script_of(alloc, lines)?;
    let (line, input) = ("hg_cli session repository", script.input.as_slice());
    let wanted = (Status::Done, script.wanted.as_slice());
    check(rt, alloc, opener, line, input, wanted)
}

// A new repository in which a content is stored, read in another session, and counted.
fn check_story<R: Abort + Threads + Wait + Sync, D: Disk + Send, O: Opener<D>>(
    rt: &R,
    alloc: Global,
    opener: &mut O,
) -> Result<(), Fail>
where
    D::Flush: Send,
    D::Peer: Send,
{
    let made = (Status::Done, b"ready 65536\n".as_slice());
    check(rt, alloc, opener, INIT, b"", made)?;
    check_session(rt, alloc, opener, PUT)?;
    check_session(rt, alloc, opener, GET)?;
    let counted = b"entries 1 contents 1 changesets 0 bookmarks 0 size 26\n";
    let counted = (Status::Done, counted.as_slice());
    check(rt, alloc, opener, "hg_cli fsck repository", b"", counted)
}

#[test]
fn what_was_stored_outlasts_the_session(rt: HostRuntime) -> Result<(), Fail> {
    let _ = fs::remove_file(&rt, NAME);
    let mut opener = FileOpener::new(&rt);
    check_story(&rt, rt.alloc(), &mut opener)?;
    fs::remove_file(&rt, NAME)?;
    Ok(())
}

fn is_opened<D: Drop>(opener: &mut impl Opener<D>, create: bool) -> bool {
    opener.open(OPENED, create).is_ok()
}

// While the file is open, it is not opened.
fn check_opened<R: Abort + Threads + Wait + Sync, D: Disk + Send, O: Opener<D>>(
    rt: &R,
    alloc: Global,
    opener: &mut O,
) -> Result<(), Fail>
where
    D::Flush: Send,
    D::Peer: Send,
{
    let first = opener.open(OPENED, false);
    assert!(rt; first.is_ok());
    assert!(rt; !is_opened(opener, false));
    assert!(rt; !is_opened(opener, true));
    let wanted = (Status::DiskFault, b"disk fault\n".as_slice());
    check(rt, alloc, opener, FSCK, b"", wanted)
}

#[test]
fn a_file_that_is_open_is_not_opened_again(rt: HostRuntime) -> Result<(), Fail> {
    fs::write(&rt, OPENED, b"BONSAI")?;
    let mut opener = FileOpener::new(&rt);
    check_opened(&rt, rt.alloc(), &mut opener)?;
    // once it is closed, it is found as it was
    let kept = fs::read(&rt, OPENED)?;
    same_bytes(&rt, kept.as_slice(), b"BONSAI", OPENED);
    let wanted = (Status::BadFile, b"not a repository\n".as_slice());
    check(&rt, rt.alloc(), &mut opener, FSCK, b"", wanted)?;
    Ok(fs::remove_file(&rt, OPENED)?)
}
