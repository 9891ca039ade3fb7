//! Loads of the program, by a table: from the words to the status and the line.
use blob_disk::MemDisk;
use command_line::{Ran, Status, run};
use ports::{Accept, FixedClock, Link, MemAccept, MemLink, MemOpener, NoGate, ZeroBytes};
use std::alloc::{AllocError, Global};
use std::hash::RandomState;
use std::process::Abort;
use std::sync::Wait;
use std::test::Fail;
use std::thread::Threads;

/// Words, and the line that they come to. The second row is the first again, in whatever order its clients land.
const LOADS: &str = "\
hg_cli gen 7 5 3 = landed 15 entries 74 root 20e3a14309461bb6ca5ad46b5f02970b97c8eab91ae9e164b6eb2a3c065ac077
hg_cli gen 7 5 3 = landed 15 entries 74 root 20e3a14309461bb6ca5ad46b5f02970b97c8eab91ae9e164b6eb2a3c065ac077
hg_cli gen 1 3 2 = landed 6 entries 33 root 5964080163d40d98ac123d5fce895ec2fc03974543c1c6aade6679cd67c21c70
hg_cli gen 0 1 1 = landed 1 entries 9 root 9ccfeae5de7691df025660857a73c9aade47eb00b1beb2424614a0b23131e9ec";

const MISUSED: &str = "\
hg_cli gen 7 401 1
hg_cli gen 7 0 1
hg_cli gen 7 1 9
hg_cli gen 7 1 0
hg_cli gen 4294967296 1 1
hg_cli gen 7 1";

// The words of a line, which a blank parts.
fn words(alloc: Global, line: &str) -> Result<Vec<String>, AllocError> {
    let mut words = Vec::new(alloc);
    for word in line.split(' ') {
        words.push(String::from_str(alloc, word)?)?;
    }
    Ok(words)
}

// The call that fails, where one does.
fn calls(alloc: Global, lost: Option<u64>) -> Result<Vec<u64>, AllocError> {
    let mut calls = Vec::new(alloc);
    if let Some(call) = lost {
        calls.push(call)?;
    }
    Ok(calls)
}

// A link with room for 4,096 bytes, of which this write fails.
fn link_of(alloc: Global, lost: Option<u64>) -> Result<MemLink, AllocError> {
    let writes = calls(alloc, lost)?;
    let bytes = Vec::from_slice(alloc, b"GET")?;
    MemLink::new(alloc, bytes, 4_096, 4_096, Vec::new(alloc), writes)
}

// A connection that is there to be taken.
fn accept_of(alloc: Global) -> Result<MemAccept<MemLink>, AllocError> {
    let mut links = Vec::new(alloc);
    links.push(link_of(alloc, None)?)?;
    Ok(MemAccept::new(links, Vec::new(alloc)))
}

fn keys() -> Result<RandomState, Fail> {
    Ok(RandomState::new(&ZeroBytes)?)
}

// A run on these words, without files.
fn run_over<R, L, A, K>(
    rt: &R,
    alloc: Global,
    words: &[String],
    link: &mut L,
    accept: A,
) -> Result<Ran<MemDisk, A, K>, Fail>
where
    R: Threads + Wait + Sync,
    L: Link,
    A: Accept<K> + Send,
    K: Link + Send,
{
    let keys = keys()?;
    let mut opener = MemOpener::new(Vec::new(alloc), Vec::new(alloc), Vec::new(alloc));
    let clock = FixedClock { moment: 0 };
    Ok(run(
        rt,
        alloc,
        keys,
        words,
        link,
        &mut opener,
        accept,
        &NoGate,
        &clock,
    ))
}

fn run_line<R: Threads + Wait + Sync, L: Link>(
    rt: &R,
    alloc: Global,
    line: &str,
    link: &mut L,
) -> Result<Ran<MemDisk, MemAccept<MemLink>, MemLink>, Fail> {
    let words = words(alloc, line)?;
    run_over(rt, alloc, words.as_slice(), link, accept_of(alloc)?)
}

// What a run of these words came to, with a connection that is there to be taken, and the link on which it wrote. This write
// of the link fails.
fn ran<R: Threads + Wait + Sync>(
    rt: &R,
    alloc: Global,
    line: &str,
    lost: Option<u64>,
) -> Result<(Ran<MemDisk, MemAccept<MemLink>, MemLink>, MemLink), Fail> {
    let mut link = link_of(alloc, lost)?;
    let ran = run_line(rt, alloc, line, &mut link)?;
    Ok((ran, link))
}

fn check_ended<A, K: Drop>(
    rt: &impl Abort,
    ran: &Ran<MemDisk, A, K>,
    line: &str,
    status: Status,
    is_loaded: bool,
) {
    assert_eq!(rt; ran.status, status, "{line}");
    assert!(rt; ran.disk.is_none(), "{line}");
    assert_eq!(rt; ran.load.is_some(), is_loaded, "{line}");
}

fn check_load<R: Abort + Threads + Wait + Sync>(
    rt: &R,
    alloc: Global,
    line: &str,
    lost: Option<u64>,
    status: Status,
    wanted: &str,
) -> Result<(), Fail> {
    let (ran, link) = ran(rt, alloc, line, lost)?;
    check_ended(rt, &ran, line, status, true);
    assert_eq!(rt; link.written(), wanted.as_bytes(), "{line}");
    Ok(())
}

fn check_row<R: Abort + Threads + Wait + Sync>(
    rt: &R,
    alloc: Global,
    row: &str,
) -> Result<(), Fail> {
    let (line, wanted) = row.split_once(" = ").ok_or("a row")?;
    let wanted = format!(in alloc; "{wanted}\n")?;
    check_load(rt, alloc, line, None, Status::Done, wanted.as_str())
}

#[test]
fn a_load_writes_its_line_at_each_run(rt: HostRuntime) -> Result<(), Fail> {
    let alloc = rt.alloc();
    for row in LOADS.lines() {
        check_row(&rt, alloc, row)?;
    }
    // the line can't be written to its end
    check_load(
        &rt,
        alloc,
        "hg_cli gen 0 1 1",
        Some(2),
        Status::StreamFault,
        "landed 1",
    )
}

fn gives<L: Drop, A: Accept<L>>(accept: &mut A) -> bool {
    matches!(accept.next(), Ok(Some(_)))
}

// The connection is still there.
fn check_unserved<A: Accept<K>, K: Drop>(
    rt: &impl Abort,
    ran: &mut Ran<MemDisk, A, K>,
    line: &str,
) {
    assert_eq!(rt; ran.served.count(), 0, "{line}");
    assert!(rt; gives(&mut ran.accept), "{line}");
}

fn check_misused<R: Abort + Threads + Wait + Sync>(
    rt: &R,
    alloc: Global,
    line: &str,
) -> Result<(), Fail> {
    let (mut ran, link) = ran(rt, alloc, line, None)?;
    check_ended(rt, &ran, line, Status::Usage, false);
    check_unserved(rt, &mut ran, line);
    assert!(rt;
        link.written()
            .starts_with(b"usage: hg_cli init FILE CAP | "),
        "{line}"
    );
    Ok(())
}

#[test]
fn a_load_out_of_its_ranges_is_none(rt: HostRuntime) -> Result<(), Fail> {
    for line in MISUSED.lines() {
        check_misused(&rt, rt.alloc(), line)?;
    }
    Ok(())
}
