//! Two landings at once: the first one waits between its plan and its entry until the other is answered.
use crate::gates::FirstWaits;
use crate::given::opener_of;
use crate::servers::{ANSWER, REQUEST, SeenLink, WITH_MAIN, ran, seen_link};
use blob_disk::MemDisk;
use command_line::{Ran, Status};
use ports::{Link, MemAccept, MemLink};
use std::alloc::Global;
use std::sync::atomic::{AtomicU64, Ordering};
use std::sync::{Arc, Wait};
use std::test::Fail;
use std::thread::Threads;

/// Two drafts upon the changeset where `main` stands, and their ids: they set the content `abc` at the paths `p` and `x`.
const DRAFTS: &str = "\
e8795b6f358309976a85a48b88590a7b77ffcdc1ce55d29a761853d4ff0669f0 430101ffb74880ae0d3038b6e6e402ea0840634c79efb3c927e280d44f36567ece7169000161000000000000000000000000000000000000000100017001000000000000000003ba7816bf8f01cfea414140de5dae2223b00361a396177a9cb410ff61f20015ad
6f0fd4791e9901030b778dc51bebc28effb042f328726c7f1689026f5b9c68c8 430101ffb74880ae0d3038b6e6e402ea0840634c79efb3c927e280d44f36567ece7169000161000000000000000000000000000000000000000100017801000000000000000003ba7816bf8f01cfea414140de5dae2223b00361a396177a9cb410ff61f20015ad";

/// How many bytes the answers to a connection's two uploads have.
pub(crate) const STORED: u64 = ANSWER + 163;

/// How many bytes the answer to a landing has.
pub(crate) const LANDED: u64 = 311;

/// The requests that put the content and a changeset of 103 bytes.
pub(crate) fn uploads_of(alloc: Global, digits: &str) -> Result<Vec<u8>, Fail> {
    let put = "PUT /changeset HTTP/1.1\r\nContent-Length: 103\r\n\r\n";
    let bytes = hex::decode(alloc, digits)?;
    let mut input = Vec::from_slice(alloc, REQUEST)?;
    input.extend_from_slice(put.as_bytes())?;
    input.extend_from_slice(bytes.as_slice())?;
    Ok(input)
}

/// The requests of a connection, which put the content and a draft, and land the draft.
pub(crate) fn requests_of(alloc: Global, row: &str) -> Result<Vec<u8>, Fail> {
    let (id, digits) = row.split_once(" ").ok_or("a draft")?;
    let land = format!(in alloc; "POST /land/main/{id} HTTP/1.1\r\n\r\n")?;
    let mut input = uploads_of(alloc, digits)?;
    input.extend_from_slice(land.as_bytes())?;
    Ok(input)
}

// A link for each draft.
fn accept_of(alloc: Global, sent: &Arc<AtomicU64>) -> Result<MemAccept<SeenLink>, Fail> {
    let mut links = Vec::new(alloc);
    for row in DRAFTS.lines() {
        let input = requests_of(alloc, row)?;
        links.push(seen_link(alloc, input.as_slice(), None, sent)?)?;
    }
    Ok(MemAccept::new(links, Vec::new(alloc)))
}

// A run of a server with two lanes, and the link on which it wrote.
fn landed<R: Threads + Wait + Sync>(
    rt: &R,
    alloc: Global,
    sent: &Arc<AtomicU64>,
    gate: &FirstWaits,
) -> Result<(Ran<MemDisk, MemAccept<SeenLink>, SeenLink>, MemLink), Fail> {
    let accept = accept_of(alloc, sent)?;
    let opener = opener_of(alloc, WITH_MAIN, None)?;
    let line = "hg_cli serve repository A 2 0 2";
    ran(rt, alloc, line, b"", opener, accept, gate)
}

#[test]
fn a_landing_goes_on_while_another_waits(rt: HostRuntime) -> Result<(), Fail> {
    let alloc = rt.alloc();
    let sent = Arc::new(alloc, AtomicU64::new(0))?;
    let gate = FirstWaits::new(&sent, 2 * STORED);
    let (ran, link) = landed(&rt, alloc, &sent, &gate)?;
    // the one that waited plans again, and comes again
    assert_eq!(rt; gate.told(), (3, 0));
    assert_eq!(rt; ran.status, Status::Done);
    assert_eq!(rt; link.written(), b"served 2 entries 7\n".as_slice());
    assert_eq!(rt; sent.load(Ordering::SeqCst), 2 * (STORED + LANDED));
    Ok(())
}
