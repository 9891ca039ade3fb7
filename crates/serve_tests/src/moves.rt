//! A landing between whose plan and entry another connection moves `main` away and back, or sets a policy.
use crate::gates::FirstWaits;
use crate::given::opener_of;
use crate::landings::{LANDED, STORED, requests_of, uploads_of};
use crate::servers::{BOOKMARK, SeenLink, WITH_MAIN, ran, seen_link};
use blob_disk::MemDisk;
use command_line::{Ran, Status};
use ports::{Failed, Link, MemAccept, MemLink, NoGate};
use std::alloc::Global;
use std::sync::atomic::{AtomicU64, Ordering};
use std::sync::{Arc, Wait};
use std::test::Fail;
use std::thread;
use std::thread::Threads;

const MOST_TURNS: u64 = 1_000_000;

/// A draft upon the changeset where `main` stands, and its id: it sets `p` to the content `abc`.
const DRAFT: &str =
    "e8795b6f358309976a85a48b88590a7b77ffcdc1ce55d29a761853d4ff0669f0 430101ffb74880ae0d3038b6e6e402ea0840634c79efb3c927e280d44f36567ece7169000161000000000000000000000000000000000000000100017001000000000000000003ba7816bf8f01cfea414140de5dae2223b00361a396177a9cb410ff61f20015ad";

/// Another one, which sets `x`.
const OTHER: &str =
    "430101ffb74880ae0d3038b6e6e402ea0840634c79efb3c927e280d44f36567ece7169000161000000000000000000000000000000000000000100017801000000000000000003ba7816bf8f01cfea414140de5dae2223b00361a396177a9cb410ff61f20015ad";

/// From where `main` stands to the other one, and back.
const MOVES: &str = "\
ffb74880ae0d3038b6e6e402ea0840634c79efb3c927e280d44f36567ece7169/6f0fd4791e9901030b778dc51bebc28effb042f328726c7f1689026f5b9c68c8
6f0fd4791e9901030b778dc51bebc28effb042f328726c7f1689026f5b9c68c8/ffb74880ae0d3038b6e6e402ea0840634c79efb3c927e280d44f36567ece7169";

/// The log of the file that is left, from the sixth entry on: both moves, and the draft as it was.
const LOG: &str =
    "HTTP/1.1 200 OK\r\nContent-Type: application/json\r\nContent-Length: 685\r\n\r\n{\"code\":\"log\",\"entries\":[{\"from\":\"ffb74880ae0d3038b6e6e402ea0840634c79efb3c927e280d44f36567ece7169\",\"kind\":\"bookmark\",\"name\":\"main\",\"number\":5,\"to\":\"6f0fd4791e9901030b778dc51bebc28effb042f328726c7f1689026f5b9c68c8\"},{\"from\":\"6f0fd4791e9901030b778dc51bebc28effb042f328726c7f1689026f5b9c68c8\",\"kind\":\"bookmark\",\"name\":\"main\",\"number\":6,\"to\":\"ffb74880ae0d3038b6e6e402ea0840634c79efb3c927e280d44f36567ece7169\"},{\"draft\":\"e8795b6f358309976a85a48b88590a7b77ffcdc1ce55d29a761853d4ff0669f0\",\"ids\":[\"e8795b6f358309976a85a48b88590a7b77ffcdc1ce55d29a761853d4ff0669f0\"],\"kind\":\"landing\",\"name\":\"main\",\"number\":7,\"old\":\"ffb74880ae0d3038b6e6e402ea0840634c79efb3c927e280d44f36567ece7169\"}],\"total\":8}";

/// A policy by which the draft isn't landed.
const POLICY: &[u8] = b"PUT /policy HTTP/1.1\r\nContent-Length: 12\r\n\r\nallow ann /\n";

/// How many bytes the answers have to it, and to a landing of the draft under it.
const SET: u64 = 99;

const DENIED: u64 = 118;

/// The log of the file that is left then, from the sixth entry on.
const NO_MORE: &str =
    "HTTP/1.1 200 OK\r\nContent-Type: application/json\r\nContent-Length: 37\r\n\r\n{\"code\":\"log\",\"entries\":[],\"total\":5}";

/// A link whose input may come only once a landing came to the gate.
#[derive(Drop)]
struct LateLink<'a> {
    link: SeenLink,
    after: Option<&'a AtomicU64>,
}

fn wait_for(after: Option<&AtomicU64>) {
    let Some(came) = after else {
        return;
    };
    for _ in 0..MOST_TURNS {
        if came.load(Ordering::SeqCst) > 0 {
            return;
        }
        thread::yield_now();
    }
}

impl<'a> Link for LateLink<'a> {
    ghost faults = { λ l. ⟦<SeenLink as Link>⟧.faults l.link };

    ghost rest = { λ l. ⟦<SeenLink as Link>⟧.rest l.link };

    ghost written = { λ l. ⟦<SeenLink as Link>⟧.written l.link };

    fn read(&mut self, buf: &mut [u8]) -> Result<usize, Failed> {
        wait_for(self.after);
        self.link.read(buf)
    }

    fn write(&mut self, bytes: &[u8]) -> Result<(), Failed> {
        self.link.write(bytes)
    }
}

// The requests of a connection, which put the content and the other changeset, and move `main` there and back.
fn moves_of(alloc: Global) -> Result<Vec<u8>, Fail> {
    let mut input = uploads_of(alloc, OTHER)?;
    for ids in MOVES.lines() {
        let line = format!(in alloc; "PUT /bookmark/main/{ids} HTTP/1.1\r\n\r\n")?;
        input.extend_from_slice(line.as_bytes())?;
    }
    Ok(input)
}

fn late_link<'a>(
    alloc: Global,
    input: &[u8],
    sent: &Arc<AtomicU64>,
    after: Option<&'a AtomicU64>,
) -> Result<LateLink<'a>, Fail> {
    let link = seen_link(alloc, input, None, sent)?;
    Ok(LateLink { link, after })
}

// A link on which the draft is landed, and one whose requests come after that came to the gate.
fn accept_of<'a>(
    alloc: Global,
    sent: &Arc<AtomicU64>,
    came: &'a AtomicU64,
    then: &[u8],
) -> Result<MemAccept<LateLink<'a>>, Fail> {
    let landing = requests_of(alloc, DRAFT)?;
    let mut links = Vec::new(alloc);
    links.push(late_link(alloc, landing.as_slice(), sent, None)?)?;
    links.push(late_link(alloc, then, sent, Some(came))?)?;
    Ok(MemAccept::new(links, Vec::new(alloc)))
}

// A run of a server with two lanes, and the link on which it wrote.
fn landed<'a, R: Threads + Wait + Sync>(
    rt: &R,
    alloc: Global,
    sent: &Arc<AtomicU64>,
    gate: &'a FirstWaits,
    then: &[u8],
) -> Result<(Ran<MemDisk, MemAccept<LateLink<'a>>, LateLink<'a>>, MemLink), Fail> {
    let accept = accept_of(alloc, sent, gate.came(), then)?;
    let opener = opener_of(alloc, WITH_MAIN, None)?;
    let line = "hg_cli serve repository A 2 0 2";
    ran(rt, alloc, line, b"", opener, accept, gate)
}

// The link on which a session wrote the log of a file, from the sixth entry on.
fn log_of<R: Threads + Wait + Sync>(
    rt: &R,
    alloc: Global,
    file: Option<MemDisk>,
) -> Result<MemLink, Fail> {
    let file = file.ok_or("a file")?;
    let opener = opener_of(alloc, file.bytes(), None)?;
    let none = MemAccept::<MemLink>::new(Vec::new(alloc), Vec::new(alloc));
    let input = b"GET /log/5 HTTP/1.1\r\n\r\n";
    let line = "hg_cli session repository";
    let (_ran, link) = ran(rt, alloc, line, input, opener, none, &NoGate)?;
    Ok(link)
}

#[test]
fn a_head_that_is_back_is_landed_on_at_the_first_attempt(rt: HostRuntime) -> Result<(), Fail> {
    let alloc = rt.alloc();
    let sent = Arc::new(alloc, AtomicU64::new(0))?;
    let gate = FirstWaits::new(&sent, 2 * STORED + BOOKMARK);
    let moves = moves_of(alloc)?;
    let (ran, link) = landed(&rt, alloc, &sent, &gate, moves.as_slice())?;
    assert_eq!(rt; gate.told(), (1, 0));
    assert_eq!(rt; ran.status, Status::Done);
    assert_eq!(rt; link.written(), b"served 2 entries 8\n".as_slice());
    assert_eq!(rt;
        sent.load(Ordering::SeqCst),
        2 * (STORED + BOOKMARK) + LANDED
    );
    let link = log_of(&rt, alloc, ran.disk)?;
    assert_eq!(rt; link.written(), LOG.as_bytes());
    Ok(())
}

#[test]
fn a_policy_that_comes_between_a_plan_and_its_entry_decides(rt: HostRuntime) -> Result<(), Fail> {
    let alloc = rt.alloc();
    let sent = Arc::new(alloc, AtomicU64::new(0))?;
    let gate = FirstWaits::new(&sent, STORED);
    let (ran, link) = landed(&rt, alloc, &sent, &gate, POLICY)?;
    assert_eq!(rt; gate.told(), (1, 0));
    assert_eq!(rt; ran.status, Status::Done);
    assert_eq!(rt; link.written(), b"served 2 entries 5\n".as_slice());
    assert_eq!(rt; sent.load(Ordering::SeqCst), STORED + SET + DENIED);
    let link = log_of(&rt, alloc, ran.disk)?;
    assert_eq!(rt; link.written(), NO_MORE.as_bytes());
    Ok(())
}
