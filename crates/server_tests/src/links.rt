//! Which links of an accept are served, and what is left of it.
use crate::repository::new_repository;
use crate::serving::{MOST_DERIVERS, serve};
use crate::watched::Watched;
use blob_disk::Disk;
use object_id::Id;
use ports::{Accept, Failed, MemAccept, MemLink, NoGate};
use repo_state::Alone;
use server_lanes::Closing;
use std::alloc::{AllocError, Global};
use std::process::Abort;
use std::sync::Wait;
use std::sync::atomic::{AtomicU64, Ordering};
use std::test::Fail;
use std::thread::Threads;

// A content is stored, and then contents are joined of which the ids come behind this.
const REQUESTS: &[u8] =
    b"PUT /content HTTP/1.1\r\nContent-Length: 3\r\n\r\nabcPUT /whole HTTP/1.1\r\nContent-Length: 64\r\n\r\n";

// To the second request. The id is SHA-256 of `abcabc` (FIPS 180-4).
const RESPONSE: &[u8] =
    b"HTTP/1.1 200 OK\r\nContent-Type: application/json\r\nContent-Length: 97\r\n\r\n{\"code\":\"whole\",\"id\":\"bbb59da3af939f7af5f360f2ceb80a496e3bae1cd87dde426db0ae40677e1c2c\",\"size\":6}";

// What an accept gives next.
#[derive(Clone, Copy, Debug, PartialEq, Eq)]
enum Next {
    Link,
    End,
    Fault,
}

// What a server left: how many links were served and answered, how many entries there are, and what its
// accept gives next.
#[derive(Clone, Copy, Debug, PartialEq, Eq)]
struct Left {
    served: u64,
    answered: u64,
    entries: u64,
    next: Next,
}

// So many links, each with the same requests. Of the first one this write fails, and of the accept this call.
struct Row {
    links: u64,
    write: &'static [u64],
    call: &'static [u64],
    lanes: u64,
    connections: u64,
    left: Left,
}

const BOTH: Left = Left {
    served: 2,
    answered: 2,
    entries: 2,
    next: Next::End,
};

const ROWS: &[Row] = &[
    // the accept isn't asked once as many as may be were served
    Row {
        links: 2,
        write: &[],
        call: &[2],
        lanes: 2,
        connections: 2,
        left: Left {
            next: Next::Fault,
            ..BOTH
        },
    },
    Row {
        links: 3,
        write: &[],
        call: &[],
        lanes: 2,
        connections: 2,
        left: Left {
            next: Next::Link,
            ..BOTH
        },
    },
    // a session that ends by a fault is the end of that one alone
    Row {
        links: 2,
        write: &[0],
        call: &[],
        lanes: 2,
        connections: 2,
        left: Left {
            answered: 1,
            ..BOTH
        },
    },
    Row {
        links: 2,
        write: &[0],
        call: &[],
        lanes: 1,
        connections: 2,
        left: Left {
            answered: 1,
            ..BOTH
        },
    },
    // an accept that fails is asked no more
    Row {
        links: 2,
        write: &[],
        call: &[0],
        lanes: 2,
        connections: 2,
        left: Left {
            served: 0,
            answered: 0,
            entries: 0,
            next: Next::Link,
        },
    },
    Row {
        links: 2,
        write: &[],
        call: &[1],
        lanes: 2,
        connections: 2,
        left: Left {
            served: 1,
            answered: 1,
            entries: 2,
            next: Next::Link,
        },
    },
    // one that is over gives no more
    Row {
        links: 2,
        write: &[],
        call: &[3],
        lanes: 3,
        connections: 5,
        left: BOTH,
    },
    Row {
        links: 1,
        write: &[],
        call: &[],
        lanes: 1,
        connections: 0,
        left: Left {
            served: 0,
            answered: 0,
            entries: 0,
            next: Next::Link,
        },
    },
];

// The content is joined with itself.
fn requests(alloc: Global) -> Result<Vec<u8>, AllocError> {
    let id = Id::of(b"abc");
    let mut requests = Vec::from_slice(alloc, REQUESTS)?;
    requests.extend_from_slice(id.as_bytes())?;
    requests.extend_from_slice(id.as_bytes())?;
    Ok(requests)
}

// A link with this input, of which these writes fail.
fn link_with(alloc: Global, input: Vec<u8>, writes: Vec<u64>) -> Result<MemLink, AllocError> {
    MemLink::new(alloc, input, 65_536, 65_536, Vec::new(alloc), writes)
}

fn link_of<'a>(
    alloc: Global,
    writes: &[u64],
    answered: &'a AtomicU64,
) -> Result<Watched<'a, MemLink>, AllocError> {
    let writes = Vec::from_slice(alloc, writes)?;
    let link = link_with(alloc, requests(alloc)?, writes)?;
    Ok(Watched::new(link, RESPONSE, answered))
}

fn accept_of<'a>(
    alloc: Global,
    row: &Row,
    answered: &'a AtomicU64,
) -> Result<MemAccept<Watched<'a, MemLink>>, AllocError> {
    let mut links = Vec::new(alloc);
    for number in 0..row.links {
        let writes = if number == 0 { row.write } else { &[] };
        links.push(link_of(alloc, writes, answered)?)?;
    }
    Ok(MemAccept::new(links, Vec::from_slice(alloc, row.call)?))
}

fn next_of<L, A: Accept<L>>(accept: &mut A) -> Next
where
    L: Drop,
{
    match accept.next() {
        Ok(Some(_)) => Next::Link,
        Ok(None) => Next::End,
        Err(Failed) => Next::Fault,
    }
}

// What is left of a server over links, of which so many were answered.
fn left_in<D: Disk, A: Accept<L>, L: Drop>(
    closing: Closing<D, A, L>,
    answered: u64,
) -> Result<Left, Fail> {
    if !closing.began {
        return Err(Fail::from("memory"));
    }
    let state = closing.state;
    let mut accept = closing.accept;
    Ok(Left {
        served: closing.served.count(),
        answered,
        entries: state.history_length(),
        next: next_of(&mut accept),
    })
}

fn left_of<R: Threads + Wait + Sync, D: Disk + Send>(
    rt: &R,
    alloc: Global,
    alone: Alone<D>,
    row: &Row,
    derivers: u64,
) -> Result<Left, Fail>
where
    D::Flush: Send,
    D::Peer: Send,
{
    let answered = AtomicU64::new(0);
    let accept = accept_of(alloc, row, &answered)?;
    let closing = serve(
        rt,
        alloc,
        alone,
        accept,
        &NoGate,
        row.lanes,
        derivers,
        row.connections,
    )?;
    left_in(closing, answered.load(Ordering::SeqCst))
}

fn check_row<R: Abort + Threads + Wait + Sync>(
    rt: &R,
    alloc: Global,
    number: usize,
    row: &Row,
    derivers: u64,
) -> Result<(), Fail> {
    let left = left_of(rt, alloc, new_repository(alloc)?, row, derivers)?;
    assert_eq!(rt; left, row.left, "row {number}, {derivers} derivers");
    Ok(())
}

#[test]
fn each_link_that_is_given_is_served_once(rt: HostRuntime) -> Result<(), Fail> {
    let alloc = rt.alloc();
    for (number, row) in ROWS.iter().enumerate() {
        check_row(&rt, alloc, number, row, 0)?;
        check_row(&rt, alloc, number, row, MOST_DERIVERS)?;
    }
    Ok(())
}
