//! Links: calls that fail, and an input that doesn't end.
ghost use Rattle.std.specs.Prelude.{None};

use crate::program::{Came, INIT, made, number, opener_of, size, status_with};
use crate::session::{cut, script_of, session};
use command_line::Status;
use ports::{Failed, Link};
use std::alloc::Global;
use std::process::Abort;
use std::sync::Wait;
use std::test::Fail;
use std::thread::Threads;

/// A changeset is uploaded and read back: requests of 73 and 111 bytes, and responses of 163 and 105.
const SCRIPT: &str =
    r#"PUT /changeset | 0x4301000001610000000000000000000000000000000000000000 | 200 OK | {"code":"changeset","id":"ffb74880ae0d3038b6e6e402ea0840634c79efb3c927e280d44f36567ece7169"}
GET /changeset/ffb74880ae0d3038b6e6e402ea0840634c79efb3c927e280d44f36567ece7169 |  | 200 OK | 0x4301000001610000000000000000000000000000000000000000"#;

// How many bytes one read gives at most, which read fails, which write, and how many bytes of the responses went out then.
// The last read finds the end, and no call has the number 9. Of 73 bytes at once the first read gives the first request.
const FAILING: &str = "\
40 | 0 | 9 | 0
40 | 1 | 9 | 0
40 | 2 | 9 | 163
40 | 3 | 9 | 163
40 | 4 | 9 | 163
40 | 5 | 9 | 268
73 | 0 | 9 | 0
73 | 1 | 9 | 163
73 | 2 | 9 | 163
73 | 3 | 9 | 268
40 | 9 | 0 | 0
40 | 9 | 1 | 163";

// No call of the whole session has these numbers.
const SPARED: &str = "40 | 6 | 2 | 268";

// Runs the script where this read and this write fail.
fn failing<R: Threads + Wait + Sync>(
    rt: &R,
    alloc: Global,
    input: &[u8],
    row: &str,
) -> Result<Came, Fail> {
    let (piece, rest) = cut(row);
    let (read, rest) = cut(rest);
    let (write, _length) = cut(rest);
    let (reads, writes) = ([number(read)?], [number(write)?]);
    session(rt, alloc, input, size(piece)?, &reads, &writes)
}

// Of the responses so many bytes went out as a row's last field says.
fn check_front(
    rt: &impl Abort,
    came: &Came,
    status: Status,
    responses: &[u8],
    row: &str,
) -> Result<(), Fail> {
    let (_calls, length) = row.rsplit_once(" | ").ok_or("a length")?;
    let front = responses.get(..size(length)?).ok_or("a length")?;
    came.check(rt, status, front, row);
    Ok(())
}

fn check_failing<R: Abort + Threads + Wait + Sync>(
    rt: &R,
    alloc: Global,
    row: &str,
    status: Status,
) -> Result<(), Fail> {
    let script = script_of(alloc, SCRIPT)?;
    let came = failing(rt, alloc, script.input.as_slice(), row)?;
    check_front(rt, &came, status, script.wanted.as_slice(), row)
}

#[test]
fn a_link_that_fails_ends_the_session(rt: HostRuntime) -> Result<(), Fail> {
    for row in FAILING.lines() {
        check_failing(&rt, rt.alloc(), row, Status::StreamFault)?;
    }
    check_failing(&rt, rt.alloc(), SPARED, Status::Done)
}

// A link whose input is line ends that never stop.
#[derive(Drop)]
struct LineEnds {
    bytes: u64,
    writes: u64,
}

impl Link for LineEnds {
    ghost faults = { λ _. 0 };

    ghost rest = { λ _. None };

    ghost written = { λ _. None };

    fn read(&mut self, buf: &mut [u8]) -> Result<usize, Failed> {
        self.bytes = self.bytes.saturating_add(buf.len() as u64);
        for i in 0..buf.len() {
            buf[i] = if i % 2 == 0 { b'\r' } else { b'\n' };
        }
        Ok(buf.len())
    }

    fn write(&mut self, _bytes: &[u8]) -> Result<(), Failed> {
        self.writes = self.writes.saturating_add(1);
        Ok(())
    }
}

// Runs a session on a new repository and this link.
fn served<R: Threads + Wait + Sync>(
    rt: &R,
    alloc: Global,
    link: &mut LineEnds,
) -> Result<Status, Fail> {
    let mut opener = opener_of(alloc, Some(made(rt, alloc, INIT)?))?;
    status_with(rt, alloc, "hg_cli session repository", link, &mut opener)
}

#[test]
fn an_endless_input_ends_by_the_bytes_read(rt: HostRuntime) -> Result<(), Fail> {
    let mut link = LineEnds {
        bytes: 0,
        writes: 0,
    };
    assert_eq!(rt; served(&rt, rt.alloc(), &mut link)?, Status::Spent);
    assert_eq!(rt; link.writes, 0);
    assert_eq!(rt; link.bytes, 1_073_741_824);
    Ok(())
}
