//! Files of contents that are joined.
use crate::files::{Came, Told, check, check_file, damaged, disk_of, put_hex};
use blob_disk::{CallKind, MemDisk};
use recovery::OpenFault;
use std::alloc::{AllocError, Global};
use std::process::Abort;
use std::test::Fail;

// The ids of `abc`, of `abd`, of `abcabc` and of `abcabcabc`.
const ABC: &str = "ba7816bf8f01cfea414140de5dae2223b00361a396177a9cb410ff61f20015ad";

const ABD: &str = "a52d159f262b2c6ddb724a61840befc36eb30c88877a4030b65cbe86298449c9";

const TWICE: &str = "bbb59da3af939f7af5f360f2ceb80a496e3bae1cd87dde426db0ae40677e1c2c";

const THRICE: &str = "76b99ab4be8521d78b19bcff7d1078aabeb477bd134f404094c92cd39f051c3e";

// A whole of two parts, by its record.
#[derive(Clone, Copy, Debug)]
struct Whole {
    id: &'static str,
    length: u64,
    parts: [&'static str; 2],
}

// `abcabc`
const JOINED: Whole = Whole {
    id: TWICE,
    length: 6,
    parts: [ABC, ABC],
};

// Where the gates behind the content and behind one whole stand.
const FIRST: u64 = 25;

const SECOND: u64 = 137;

// A record of 112 bytes: an open gate, the length of the payload, its mark, the id, the length, the count, and the ids.
fn put_whole(out: &mut Vec<u8>, alloc: Global, whole: &Whole) -> Result<(), AllocError> {
    out.extend_from_slice(b"\x01\x00\x00\x00\x6BW")?;
    put_hex(out, alloc, whole.id)?;
    out.extend_from_slice(&whole.length.to_be_bytes())?;
    out.extend_from_slice(b"\x00\x02")?;
    for part in whole.parts {
        put_hex(out, alloc, part)?;
    }
    Ok(())
}

// A file of this version and of capacity 65,536 with the content `abc`, and these wholes behind it.
fn file_of(alloc: Global, version: u8, wholes: &[Whole]) -> Result<Vec<u8>, AllocError> {
    let mut file = Vec::from_slice(alloc, b"BONSAI\x00")?;
    file.extend_from_slice(&[version, 0, 0, 0, 0, 0, 1, 0, 0])?;
    file.extend_from_slice(b"\x01\x00\x00\x00\x04Babc")?;
    for whole in wholes {
        put_whole(&mut file, alloc, whole)?;
    }
    file.push(0)?;
    Ok(file)
}

// The file opens so.
fn check_wholes(
    rt: &impl Abort,
    alloc: Global,
    version: u8,
    wholes: &[Whole],
    want: Came,
) -> Result<(), Fail> {
    let file = file_of(alloc, version, wholes)?;
    let row = format!(in alloc; "{version} {wholes:?}")?;
    check_file(rt, alloc, file.as_slice(), want, row.as_str())
}

const OPENED: Came = Ok(Told {
    entries: 2,
    size: 138,
});

#[test]
fn a_whole_is_entered(rt: HostRuntime) -> Result<(), Fail> {
    check_wholes(&rt, rt.alloc(), 2, &[JOINED], OPENED)
}

#[test]
fn another_whole_is_damaged(rt: HostRuntime) -> Result<(), Fail> {
    let alloc = rt.alloc();
    check_wholes(&rt, alloc, 1, &[JOINED], damaged(FIRST))?;
    // of another id, of another length, and of parts that aren't there
    for whole in [
        Whole { id: ABD, ..JOINED },
        Whole {
            length: 5,
            ..JOINED
        },
        Whole {
            parts: [ABC, ABD],
            ..JOINED
        },
        Whole {
            parts: [ABC, TWICE],
            ..JOINED
        },
    ] {
        check_wholes(&rt, alloc, 2, &[whole], damaged(FIRST))?;
    }
    // the same again, and one whose part is a whole
    check_wholes(&rt, alloc, 2, &[JOINED, JOINED], damaged(SECOND))?;
    let nested = Whole {
        id: THRICE,
        length: 9,
        parts: [TWICE, ABC],
    };
    check_wholes(&rt, alloc, 2, &[JOINED, nested], damaged(SECOND))
}

// A disk with the whole, of which the read with this number fails.
fn failing_disk(alloc: Global, read: u64) -> Result<MemDisk, AllocError> {
    let file = file_of(alloc, 2, &[JOINED])?;
    let mut failing = Vec::new(alloc);
    failing.push((CallKind::Read, read))?;
    disk_of(alloc, file.as_slice(), failing)
}

// The read of a part is told, and the file opens again.
fn check_failing(rt: &impl Abort, alloc: Global, read: u64) -> Result<(), Fail> {
    let mut disk = failing_disk(alloc, read)?;
    let row = format!(in alloc; "read {read}")?;
    check(
        rt,
        alloc,
        &mut disk,
        Err(OpenFault::DiskFault),
        row.as_str(),
    )?;
    check(rt, alloc, &mut disk, OPENED, row.as_str())
}

#[test]
fn a_failing_read_of_a_part_is_told(rt: HostRuntime) -> Result<(), Fail> {
    let alloc = rt.alloc();
    // Behind the reads of the header and of the records each part is read once.
    check_failing(&rt, alloc, 2)?;
    check_failing(&rt, alloc, 3)?;
    let mut disk = failing_disk(alloc, 4)?;
    check(&rt, alloc, &mut disk, OPENED, "no further read")
}
