//! Files gone over, gate by gate.
use crate::rows::same;
use blob_disk::{CallKind, MemDisk};
use repo_journal::{Scanner, Span, Step};
use std::alloc::{AllocError, Global};
use std::process::Abort;
use std::test::Fail;

const HEADER: &[u8] = b"BONSAI\x00\x01\x00\x00\x00\x00\x00\x01\x00\x00";

// What stands behind the header, and the steps over it. A digit stands for a byte of its value, and a letter for itself.
// A step is a record with its place and length, `.` where the gate is closed, or where the file is bad.
//
// In turn: no gate; a closed one; a gate that is neither open nor 0 is closed; a record; what follows a closed gate means
// nothing; no gate stands behind the record; the payload is cut off; the length is cut off; an empty payload.
const ROWS: &str = "\
| !16
0 | .
20004Babc0 | .
10004Babc0 | 21+4 .
10004Babc01 | 21+4 .
10004Babc | 21+4 !25
10005Babc | !16
1000 | !16
100000 | 21+0 .";

#[derive(Drop)]
struct Scan {
    disk: MemDisk,
    scanner: Scanner,
}

fn disk_of(alloc: Global, file: &[u8]) -> Result<MemDisk, AllocError> {
    MemDisk::holding(alloc, file, file.len() as u64, Vec::new(alloc))
}

fn scanner_of(alloc: Global, file: &[u8]) -> Result<Scanner, AllocError> {
    Scanner::new(alloc, file.len() as u64)
}

fn scan_file(alloc: Global, file: &[u8]) -> Result<Scan, AllocError> {
    let disk = disk_of(alloc, file)?;
    let scanner = scanner_of(alloc, file)?;
    Ok(Scan { disk, scanner })
}

// A scan of a file of this header and these bytes.
fn scan_of(alloc: Global, bytes: &[u8]) -> Result<Scan, AllocError> {
    let mut file = Vec::from_slice(alloc, HEADER)?;
    file.extend_from_slice(bytes)?;
    scan_file(alloc, &file)
}

fn next(rt: &impl Abort, scan: &mut Scan) -> Option<Step> {
    assert!(rt; scan.disk.bytes().len() as u64 >= scan.scanner.size());
    scan.scanner.next(&mut scan.disk).ok()
}

// The bytes of a payload, once they are held.
fn first_byte(rt: &impl Abort, scan: &mut Scan, span: Span) -> Option<u8> {
    assert!(rt; scan.disk.bytes().len() as u64 >= scan.scanner.size());
    assert!(rt; span.at < 1_000_000 && span.at + u64::from(span.length) <= scan.scanner.size());
    scan.scanner.hold(&mut scan.disk, span).ok()?;
    scan.scanner.held(span).first().copied()
}

fn put_step(out: &mut String, step: Option<Step>) -> Result<(), Fail> {
    match step {
        Some(Step::Record(span)) => Ok(write!(out, " {}+{}", span.at, span.length)?),
        Some(Step::Closed) => Ok(out.push_str(" .")?),
        Some(Step::Bad { at }) => Ok(write!(out, " !{at}")?),
        None => Err(Fail::from("a fault")),
    }
}

// Adds the steps up to the one that ends them.
fn put_steps(rt: &impl Abort, scan: &mut Scan, out: &mut String) -> Result<(), Fail> {
    for _ in 0..10 {
        let step = next(rt, scan);
        put_step(out, step)?;
        if !matches!(step, Some(Step::Record(_))) {
            break;
        }
    }
    Ok(())
}

// The bytes that the digits and letters of a row stand for.
fn put_file(out: &mut Vec<u8>, marks: &str) -> Result<(), AllocError> {
    for mark in marks.as_bytes() {
        let value = mark.wrapping_sub(b'0');
        out.push(if value < 10 { value } else { *mark })?;
    }
    Ok(())
}

fn steps_of(rt: &impl Abort, alloc: Global, marks: &str) -> Result<String, Fail> {
    let mut bytes = Vec::new(alloc);
    put_file(&mut bytes, marks)?;
    let mut scan = scan_of(alloc, &bytes)?;
    let mut told = String::new(alloc);
    put_steps(rt, &mut scan, &mut told)?;
    Ok(told)
}

#[test]
fn each_gate_is_told(rt: HostRuntime) -> Result<(), Fail> {
    for line in ROWS.lines() {
        let (marks, wanted) = line.split_once("|").ok_or("a row")?;
        let told = steps_of(&rt, rt.alloc(), marks.trim_end())?;
        same(&rt, told.as_str(), wanted, line);
    }
    Ok(())
}

// So many records, each of which has a payload of this length.
fn put_records(out: &mut Vec<u8>, count: u32, payload: &[u8]) -> Result<(), AllocError> {
    let length = payload.len().min(1_000_000) as u32;
    for _ in 0..count {
        out.push(1)?;
        out.extend_from_slice(&length.to_be_bytes())?;
        out.extend_from_slice(payload)?;
    }
    Ok(out.push(0)?)
}

fn records(alloc: Global, count: u32, len: usize) -> Result<Vec<u8>, AllocError> {
    let payload = vec![in alloc; b'B'; len]?;
    let mut bytes = Vec::new(alloc);
    put_records(&mut bytes, count, &payload)?;
    Ok(bytes)
}

// How many records there are whose payloads begin so.
fn count_of(rt: &impl Abort, scan: &mut Scan, mark: u8) -> u32 {
    let mut count = 0u32;
    for _ in 0..100_000 {
        let Some(Step::Record(span)) = next(rt, scan) else {
            break;
        };
        if first_byte(rt, scan, span) == Some(mark) {
            count = count.wrapping_add(1);
        }
    }
    count
}

// So many records are read in so many reads.
fn check_count(
    rt: &impl Abort,
    alloc: Global,
    count: u32,
    len: usize,
    reads: u64,
) -> Result<(), Fail> {
    let bytes = records(alloc, count, len)?;
    let mut scan = scan_of(alloc, &bytes)?;
    assert_eq!(rt; count_of(rt, &mut scan, b'B'), count);
    assert_eq!(rt; scan.disk.calls(CallKind::Read), reads);
    Ok(())
}

#[test]
fn many_records_are_read_at_once(rt: HostRuntime) -> Result<(), Fail> {
    // 9,000 bytes
    check_count(&rt, rt.alloc(), 1_000, 4, 1)?;
    // 225,000 bytes, in blocks of 65,536
    check_count(&rt, rt.alloc(), 25_000, 4, 4)?;
    // one payload past a block, and the gate behind it
    check_count(&rt, rt.alloc(), 1, 70_000, 3)
}
