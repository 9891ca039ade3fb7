//! Sources, sinks and links over memory.
use crate::rows::{cut, numbers, same};
use ports::{Link, MemLink, MemSink, MemSource, Pair};
use std::alloc::{AllocError, Global};
use std::process::Abort;
use std::test::Fail;

// How many bytes a read gives at most, the reads that fail, the room, the writes that fail, what is written, and what each
// of four rounds reads, with `!` for a read that fails, `.` for the end, and `-` where the write that follows fails. The
// input is `abcde`, and each round writes `xy`. In the fourth row the third write is past the room.
const ROWS: &str = "\
9 |  | 8 |  | xyxyxyxy | abcde|.|.|.|
2 |  | 8 |  | xyxyxyxy | ab|cd|e|.|
3 | 02 | 8 |  | xyxyxyxy | !|abc|!|de|
9 |  | 5 |  | xyxy | abcde|.|.-|.-|
9 |  | 8 | 1 | xyxyxy | abcde|.-|.|.|
1 | 1 | 0 |  |  | a-|!-|b-|c-|";

/// A link whose calls may fail.
#[derive(Clone, Copy)]
struct Row<'a> {
    piece: usize,
    reads: &'a str,
    room: usize,
    writes: &'a str,
    written: &'a str,
    told: &'a str,
}

fn row_of(line: &str) -> Result<Row, Fail> {
    let (piece, rest) = cut(line);
    let (reads, rest) = cut(rest);
    let (room, rest) = cut(rest);
    let (writes, rest) = cut(rest);
    let (written, told) = cut(rest);
    let (piece, room) = (count(piece)?.max(1), count(room)?);
    Ok(Row {
        piece,
        reads,
        room,
        writes,
        written,
        told,
    })
}

fn count(digits: &str) -> Result<usize, Fail> {
    match digits.parse() {
        Ok(count) => Ok(count),
        Err(_) => Err(Fail::from("a number")),
    }
}

fn put_read(out: &mut String, bytes: &[u8]) -> Result<(), AllocError> {
    if bytes.is_empty() {
        return Ok(out.push('.')?);
    }
    for byte in bytes {
        out.push(char::from(*byte))?;
    }
    Ok(())
}

fn put_round<L: Link>(out: &mut String, link: &mut L) -> Result<(), AllocError> {
    let mut buf = [0; 9];
    match link.read(&mut buf) {
        Err(_) => out.push('!')?,
        Ok(count) => put_read(out, buf.get(..count).unwrap_or(&[]))?,
    }
    if link.write(b"xy").is_err() {
        out.push('-')?;
    }
    Ok(out.push('|')?)
}

// What the rounds give, through the bound.
fn rounds<L: Link>(alloc: Global, link: &mut L) -> Result<String, AllocError> {
    let mut told = String::new(alloc);
    for _ in 0..4 {
        put_round(&mut told, link)?;
    }
    Ok(told)
}

fn input(alloc: Global) -> Result<Vec<u8>, AllocError> {
    Vec::from_slice(alloc, b"abcde")
}

fn link_of(alloc: Global, row: &Row) -> Result<MemLink, AllocError> {
    let reads = numbers(alloc, row.reads)?;
    let writes = numbers(alloc, row.writes)?;
    let input = input(alloc)?;
    let piece = row.piece.max(1);
    MemLink::new(alloc, input, piece, row.room, reads, writes)
}

fn check_written(rt: &impl Abort, link: &MemLink, row: &Row, line: &str) -> Result<(), Fail> {
    let written = str::from_utf8(link.written())?;
    same(rt, written, row.written, line);
    Ok(())
}

fn check_link(rt: &impl Abort, alloc: Global, line: &str) -> Result<(), Fail> {
    let row = row_of(line)?;
    let mut link = link_of(alloc, &row)?;
    let told = rounds(alloc, &mut link)?;
    same(rt, told.as_str(), row.told, line);
    check_written(rt, &link, &row, line)
}

#[test]
fn links_tell_what_they_hold_and_fail_as_told(rt: HostRuntime) -> Result<(), Fail> {
    for line in ROWS.lines() {
        check_link(&rt, rt.alloc(), line)?;
    }
    Ok(())
}

fn source_of(alloc: Global, row: &Row) -> Result<MemSource, AllocError> {
    let reads = numbers(alloc, row.reads)?;
    Ok(MemSource::new(input(alloc)?, row.piece.max(1), reads))
}

fn sink_of(alloc: Global, row: &Row) -> Result<MemSink, AllocError> {
    MemSink::new(alloc, row.room, numbers(alloc, row.writes)?)
}

fn pair_of(alloc: Global, row: &Row) -> Result<Pair<MemSource, MemSink>, AllocError> {
    let source = source_of(alloc, row)?;
    let sink = sink_of(alloc, row)?;
    Ok(Pair::new(source, sink))
}

fn check_pair(rt: &impl Abort, alloc: Global, line: &str) -> Result<(), Fail> {
    let row = row_of(line)?;
    let mut link = pair_of(alloc, &row)?;
    let told = rounds(alloc, &mut link)?;
    same(rt, told.as_str(), row.told, line);
    Ok(())
}

#[test]
fn a_source_and_a_sink_are_a_link(rt: HostRuntime) -> Result<(), Fail> {
    for line in ROWS.lines() {
        check_pair(&rt, rt.alloc(), line)?;
    }
    Ok(())
}
