//! The words of the command line, the lines that answer them, and the statuses.
use crate::program::{link_of, link_with_room, run_line, same, size, status_of};
use crate::session::cut;
use command_line::{Status, refuse_words};
use ports::MemLink;
use program_words::texts::{HELP, VERSION};
use std::alloc::Global;
use std::io::ErrorKind;
use std::process::Abort;
use std::sync::Wait;
use std::test::Fail;
use std::thread::Threads;

const USAGE: &str =
    "usage: hg_cli init FILE CAP | session FILE | serve FILE ADDR LANES DERIVERS CONNECTIONS | fsck FILE | migrate OLD NEW | gen SEED STACKS CLIENTS | follow FILE ADDR\n";

// Words, how many bytes can be written, the status, and the text that is written.
const ROWS: &str = r#" | 4096 | usage | usage
hg_cli | 4096 | usage | usage
hg_cli session | 4096 | usage | usage
hg_cli Session repository | 4096 | usage | usage
hg_cli session repository more | 163 | usage | usage
hg_cli migrate repository | 163 | usage | usage
hg_cli follow repository | 163 | usage | usage
hg_cli init repository 4095 | 162 | usage | none
hg_cli serve repository 127.0.0.1:0 1 9 1 | 4096 | usage | usage
hg_cli gen 7 401 1 | 4096 | usage | usage
hg_cli session --help | 4096 | done | help
hg_cli -V | 4096 | done | version
hg_cli -V | 12 | stream fault | none"#;

fn text_of(word: &str) -> &'static str {
    match word {
        "usage" => USAGE,
        "help" => HELP,
        "version" => VERSION,
        _ => "",
    }
}

// Runs the program without a file, where so many bytes can be written.
fn check<R: Abort + Threads + Wait + Sync>(rt: &R, alloc: Global, row: &str) -> Result<(), Fail> {
    let (line, rest) = cut(row);
    let (room, rest) = cut(rest);
    let (status, text) = cut(rest);
    let link = link_with_room(alloc, b"GET /", size(room)?)?;
    let came = run_line(rt, alloc, line, link, None)?;
    came.check(rt, status_of(status), text_of(text).as_bytes(), row);
    assert!(rt; came.disk.is_none(), "{row}");
    Ok(())
}

#[test]
fn words_that_open_no_file_get_their_text(rt: HostRuntime) -> Result<(), Fail> {
    for row in ROWS.lines() {
        check(&rt, rt.alloc(), row)?;
    }
    Ok(())
}

fn refuse(kind: ErrorKind, link: &mut MemLink) -> Status {
    refuse_words(kind, link)
}

// Words that can't be read for a reason of this kind end the run so, and write this line.
fn check_refused(
    rt: &impl Abort,
    alloc: Global,
    kind: ErrorKind,
    status: Status,
    line: &str,
) -> Result<(), Fail> {
    let mut link = link_of(alloc, b"")?;
    let found = refuse(kind, &mut link);
    same(rt, (found, link.written()), (status, line.as_bytes()), line);
    Ok(())
}

#[test]
fn words_that_cannot_be_read_have_a_status(rt: HostRuntime) -> Result<(), Fail> {
    let (lacking, no_text) = (ErrorKind::OutOfMemory, ErrorKind::InvalidData);
    check_refused(&rt, rt.alloc(), lacking, Status::NoMemory, "no memory\n")?;
    check_refused(&rt, rt.alloc(), no_text, Status::Usage, USAGE)
}

#[test]
fn statuses_have_their_numbers(rt: HostRuntime) {
    for (status, number) in [
        (Status::Done, 0),
        (Status::Usage, 1),
        (Status::DiskFault, 2),
        (Status::BadFile, 3),
        (Status::NoMemory, 4),
        (Status::StreamFault, 5),
        (Status::NotEmpty, 6),
        (Status::Cut, 7),
        (Status::Refused, 8),
        (Status::Spent, 9),
        (Status::BadReply, 10),
        (Status::Differs, 11),
        (Status::Full, 12),
        (Status::LoadRefused, 13),
    ] {
        assert_eq!(rt; status.code(), number);
    }
}
