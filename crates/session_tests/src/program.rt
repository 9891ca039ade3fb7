//! Runs of the program over memory.
use blob_disk::{CallKind, Disk, MemDisk};
use command_line::{Status, run};
use ports::{FixedClock, Link, MemAccept, MemLink, MemOpener, NoGate, Opener, Slot, ZeroBytes};
use std::alloc::{AllocError, Global};
use std::hash::RandomState;
use std::process::Abort;
use std::sync::Wait;
use std::test::Fail;
use std::thread::Threads;

/// What a run came to and wrote, and the file as it left it.
#[derive(Drop)]
pub(crate) struct Came {
    pub(crate) status: Status,
    pub(crate) written: Vec<u8>,
    pub(crate) disk: Option<MemDisk>,
}

impl Came {
    /// The bytes of the file, or none.
    pub(crate) fn file(&self) -> &[u8] {
        match &self.disk {
            Some(disk) => disk.bytes(),
            None => &[],
        }
    }

    /// The run has to end and to write so.
    pub(crate) fn check(&self, rt: &impl Abort, status: Status, written: &[u8], row: &str) {
        same(
            rt,
            (self.status, self.written.as_slice()),
            (status, written),
            row,
        );
    }

    /// The file.
    pub(crate) fn left(self) -> Result<MemDisk, Fail> {
        Ok(self.disk.ok_or("a file")?)
    }
}

/// The words of a command line, which a blank parts.
pub(crate) fn words(alloc: Global, line: &str) -> Result<Vec<String>, AllocError> {
    let mut words = Vec::new(alloc);
    put_words(alloc, &mut words, line)?;
    Ok(words)
}

fn put_words(alloc: Global, out: &mut Vec<String>, line: &str) -> Result<(), AllocError> {
    if line.is_empty() {
        return Ok(());
    }
    for word in line.split(' ') {
        out.push(String::from_str(alloc, word)?)?;
    }
    Ok(())
}

/// The files that a run can open.
pub(crate) type Files = MemOpener<MemDisk>;

/// An opener that has this disk under the name `repository`.
pub(crate) fn opener_of(alloc: Global, disk: Option<MemDisk>) -> Result<Files, AllocError> {
    let mut named = Vec::new(alloc);
    if let Some(disk) = disk {
        named.push(slot_of(alloc, disk)?)?;
    }
    Ok(MemOpener::new(named, Vec::new(alloc), Vec::new(alloc)))
}

fn slot_of(alloc: Global, disk: MemDisk) -> Result<Slot<MemDisk>, AllocError> {
    Ok(Slot {
        name: String::from_str(alloc, "repository")?,
        held: Some(disk),
    })
}

/// An opener that has no file, and this disk for a new one.
pub(crate) fn opener_of_none(alloc: Global, disk: MemDisk) -> Result<Files, AllocError> {
    let mut empty = Vec::new(alloc);
    empty.push(disk)?;
    Ok(MemOpener::new(Vec::new(alloc), empty, Vec::new(alloc)))
}

/// What no connection comes from.
pub(crate) fn no_links(alloc: Global) -> MemAccept<MemLink> {
    MemAccept::new(Vec::new(alloc), Vec::new(alloc))
}

/// Keys for the tables by ids.
pub(crate) fn keys() -> Result<RandomState, Fail> {
    Ok(RandomState::new(&ZeroBytes)?)
}

// Runs the program on these words, and gives the file that it opened.
fn run_words<R: Threads + Wait + Sync, D: Disk + Send, O: Opener<D>, L: Link>(
    rt: &R,
    alloc: Global,
    keys: RandomState,
    words: &[String],
    link: &mut L,
    opener: &mut O,
) -> (Status, Option<D>)
where
    D::Flush: Send,
    D::Peer: Send,
{
    let none = no_links(alloc);
    let clock = FixedClock { moment: 0 };
    let ran = run(rt, alloc, keys, words, link, opener, none, &NoGate, &clock);
    (ran.status, ran.disk)
}

// Runs the program on the words of a line, and gives the file that it opened.
fn run_with<R: Threads + Wait + Sync, D: Disk + Send, O: Opener<D>, L: Link>(
    rt: &R,
    alloc: Global,
    line: &str,
    link: &mut L,
    opener: &mut O,
) -> Result<(Status, Option<D>), Fail>
where
    D::Flush: Send,
    D::Peer: Send,
{
    let words = words(alloc, line)?;
    Ok(run_words(rt, alloc, keys()?, words.as_slice(), link, opener))
}

/// Runs the program on the words of a line, and gives its status.
pub(crate) fn status_with<R: Threads + Wait + Sync, D: Disk + Send, O: Opener<D>, L: Link>(
    rt: &R,
    alloc: Global,
    line: &str,
    link: &mut L,
    opener: &mut O,
) -> Result<Status, Fail>
where
    D::Flush: Send,
    D::Peer: Send,
{
    let (status, _disk) = run_with(rt, alloc, line, link, opener)?;
    Ok(status)
}

/// Runs the program on the words of a line and this opener.
pub(crate) fn run_opener<R: Threads + Wait + Sync>(
    rt: &R,
    alloc: Global,
    line: &str,
    mut link: MemLink,
    mut opener: Files,
) -> Result<Came, Fail> {
    let (status, disk) = run_with(rt, alloc, line, &mut link, &mut opener)?;
    let written = Vec::from_slice(alloc, link.written())?;
    Ok(Came {
        status,
        written,
        disk,
    })
}

/// Runs the program on the words of a line, with the file `repository` on this disk, where one is given.
pub(crate) fn run_line<R: Threads + Wait + Sync>(
    rt: &R,
    alloc: Global,
    line: &str,
    link: MemLink,
    disk: Option<MemDisk>,
) -> Result<Came, Fail> {
    run_opener(rt, alloc, line, link, opener_of(alloc, disk)?)
}

/// A link with this input, and with room for so many bytes.
pub(crate) fn link_with_room(alloc: Global, input: &[u8], room: usize) -> Result<MemLink, Fail> {
    let bytes = Vec::from_slice(alloc, input)?;
    let none = Vec::new(alloc);
    Ok(MemLink::new(alloc, bytes, 65_536, room, none, Vec::new(alloc))?)
}

/// A link with this input, and with room for 65,536 bytes.
pub(crate) fn link_of(alloc: Global, input: &[u8]) -> Result<MemLink, Fail> {
    link_with_room(alloc, input, 65_536)
}

/// A call that is to fail: the kind and which one of it. No call fails for `None`.
pub(crate) type Failing = Option<(CallKind, u64)>;

/// A disk with a file of these bytes, of which this call fails, and room for 65,536 bytes.
pub(crate) fn disk_of(alloc: Global, file: &[u8], failing: Failing) -> Result<MemDisk, AllocError> {
    let mut calls = Vec::new(alloc);
    if let Some(call) = failing {
        calls.push(call)?;
    }
    MemDisk::holding(alloc, file, 65_536_u64.max(file.len() as u64), calls)
}

/// Runs the program on the words of a line and a file of these bytes, with nothing to read.
pub(crate) fn run_on<R: Threads + Wait + Sync>(
    rt: &R,
    alloc: Global,
    line: &str,
    file: &[u8],
) -> Result<Came, Fail> {
    let disk = disk_of(alloc, file, None)?;
    run_line(rt, alloc, line, link_of(alloc, b"")?, Some(disk))
}

/// Makes a repository of 65,536 bytes.
pub(crate) const INIT: &str = "hg_cli init repository 65536";

/// The file of a new repository, which the words of this line make.
pub(crate) fn made<R: Threads + Wait + Sync>(
    rt: &R,
    alloc: Global,
    line: &str,
) -> Result<MemDisk, Fail> {
    run_on(rt, alloc, line, &[])?.left()
}

/// The number that a field has.
pub(crate) fn number(text: &str) -> Result<u64, Fail> {
    Ok(text.parse()?)
}

/// The size that a field has.
pub(crate) fn size(text: &str) -> Result<usize, Fail> {
    Ok(text.parse()?)
}

/// The status that a row's word stands for.
pub(crate) fn status_of(word: &str) -> Status {
    match word {
        "usage" => Status::Usage,
        "disk fault" => Status::DiskFault,
        "bad file" => Status::BadFile,
        "stream fault" => Status::StreamFault,
        "not empty" => Status::NotEmpty,
        "cut" => Status::Cut,
        "refused" => Status::Refused,
        "bad reply" => Status::BadReply,
        "differs" => Status::Differs,
        "full" => Status::Full,
        _ => Status::Done,
    }
}

/// The bytes have to be those wanted.
pub(crate) fn same_bytes(rt: &impl Abort, found: &[u8], wanted: &[u8], row: &str) {
    assert_eq!(rt; found, wanted, "{row}");
}

/// A run has to end and to write as it is wanted.
pub(crate) fn same(rt: &impl Abort, found: (Status, &[u8]), wanted: (Status, &[u8]), row: &str) {
    assert_eq!(rt; found.0, wanted.0, "{row}");
    same_bytes(rt, found.1, wanted.1, row);
}
