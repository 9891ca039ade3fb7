//! The bytes of a journal, an append that a crash stops, and disks that fail.
ghost use Rattle.std.specs.Prelude.{◌≡◌, ◌+◌, ◌≤◌, ◌<◌, ◌^◌, false, is_some, length, IfOk, IsTrue, OnOk};
ghost use Rattle.disk_model.specs.Meaning.{IsLong};
ghost use Rattle.changeset_model.specs.Version.{Second};
ghost use Rattle.history_model.specs.Journal.{is_header};
ghost use Rattle.repo_journal.specs.Groups.{IsGroup, grown};
ghost use Rattle.repo_journal.specs.Sealing.{IsFramed};

use crate::rows::same;
use blob_disk::{CallKind, Disk, MemDisk};
use repo_journal::{AppendFault, Cut, DiskFault, Journal, Opening, init};
use std::alloc::{AllocError, Global};
use std::process::Abort;
use std::test::Fail;

// A new file of capacity 65,536.
pub(crate) const FRESH: &[u8] = b"BONSAI\x00\x02\x00\x00\x00\x00\x00\x01\x00\x00\x00";

// The same once the content `abc` was appended.
pub(crate) const WITH_ABC: &[u8] =
    b"BONSAI\x00\x02\x00\x00\x00\x00\x00\x01\x00\x00\x01\x00\x00\x00\x04Babc\x00";

// The same once the contents `abc` and `de` were sealed together.
pub(crate) const WITH_BOTH: &[u8] =
    b"BONSAI\x00\x02\x00\x00\x00\x00\x00\x01\x00\x00\x01\x00\x00\x00\x04Babc\x01\x00\x00\x00\x03Bde\x00";

// What all begin with.
const HEADER: &[u8] = b"BONSAI\x00\x02\x00\x00\x00\x00\x00\x01\x00\x00";

pub(crate) const AT_START: Opening = Opening {
    moment: 0,
    length: 0,
    faults: 0,
};

// A payload with its length before it and a closed gate behind.
pub(crate) fn frame_of(alloc: Global, payload: &[u8]) -> Result<Vec<u8>, AllocError>
    requires { length payload.now < 2 ^ 32 }
    ensures { IfOk result (λ frame. IsFramed frame.items) }
{
    let mut frame = Vec::from_slice(alloc, &(payload.len() as u32).to_be_bytes())?;
    frame.extend_from_slice(payload)?;
    frame.push(0)?;
    Ok(frame)
}

#[derive(Drop)]
struct Repository {
    disk: MemDisk,
    journal: Journal,
}

pub(crate) fn failing(
    alloc: Global,
    fails: Option<(CallKind, u64)>,
) -> Result<Vec<(CallKind, u64)>, AllocError> {
    let mut calls = Vec::new(alloc);
    if let Some(call) = fails {
        calls.push(call)?;
    }
    Ok(calls)
}

pub(crate) fn fresh_disk(
    alloc: Global,
    failing: Vec<(CallKind, u64)>,
) -> Result<MemDisk, AllocError> {
    MemDisk::holding(alloc, FRESH, 64, failing)
}

// A new repository of capacity 65,536, one of whose calls may be to fail.
fn new_repository(alloc: Global, fails: Option<(CallKind, u64)>) -> Result<Repository, AllocError> {
    let failing = failing(alloc, fails)?;
    let disk = fresh_disk(alloc, failing)?;
    let journal = Journal::new(alloc, 65_536, 17, AT_START);
    Ok(Repository { disk, journal })
}

fn empty_disk(alloc: Global, room: u64) -> Result<MemDisk, AllocError> {
    MemDisk::new(alloc, room, Vec::new(alloc))
}

fn make_file<D: Disk>(disk: &mut D, capacity: u64) -> Result<(), Fail>
    requires { IsTrue (is_header (record { capacity = capacity; version = Second })) }
{
    Ok(init(disk, capacity)?)
}

// The least capacity, 4,096 bytes.
fn small(alloc: Global) -> Result<Repository, Fail> {
    let mut disk = empty_disk(alloc, 8_192)?;
    make_file(&mut disk, 4_096)?;
    let journal = Journal::new(alloc, 4_096, 17, AT_START);
    Ok(Repository { disk, journal })
}

fn append_to<D: Disk>(disk: &mut D, journal: &mut Journal, frame: &[u8]) -> Result<(), AppendFault>
    requires framed { IsFramed frame.now }
    requires whole { is_some journal.old.left ≡ false }
    requires long { IsLong (D.meaning disk.old).reads journal.old.size }
{
    journal.append(disk, frame)
}

fn append_frame(rt: &impl Abort, repo: &mut Repository, frame: &[u8]) -> Result<(), AppendFault>
    requires { IsFramed frame.now }
{
    assert!(rt; repo.disk.bytes().len() as u64 >= repo.journal.size());
    assert!(rt; repo.journal.left().is_none());
    append_to(&mut repo.disk, &mut repo.journal, frame)
}

fn append(
    rt: &(impl Abort + Alloc<A = Global>),
    repo: &mut Repository,
    payload: &[u8],
) -> Result<Result<(), AppendFault>, AllocError> {
    assert!(rt; payload.len() < 5_000);
    let frame = frame_of(rt.alloc(), payload)?;
    Ok(append_frame(rt, repo, &frame))
}

// The bytes at a place.
fn read<const N: usize>(rt: &impl Abort, repo: &mut Repository, at: u64) -> Option<[u8; N]> {
    assert!(rt; N <= 64);
    assert!(rt; repo.disk.bytes().len() as u64 >= repo.journal.size());
    assert!(rt; at < 64 && repo.journal.size() >= at + N as u64);
    let mut buf = [0; N];
    repo.journal.read(&mut repo.disk, at, &mut buf).ok()?;
    Some(buf)
}

fn write_at(rt: &impl Abort, disk: &mut MemDisk, at: u64, bytes: &[u8]) {
    assert!(rt; disk.bytes().len() as u64 >= at);
    assert!(rt; disk.write_at(at, bytes).is_ok());
}

// The calls of an append, as far as they come.
fn calls_of_append(rt: &impl Abort, disk: &mut MemDisk, frame: &[u8], calls: u32) {
    write_at(rt, disk, 17, frame);
    if calls > 1 {
        assert!(rt; disk.sync().is_ok());
    }
    if calls > 2 {
        write_at(rt, disk, 16, &[1]);
    }
    if calls > 3 {
        assert!(rt; disk.sync().is_ok());
    }
}

// What reads give, or a crash leaves that fills with this byte what isn't stable.
pub(crate) const FILLS: [Option<u8>; 4] = [None, Some(0x00), Some(0x01), Some(0x58)];

pub(crate) fn left(disk: MemDisk, fill: Option<u8>) -> MemDisk {
    match fill {
        Some(fill) => disk.crash(fill),
        None => disk,
    }
}

// `+` where the file has all that was appended, whose gate is open, and `-` where it has no record. Else it is no journal.
pub(crate) fn mark_of(disk: &MemDisk, whole: &[u8]) -> char {
    let file = disk.bytes();
    if file.starts_with(whole) {
        return '+';
    }
    if file.starts_with(HEADER) && file.len() > 16 && file[16] != 1 {
        return '-';
    }
    '?'
}

fn init_in(alloc: Global) -> Result<MemDisk, Fail> {
    let mut disk = empty_disk(alloc, 64)?;
    make_file(&mut disk, 65_536)?;
    Ok(disk)
}

fn init_again(alloc: Global, disk: &mut MemDisk) -> Result<String, Fail> {
    let again = init(disk, 65_536);
    Ok(format!(in alloc; "{again:?}")?)
}

#[test]
fn a_new_file_has_its_header(rt: HostRuntime) -> Result<(), Fail> {
    for fill in FILLS {
        let disk = init_in(rt.alloc())?;
        assert_eq!(rt; left(disk, fill).bytes(), FRESH);
    }
    let mut disk = init_in(rt.alloc())?;
    let again = init_again(rt.alloc(), &mut disk)?;
    same(&rt, again.as_str(), "Err(Exists { size: 17 })", "again");
    Ok(())
}

// Whether the file has the record, by fills, where an append of `abc` comes so far.
fn stopped_after(
    rt: &(impl Abort + Alloc<A = Global>),
    frame: &[u8],
    calls: u32,
) -> Result<String, AllocError> {
    let mut told = String::new(rt.alloc());
    for fill in FILLS {
        let mut disk = new_repository(rt.alloc(), None)?.disk;
        calls_of_append(rt, &mut disk, frame, calls);
        told.push(mark_of(&left(disk, fill), WITH_ABC))?;
    }
    Ok(told)
}

// How far an append of `abc` comes before the disk stops, by calls of the disk: whether the file
// has the record as it reads, and after a crash with each fill.
#[test]
fn a_crash_leaves_the_records_before_or_after(rt: HostRuntime) -> Result<(), Fail> {
    let frame = frame_of(rt.alloc(), b"Babc")?;
    // after the write of the record, its sync, the write of the gate, its sync
    for (calls, wanted) in [(1, "----"), (2, "----"), (3, "+-+-"), (4, "++++")] {
        let told = stopped_after(&rt, &frame, calls)?;
        same(&rt, told.as_str(), wanted, "calls that were made");
    }
    Ok(())
}

// The answer to an append, and the sizes of the journal and of the file then.
fn appended(
    rt: &(impl Abort + Alloc<A = Global>),
    repo: &mut Repository,
    payload: &[u8],
) -> Result<String, Fail> {
    let answer = append(rt, repo, payload)?;
    let (size, length) = (repo.journal.size(), repo.disk.bytes().len());
    Ok(format!(in rt.alloc(); "{answer:?} {size} {length}")?)
}

fn check_disk(rt: &impl Abort, disk: &MemDisk) {
    assert_eq!(rt; disk.bytes(), WITH_ABC);
    assert_eq!(rt; disk.calls(CallKind::Write), 2);
    assert_eq!(rt; disk.calls(CallKind::Sync), 2);
}

fn check_content(rt: &impl Abort, repo: &mut Repository) {
    assert_eq!(rt; read(rt, repo, 22), Some(*b"abc"));
}

fn check_journal(rt: &impl Abort, journal: &Journal) {
    assert_eq!(rt; journal.capacity(), 65_536);
    assert_eq!(rt; journal.opening(), AT_START);
}

#[test]
fn an_append_makes_four_calls(rt: HostRuntime) -> Result<(), Fail> {
    let mut repo = new_repository(rt.alloc(), None)?;
    let told = appended(&rt, &mut repo, b"Babc")?;
    same(&rt, told.as_str(), "Ok(()) 26 26", "an append");
    check_disk(&rt, &repo.disk);
    check_journal(&rt, &repo.journal);
    check_content(&rt, &mut repo);
    Ok(())
}

// The places and lengths of the payloads.
fn records(rt: &(impl Abort + Alloc<A = Global>), repo: &mut Repository) -> Result<String, Fail> {
    assert!(rt; repo.disk.bytes().len() as u64 >= repo.journal.size());
    let spans = repo.journal.records(rt.alloc(), &mut repo.disk)?;
    let mut told = String::new(rt.alloc());
    for span in &spans {
        write!(&mut told, " {} {}", span.at, span.length)?;
    }
    Ok(told)
}

fn append_all(
    rt: &(impl Abort + Alloc<A = Global>),
    repo: &mut Repository,
) -> Result<(), AllocError> {
    for payload in ["Babc", "B", "Bde"] {
        let answer = append(rt, repo, payload.as_bytes())?;
        assert!(rt; answer.is_ok());
    }
    Ok(())
}

fn listed(rt: &(impl Abort + Alloc<A = Global>)) -> Result<String, Fail> {
    let mut repo = new_repository(rt.alloc(), None)?;
    append_all(rt, &mut repo)?;
    records(rt, &mut repo)
}

#[test]
fn records_are_listed_in_order(rt: HostRuntime) -> Result<(), Fail> {
    let told = listed(&rt)?;
    same(&rt, told.as_str(), " 21 4 30 1 36 3", "places and lengths");
    Ok(())
}

// What is told of an append of which one call fails. The journal is broken then, and read as before.
fn broken(
    rt: &(impl Abort + Alloc<A = Global>),
    fails: (CallKind, u64),
    cut: Cut,
) -> Result<Repository, Fail> {
    let mut repo = new_repository(rt.alloc(), Some(fails))?;
    let told = appended(rt, &mut repo, b"Babc")?;
    assert!(rt; told.as_str().starts_with("Err(DiskFault) 17 "));
    check_broken(rt, &repo, cut);
    assert_eq!(rt; read(rt, &mut repo, 0), Some(*b"BONSAI\x00\x02"));
    Ok(repo)
}

fn check_broken(rt: &impl Abort, repo: &Repository, cut: Cut) {
    assert!(rt; repo.journal.is_broken());
    assert_eq!(rt; repo.journal.broken(), Some(cut));
    assert_eq!(rt; repo.disk.faults(), 1);
}

// Whether the file has the record, by fills, where this call of an append of `abc` fails.
fn failed_at(
    rt: &(impl Abort + Alloc<A = Global>),
    fails: (CallKind, u64),
    cut: Cut,
) -> Result<String, Fail> {
    let mut told = String::new(rt.alloc());
    for fill in FILLS {
        let repo = broken(rt, fails, cut)?;
        told.push(mark_of(&left(repo.disk, fill), WITH_ABC))?;
    }
    Ok(told)
}

// Each of the four calls fails once, and it is known which. Behind it a crash leaves the records before, or where the gate
// may have been written, those or the new one.
#[test]
fn a_fault_breaks_the_journal(rt: HostRuntime) -> Result<(), Fail> {
    for (fails, cut, wanted) in [
        ((CallKind::Write, 0), Cut::Write, "----"),
        ((CallKind::Sync, 0), Cut::Sync, "----"),
        ((CallKind::Write, 1), Cut::Open, "--+-"),
        ((CallKind::Sync, 1), Cut::Seal, "+-+-"),
    ] {
        let told = failed_at(&rt, fails, cut)?;
        same(&rt, told.as_str(), wanted, "a call that failed");
    }
    Ok(())
}

// It is filled to its last byte, and passed by one.
#[test]
fn a_record_fits_or_not(rt: HostRuntime) -> Result<(), Fail> {
    for (len, wanted) in [
        (4_074, "Ok(()) 4096 4096"),
        (4_075, "Err(Full { size: 17, length: 4075 }) 17 17"),
    ] {
        let payload = vec![in rt.alloc(); 0x42; len]?;
        let mut repo = small(rt.alloc())?;
        let told = appended(&rt, &mut repo, &payload)?;
        same(&rt, told.as_str(), wanted, "to the last byte");
    }
    Ok(())
}

// A record more that waits.
pub(crate) fn hold(journal: &mut Journal, frame: &[u8]) -> Result<(), AllocError>
    ensures same { journal.new ≡ record journal.old { pending = journal.new.pending } }
    ensures bytes { OnOk result (journal.new.pending.bytes ≡ grown journal.old.pending.bytes frame.now) }
{
    journal.reserve(frame.len())?;
    journal.hold(frame);
    Ok(())
}

// A journal of a new file of capacity 65,536, in which two records wait.
fn holding(alloc: Global, first: &[u8], second: &[u8]) -> Result<Journal, AllocError>
    requires first { IsFramed first.now }
    requires second { IsFramed second.now }
    ensures size { IfOk result (λ journal. journal.size ≡ 17) }
    ensures capacity { IfOk result (λ journal. journal.capacity ≡ 65_536) }
    ensures whole { IfOk result (λ journal. is_some journal.left ≡ false) }
    ensures group { IfOk result (λ journal. IsGroup journal.pending.bytes) }
    ensures len { IfOk result (λ journal. length journal.pending.bytes ≡ length first.now + length second.now) }
{
    let mut journal = Journal::new(alloc, 65_536, 17, AT_START);
    hold(&mut journal, first)?;
    hold(&mut journal, second)?;
    Ok(journal)
}

pub(crate) fn seal_in<D: Disk>(disk: &mut D, journal: &mut Journal) -> Result<(), DiskFault>
    requires whole { is_some journal.old.left ≡ false }
    requires group { IsGroup journal.old.pending.bytes }
    requires fits { journal.old.size + length journal.old.pending.bytes ≤ journal.old.capacity }
    requires long { IsLong (D.meaning disk.old).reads journal.old.size }
{
    journal.seal(disk)
}

// Seals both, on a new file one of whose calls may be to fail: the answer.
fn seal_frames(
    rt: &(impl Abort + Alloc<A = Global>),
    disk: &mut MemDisk,
    first: &[u8],
    second: &[u8],
) -> Result<String, AllocError>
    requires first { IsFramed first.now }
    requires second { IsFramed second.now }
{
    let mut journal = holding(rt.alloc(), first, second)?;
    assert!(rt; first.len() < 5_000 && second.len() < 5_000);
    assert!(rt; disk.bytes().len() >= 17);
    let answer = seal_in(disk, &mut journal);
    format!(in rt.alloc(); "{answer:?} {}", journal.size())
}

fn seal_both(
    rt: &(impl Abort + Alloc<A = Global>),
    disk: &mut MemDisk,
) -> Result<String, AllocError> {
    let first = frame_of(rt.alloc(), b"Babc")?;
    let second = frame_of(rt.alloc(), b"Bde")?;
    seal_frames(rt, disk, &first, &second)
}

fn check_sealed(rt: &impl Abort, disk: &MemDisk) {
    assert_eq!(rt; disk.bytes(), WITH_BOTH);
    assert_eq!(rt; disk.calls(CallKind::Write), 2);
    assert_eq!(rt; disk.calls(CallKind::Sync), 2);
}

#[test]
fn two_records_are_sealed_with_two_syncs(rt: HostRuntime) -> Result<(), Fail> {
    let mut disk = new_repository(rt.alloc(), None)?.disk;
    let told = seal_both(&rt, &mut disk)?;
    same(&rt, told.as_str(), "Ok(()) 34", "two that waited");
    check_sealed(&rt, &disk);
    Ok(())
}

// Whether the file has both, by fills, where this call of their sealing fails.
fn unsealed_at(
    rt: &(impl Abort + Alloc<A = Global>),
    fails: (CallKind, u64),
) -> Result<String, AllocError> {
    let mut told = String::new(rt.alloc());
    for fill in FILLS {
        let mut disk = new_repository(rt.alloc(), Some(fails))?.disk;
        let answer = seal_both(rt, &mut disk)?;
        same(
            rt,
            answer.as_str(),
            "Err(DiskFault) 17",
            "a seal that failed",
        );
        told.push(mark_of(&left(disk, fill), WITH_BOTH))?;
    }
    Ok(told)
}

// Each of the four calls fails once: the file has both records or none.
#[test]
fn a_failed_seal_leaves_all_or_none(rt: HostRuntime) -> Result<(), Fail> {
    for (fails, wanted) in [
        ((CallKind::Write, 0), "----"),
        ((CallKind::Sync, 0), "----"),
        ((CallKind::Write, 1), "--+-"),
        ((CallKind::Sync, 1), "+-+-"),
    ] {
        let told = unsealed_at(&rt, fails)?;
        same(&rt, told.as_str(), wanted, "a call that failed");
    }
    Ok(())
}
