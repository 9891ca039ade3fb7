//! A seal in three steps, with a record held behind the group.
ghost use Rattle.std.specs.Prelude.{◌≡◌, ◌+◌, ◌≤◌, ◌<◌, false, is_some, length, IfOk, OnOk};
ghost use Rattle.disk_model.specs.Meaning.{IsLong};
ghost use Rattle.repo_journal.specs.Groups.{IsGroup};
ghost use Rattle.repo_journal.specs.Sealing.{IsFramed};

use crate::journals::{
    AT_START, FILLS, WITH_ABC, WITH_BOTH, failing, frame_of, fresh_disk, hold, left, mark_of,
    seal_in,
};
use crate::rows::same;
use blob_disk::{CallKind, Disk, Flush, MemDisk};
use repo_journal::{DiskFault, Journal};
use std::alloc::{AllocError, Global};
use std::process::Abort;
use std::test::Fail;

// How many steps a whole seal has.
const ALL: u32 = 3;

// A journal of a new file of capacity 65,536, in which a record waits, with room for one more.
fn holding_one(alloc: Global, frame: &[u8]) -> Result<Journal, AllocError>
    requires { IsFramed frame.now }
    ensures size { IfOk result (λ journal. journal.size ≡ 17) }
    ensures capacity { IfOk result (λ journal. journal.capacity ≡ 65_536) }
    ensures whole { IfOk result (λ journal. is_some journal.left ≡ false) }
    ensures bytes { IfOk result (λ journal. journal.pending.bytes ≡ frame.now) }
    ensures group { IfOk result (λ journal. IsGroup journal.pending.bytes) }
    ensures room { IfOk result (λ journal. 64 ≤ journal.pending.room) }
{
    let mut journal = Journal::new(alloc, 65_536, 17, AT_START);
    hold(&mut journal, frame)?;
    journal.reserve(64)?;
    Ok(journal)
}

// So many steps of a seal of what waits. The frame is held behind the first of them.
fn seal_apart<D: Disk>(
    disk: &mut D,
    journal: &mut Journal,
    behind: &[u8],
    steps: u32,
) -> Result<(), DiskFault>
    requires whole { is_some journal.old.left ≡ false }
    requires group { IsGroup journal.old.pending.bytes }
    requires fits { journal.old.size + length journal.old.pending.bytes ≤ journal.old.capacity }
    requires long { IsLong (D.meaning disk.old).reads journal.old.size }
    requires framed { IsFramed behind.now }
    requires room { length behind.now ≤ journal.old.pending.room }
    ensures whole { OnOk result (2 < steps → is_some journal.new.left ≡ false) }
    ensures waits { OnOk result (2 < steps → journal.new.pending.bytes ≡ behind.now) }
    ensures size { OnOk result (2 < steps → journal.new.size ≡ journal.old.size + length journal.old.pending.bytes) }
    ensures capacity { OnOk result (journal.new.capacity ≡ journal.old.capacity) }
{
    let mut written = journal.begin(disk)?;
    journal.hold(behind);
    if steps < 2 {
        return Ok(());
    }
    written.run();
    let mut opened = journal.open(disk, written)?;
    if steps < ALL {
        return Ok(());
    }
    opened.run();
    journal.close(disk, opened)
}

// What came of so many steps, on a file one of whose calls may be to fail.
fn came_of(
    rt: &(impl Abort + Alloc<A = Global>),
    disk: &mut MemDisk,
    frames: (&[u8], &[u8]),
    steps: u32,
) -> Result<String, AllocError>
    requires first { IsFramed frames.0.now }
    requires second { IsFramed frames.1.now }
{
    let (first, second) = frames;
    let mut journal = holding_one(rt.alloc(), first)?;
    assert!(rt; first.len() < 5_000 && second.len() < 64 && disk.bytes().len() >= 17);
    let answer = seal_apart(disk, &mut journal, second, steps);
    format!(in rt.alloc(); "{answer:?} {} {:?}", journal.size(), journal.left())
}

// The answer, and whether the file has the group, by fills. It never has more.
fn stopped_at(
    rt: &(impl Abort + Alloc<A = Global>),
    fails: Option<(CallKind, u64)>,
    steps: u32,
) -> Result<String, AllocError> {
    let first = frame_of(rt.alloc(), b"Babc")?;
    let second = frame_of(rt.alloc(), b"Bde")?;
    let mut told = String::new(rt.alloc());
    for fill in FILLS {
        let failing = failing(rt.alloc(), fails)?;
        let mut disk = fresh_disk(rt.alloc(), failing)?;
        let answer = came_of(rt, &mut disk, (&first, &second), steps)?;
        if told.is_empty() {
            told.push_str(answer.as_str())?;
            told.push(' ')?;
        }
        let disk = left(disk, fill);
        assert!(rt; disk.bytes().len() <= WITH_ABC.len());
        told.push(mark_of(&disk, WITH_ABC))?;
    }
    Ok(told)
}

// Between two steps a crash leaves the group or nothing of it, and nothing that was held behind it.
#[test]
fn a_crash_between_two_steps_leaves_the_group_or_nothing(rt: HostRuntime) -> Result<(), Fail> {
    for (steps, wanted) in [
        (1, "Ok(()) 17 Some(Left { length: 9, at: Laid }) ----"),
        (2, "Ok(()) 17 Some(Left { length: 9, at: Opened }) +-+-"),
        (3, "Ok(()) 26 None ++++"),
    ] {
        let told = stopped_at(&rt, None, steps)?;
        same(&rt, told.as_str(), wanted, "steps of a seal");
    }
    Ok(())
}

// Each of the four calls fails once, and it is known which.
#[test]
fn a_step_that_failed_leaves_the_group_or_nothing(rt: HostRuntime) -> Result<(), Fail> {
    for (fails, wanted) in [
        ((CallKind::Write, 0), "Cut(Write) }) ----"),
        ((CallKind::Sync, 0), "Cut(Sync) }) ----"),
        ((CallKind::Write, 1), "Cut(Open) }) --+-"),
        ((CallKind::Sync, 1), "Cut(Seal) }) +-+-"),
    ] {
        let told = stopped_at(&rt, Some(fails), ALL)?;
        let front = "Err(DiskFault) 17 Some(Left { length: 9, at: ";
        same(
            &rt,
            told.as_str()
                .strip_prefix(front)
                .unwrap_or("another answer"),
            wanted,
            "a call that failed",
        );
    }
    Ok(())
}

// What was held behind a group is sealed behind it.
fn seal_both(
    rt: &(impl Abort + Alloc<A = Global>),
    disk: &mut MemDisk,
    first: &[u8],
    second: &[u8],
) -> Result<String, AllocError>
    requires first { IsFramed first.now }
    requires second { IsFramed second.now }
{
    let mut journal = holding_one(rt.alloc(), first)?;
    assert!(rt; first.len() < 5_000 && second.len() < 64 && disk.bytes().len() >= 17);
    if seal_apart(disk, &mut journal, second, ALL).is_err() {
        return format!(in rt.alloc(); "the group wasn't sealed");
    }
    assert!(rt; disk.bytes().len() as u64 >= journal.size());
    let answer = seal_in(disk, &mut journal);
    format!(in rt.alloc(); "{answer:?} {}", journal.size())
}

#[test]
fn what_was_held_behind_a_group_is_sealed_next(rt: HostRuntime) -> Result<(), Fail> {
    let first = frame_of(rt.alloc(), b"Babc")?;
    let second = frame_of(rt.alloc(), b"Bde")?;
    let mut disk = fresh_disk(rt.alloc(), Vec::new(rt.alloc()))?;
    let told = seal_both(&rt, &mut disk, &first, &second)?;
    same(&rt, told.as_str(), "Ok(()) 34", "two groups");
    assert_eq!(rt; disk.bytes(), WITH_BOTH);
    assert_eq!(rt; disk.calls(CallKind::Sync), 4);
    Ok(())
}
