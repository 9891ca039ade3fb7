//! What one seat does and another is told then.
ghost use Rattle.std.specs.Prelude.{◌≡◌};
ghost use Rattle.bookmark_lock.specs.Place.{moved};
ghost use Rattle.repo_state.specs.State.{IsAllSealed};

use crate::looks::tell;
use crate::repository::new_repository;
use crate::steps::run_at;
use blob_disk::Disk;
use object_id::Id;
use repo_calls::{AskFault, Question, Seen};
use repo_state::RepoState;
use shared_repo::{Repo, RepoSeat};
use std::alloc::{AllocError, Global};
use std::process::Abort;
use std::sync::Wait;
use std::test::Fail;

// One seat does the steps of one script, and another one those of a second.
fn run_both<R: Abort + Wait, D: Disk>(
    rt: &R,
    alloc: Global,
    state: RepoState<D>,
    first: &str,
    second: &str,
) -> Result<(), Fail>
    requires sealed { IsAllSealed state.history state.sealed }
{
    let Ok((repo, mut lead)) = Repo::new(alloc, state) else {
        return Err(Fail::from(AllocError));
    };
    let one = repo.split(&mut lead);
    run_at(rt, alloc, &repo, one, first)?;
    run_at(rt, alloc, &repo, lead, second)
}

// Stores a content.
fn put<R: Wait, D: Disk>(rt: &R, alloc: Global, repo: &Repo<D>, seat: &mut RepoSeat, bytes: &[u8])
    requires place { seat.old.lock ≡ repo.now }
    ensures seat { seat.new ≡ moved seat.old seat.new }
{
    let _stored = repo.put_content(rt, alloc, seat, bytes);
}

fn total_of(answer: Result<Seen, AskFault>) -> Result<u64, Fail> {
    match answer? {
        Seen::Log(page) => Ok(page.total),
        _ => Err(Fail::from("a page of the log")),
    }
}

// Stores a content, and tells how many entries the log has then.
fn put_and_count<R: Wait, D: Disk>(
    rt: &R,
    alloc: Global,
    repo: &Repo<D>,
    seat: &mut RepoSeat,
    bytes: &[u8],
) -> Result<u64, Fail>
    requires place { seat.old.lock ≡ repo.now }
    ensures seat { seat.new ≡ moved seat.old seat.new }
{
    put(rt, alloc, repo, seat, bytes);
    total_of(repo.log(rt, alloc, seat, 0))
}

fn is_content(answer: Result<Seen, AskFault>, bytes: &[u8]) -> bool {
    match answer {
        Ok(Seen::Bytes(found)) => found.as_slice() == bytes,
        _ => false,
    }
}

// How many entries the log has, where a content is read.
fn read_and_count<R: Wait, D: Disk>(
    rt: &R,
    alloc: Global,
    repo: &Repo<D>,
    seat: &mut RepoSeat,
    bytes: &[u8],
) -> Result<u64, Fail>
    requires place { seat.old.lock ≡ repo.now }
    ensures seat { seat.new ≡ moved seat.old seat.new }
{
    let read = repo.content(rt, alloc, seat, Id::of(bytes));
    if !is_content(read, bytes) {
        return Err(Fail::from("a content"));
    }
    total_of(repo.log(rt, alloc, seat, 0))
}

// How many entries the lead sees after an entry of its own, a seat that is split off then sees with the content, and then
// after an entry of its own, and the lead once it has joined the other, and the repository that is closed then.
fn run_split<R: Wait, D: Disk>(
    rt: &R,
    alloc: Global,
    state: RepoState<D>,
) -> Result<([u64; 4], RepoState<D>), Fail>
    requires sealed { IsAllSealed state.history state.sealed }
{
    let Ok((repo, mut lead)) = Repo::new(alloc, state) else {
        return Err(Fail::from(AllocError));
    };
    let first = put_and_count(rt, alloc, &repo, &mut lead, b"abc")?;
    let mut other = repo.split(&mut lead);
    let read = read_and_count(rt, alloc, &repo, &mut other, b"abc")?;
    let second = put_and_count(rt, alloc, &repo, &mut other, b"")?;
    repo.join(&mut lead, other);
    let joined = total_of(repo.log(rt, alloc, &mut lead, 0))?;
    Ok(([first, read, second, joined], repo.close(lead)))
}

// What a repository that is served alone tells of its log.
fn log_of<D: Disk>(alloc: Global, state: RepoState<D>) -> Result<String, Fail> {
    let mut state = state;
    tell(alloc, state.look(alloc, 0, &Question::Log(0)))
}

// The sync that ends the first seal fails. Reads go on, and see the entry that couldn't be sealed.
const FAILED: &str = "\
content abc = DiskFault
content abc = Refused(Down)
total = 1";

const DOWN: &str = "\
content  = Refused(Down)
total = 1";

#[test]
fn a_sync_that_fails_for_one_seat_ends_the_changes_of_all(rt: HostRuntime) -> Result<(), Fail> {
    let alloc = rt.alloc();
    run_both(&rt, alloc, new_repository(alloc, &[4])?, FAILED, DOWN)
}

// The ids are SHA-256 (FIPS 180-4) of `abc` and of nothing.
const CLOSED: &str =
    "2, content ba7816bf8f01cfea414140de5dae2223b00361a396177a9cb410ff61f20015ad 3, content e3b0c44298fc1c149afbf4c8996fb92427ae41e4649b934ca495991b7852b855 0";

#[test]
fn a_new_seat_sees_what_the_lead_has_seen(rt: HostRuntime) -> Result<(), Fail> {
    let alloc = rt.alloc();
    let (counts, state) = run_split(&rt, alloc, new_repository(alloc, &[])?)?;
    assert_eq!(rt; counts, [1, 1, 2, 2]);
    assert_eq!(rt; log_of(alloc, state)?.as_str(), CLOSED);
    Ok(())
}
