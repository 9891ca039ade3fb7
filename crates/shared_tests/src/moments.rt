//! A session whose landing takes a hundred attempts, over a clock that counts its readings. The ids are those of an
//! independent computation.
ghost use Rattle.std.specs.Prelude.{◌≡◌};
ghost use Rattle.repo_state.specs.State.{IsAllSealed};

use crate::gates::Moves;
use crate::landings::{CHANGESETS, walker_at};
use crate::repository::new_repository;
use crate::steps::run_lines;
use crate::ticking::Ticking;
use blob_disk::Disk;
use http_front::ended::Ended;
use http_front::session::serve_session;
use ports::{Clock, Gate, MemLink, NoGate};
use repo_state::RepoState;
use shared_repo::{Repo, RepoSeat, Served};
use stacked_calls::StackSeat;
use std::alloc::{AllocError, Global};
use std::process::Abort;
use std::sync::Wait;
use std::test::Fail;

// A draft of the second version on the root, which sets `y` to the empty content as a copy of `p`.
const DRAFT: &str =
    "changeset 430201ffb74880ae0d3038b6e6e402ea0840634c79efb3c927e280d44f36567ece7169000161000000000000000000000000000000000000000100017901000000000000000000e3b0c44298fc1c149afbf4c8996fb92427ae41e4649b934ca495991b7852b8550100000170 = done";

const REQUESTS: &str = "\
POST /land/main/5967733408862e9ce584c72dda33d3b14bc2577120735cde007bf8f6ca4ee8e0 HTTP/1.1\r\n\r\n\
GET /log/106 HTTP/1.1\r\n\r\n\
GET /copies/7d0b0179a4082e065b447ab79fbbd30541e01e325181cf5cb80845a60e8229cd HTTP/1.1\r\n\r\n\
POST /land/main/5967733408862e9ce584c72dda33d3b14bc2577120735cde007bf8f6ca4ee8e0 HTTP/1.1\r\n\r\n";

// After 99 moves `main` stands at the changeset that sets `x`. The draft lands there at the clock's first reading; at one
// for each attempt its date would be 1099.
const RESPONSES: &str = "\
HTTP/1.1 200 OK\r\nContent-Type: application/json\r\nContent-Length: 239\r\n\r\n\
{\"code\":\"landed\",\"head\":\"7d0b0179a4082e065b447ab79fbbd30541e01e325181cf5cb80845a60e8229cd\",\"ids\":[\"7d0b0179a4082e065b447ab79fbbd30541e01e325181cf5cb80845a60e8229cd\"],\"old\":\"6f0fd4791e9901030b778dc51bebc28effb042f328726c7f1689026f5b9c68c8\"}\
HTTP/1.1 200 OK\r\nContent-Type: application/json\r\nContent-Length: 321\r\n\r\n\
{\"code\":\"log\",\"entries\":[{\"draft\":\"5967733408862e9ce584c72dda33d3b14bc2577120735cde007bf8f6ca4ee8e0\",\"ids\":[\"7d0b0179a4082e065b447ab79fbbd30541e01e325181cf5cb80845a60e8229cd\"],\"kind\":\"landing\",\"moment\":1000,\"name\":\"main\",\"number\":106,\"old\":\"6f0fd4791e9901030b778dc51bebc28effb042f328726c7f1689026f5b9c68c8\"}],\"total\":107}\
HTTP/1.1 200 OK\r\nContent-Type: application/json\r\nContent-Length: 61\r\n\r\n\
{\"code\":\"copies\",\"copies\":[{\"from\":\"p\",\"parent\":0,\"to\":\"y\"}]}\
HTTP/1.1 409 Conflict\r\nContent-Type: application/json\r\nContent-Length: 39\r\n\r\n\
{\"code\":\"clash\",\"left\":\"y\",\"right\":\"y\"}";

fn link_of(alloc: Global, requests: &str) -> Result<MemLink, AllocError> {
    let bytes = Vec::from_slice(alloc, requests.as_bytes())?;
    MemLink::new(alloc, bytes, 4096, 65_536, Vec::new(alloc), Vec::new(alloc))
}

// Serves the requests at a seat.
fn serve<S: StackSeat>(
    rt: &impl Abort,
    alloc: Global,
    seat: &mut S,
    clock: &Ticking,
) -> Result<(), Fail> {
    let mut link = link_of(alloc, REQUESTS)?;
    let end = serve_session(alloc, seat, &mut link, clock);
    assert_eq!(rt; end, Ended::Whole);
    assert_eq!(rt; link.written(), RESPONSES.as_bytes());
    Ok(())
}

// The same at a seat whose landings pass this gate, once the changesets and the draft are stored.
fn serve_through<R: Abort + Wait, D: Disk, G: Gate>(
    rt: &R,
    alloc: Global,
    repo: &Repo<D>,
    seat: RepoSeat,
    gate: &G,
    clock: &Ticking,
) -> Result<(), Fail>
    requires place { seat.lock ≡ repo.now }
{
    let mut seat = Served::new(rt, repo, seat, gate);
    run_lines(rt, alloc, &mut seat, CHANGESETS)?;
    run_lines(rt, alloc, &mut seat, DRAFT)?;
    serve(rt, alloc, &mut seat, clock)
}

// The same while another seat moves `main` at the gate each time, and how often the landings came there.
fn served_between<R: Abort + Wait, D: Disk>(
    rt: &R,
    alloc: Global,
    repo: &Repo<D>,
    seats: (RepoSeat, RepoSeat),
    clock: &Ticking,
) -> Result<u64, Fail>
    requires one { seats.0.lock ≡ repo.now }
    requires other { seats.1.lock ≡ repo.now }
{
    let (one, other) = seats;
    let other = Served::new(rt, repo, other, &NoGate);
    let gate = Moves::new(rt, alloc, walker_at(alloc, other)?, 1);
    serve_through(rt, alloc, repo, one, &gate, clock)?;
    Ok(gate.came())
}

// The same in a repository.
fn served_in<R: Abort + Wait, D: Disk>(
    rt: &R,
    alloc: Global,
    state: RepoState<D>,
    clock: &Ticking,
) -> Result<u64, Fail>
    requires sealed { IsAllSealed state.history state.sealed }
{
    let Ok((repo, mut lead)) = Repo::new(alloc, state) else {
        return Err(Fail::from(AllocError));
    };
    let other = repo.split(&mut lead);
    served_between(rt, alloc, &repo, (lead, other), clock)
}

// The same in a new repository.
fn served<R: Abort + Wait>(rt: &R, alloc: Global, clock: &Ticking) -> Result<u64, Fail> {
    let state = new_repository(alloc, &[])?;
    served_in(rt, alloc, state, clock)
}

// The second landing clashes before it comes to the gate, and reads the clock too.
#[test]
fn a_landing_has_one_moment_in_all_its_attempts(rt: HostRuntime) -> Result<(), Fail> {
    let clock = Ticking::new();
    let came = served(&rt, rt.alloc(), &clock)?;
    assert_eq!(rt; came, 99);
    assert_eq!(rt; clock.now(), 1_002);
    Ok(())
}
