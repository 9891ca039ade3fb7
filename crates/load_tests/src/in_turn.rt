//! Clients that land one after another on one repository, by one thread.
ghost use Rattle.std.specs.Prelude.{◌≡◌, ◌+◌, ◌≤◌, ◌^◌};
ghost use Rattle.repo_state.specs.State.{IsAllSealed, IsQuiet};

use blob_disk::Disk;
use object_id::Id;
use ports::{NoGate, ZeroBytes};
use repo_calls::{Ask, Question, Seat, Seen};
use repo_path::BookName;
use repo_state::RepoState;
use run_gen::begin::begin;
use run_gen::{LoadFault, client};
use shared_repo::{Repo, RepoSeat, Served};
use std::alloc::{AllocError, Global};
use std::hash::RandomState;
use std::sync::Wait;
use std::test::Fail;

/// A changeset on the base that sets the file `client0` to the content `abc`, and its id.
const BLOCKING: &str =
    "430101ffb74880ae0d3038b6e6e402ea0840634c79efb3c927e280d44f36567ece716900016100000000000000000000000000000000000000010007636c69656e743001000000000000000003ba7816bf8f01cfea414140de5dae2223b00361a396177a9cb410ff61f20015ad";

const BLOCKING_ID: &str = "6ab70a88d5ccb223cabe6bdd6670ab0f35858d8825d70acb53fd3b1079066f6b";

/// The root that 3 clients leave who land 5 stacks each from the seed 7.
const ROOT: &str = "20e3a14309461bb6ca5ad46b5f02970b97c8eab91ae9e164b6eb2a3c065ac077";

// So many clients land 5 stacks each from the seed 7.
fn land_in_turn<R: Wait, D: Disk>(
    rt: &R,
    alloc: Global,
    repo: &Repo<D>,
    lead: &mut RepoSeat,
    clients: u64,
) -> Result<(), LoadFault>
    requires place { lead.old.lock ≡ repo.now }
    requires leads { lead.old.number ≡ 0 }
    requires room { lead.old.split + clients ≤ 2 ^ 63 }
    requires clients { clients ≤ 8 }
    requires quiet { IsQuiet repo.now.opening }
    ensures place { lead.new.lock ≡ repo.now }
{
    for number in 0..clients {
        let mut seat = repo.split(lead);
        client(rt, alloc, repo, &mut seat, number, 7, 5)?;
    }
    Ok(())
}

// The head of `main`.
fn head<S: Seat>(alloc: Global, seat: &mut S) -> Result<Id, Fail> {
    let main = BookName::parse(alloc, "main")?;
    match seat.look(alloc, &Question::Head(&main))? {
        Seen::Head(Some(head)) => Ok(head),
        _ => Err(Fail::from("a head")),
    }
}

// The id of the root fsnode at the head of `main`.
fn root<S: Seat>(alloc: Global, seat: &mut S) -> Result<Id, Fail> {
    let head = head(alloc, seat)?;
    match seat.look(alloc, &Question::Fsnode(head, None))? {
        Seen::Bytes(node) => Ok(Id::of(node.as_slice())),
        _ => Err(Fail::from("a node")),
    }
}

// How many entries the log has.
fn total<S: Seat>(alloc: Global, seat: &mut S) -> Result<u64, Fail> {
    match seat.look(alloc, &Question::Log(0))? {
        Seen::Log(page) => Ok(page.total),
        _ => Err(Fail::from("a page of the log")),
    }
}

fn keys() -> Result<RandomState, Fail> {
    Ok(RandomState::new(&ZeroBytes)?)
}

// What the lead reads: how many entries there are, and the root.
fn read_at<R: Wait, D: Disk>(
    rt: &R,
    alloc: Global,
    repo: &Repo<D>,
    lead: RepoSeat,
) -> Result<(u64, Id), Fail>
    requires place { lead.lock ≡ repo.now }
{
    let mut seat = Served::new(rt, repo, lead, &NoGate);
    Ok((total(alloc, &mut seat)?, root(alloc, &mut seat)?))
}

// What 3 clients leave in a repository.
fn left_in<R: Wait, D: Disk>(rt: &R, alloc: Global, state: RepoState<D>) -> Result<(u64, Id), Fail>
    requires sealed { IsAllSealed state.history state.sealed }
    requires quiet { IsQuiet state.opening }
{
    let Ok((repo, mut lead)) = Repo::new(alloc, state) else {
        return Err(Fail::from(AllocError));
    };
    land_in_turn(rt, alloc, &repo, &mut lead, 3)?;
    read_at(rt, alloc, &repo, lead)
}

// What 3 clients leave.
fn left<R: Wait>(rt: &R, alloc: Global) -> Result<(u64, Id), Fail> {
    let keys = keys()?;
    left_in(rt, alloc, begin(alloc, keys)?)
}

fn land<S: Seat>(alloc: Global, seat: &mut S) -> Result<(), Fail> {
    let caller = &BookName::parse(alloc, "ann")?;
    let name = &BookName::parse(alloc, "main")?;
    let draft = Id::from_hex(BLOCKING_ID)?;
    let moment = 0;
    seat.change(
        alloc,
        &Ask::Land {
            caller,
            name,
            draft,
            moment,
        },
    )?;
    Ok(())
}

// Lands the file `client0`.
fn land_blocking<S: Seat>(alloc: Global, seat: &mut S) -> Result<(), Fail> {
    let encoding = hex::decode(alloc, BLOCKING)?;
    seat.change(alloc, &Ask::PutContent(b"abc"))?;
    seat.change(alloc, &Ask::PutChangeset(encoding.as_slice()))?;
    land(alloc, seat)
}

// This seat lands the file `client0`.
fn block<R: Wait, D: Disk>(
    rt: &R,
    alloc: Global,
    repo: &Repo<D>,
    seat: RepoSeat,
) -> Result<(), Fail>
    requires place { seat.lock ≡ repo.now }
{
    let mut other = Served::new(rt, repo, seat, &NoGate);
    land_blocking(alloc, &mut other)
}

// What becomes of client 0 in a repository where another seat has landed the file `client0`.
fn blocked_in<R: Wait, D: Disk>(
    rt: &R,
    alloc: Global,
    state: RepoState<D>,
) -> Result<Result<(), LoadFault>, Fail>
    requires sealed { IsAllSealed state.history state.sealed }
    requires quiet { IsQuiet state.opening }
{
    let Ok((repo, mut lead)) = Repo::new(alloc, state) else {
        return Err(Fail::from(AllocError));
    };
    block(rt, alloc, &repo, repo.split(&mut lead))?;
    Ok(land_in_turn(rt, alloc, &repo, &mut lead, 1))
}

// What becomes of it in a new one.
fn blocked<R: Wait>(rt: &R, alloc: Global) -> Result<Result<(), LoadFault>, Fail> {
    let keys = keys()?;
    blocked_in(rt, alloc, begin(alloc, keys)?)
}

#[test]
fn clients_in_turn_leave_what_they_leave_at_once(rt: HostRuntime) -> Result<(), Fail> {
    let left = left(&rt, rt.alloc())?;
    assert_eq!(rt; left, (74, Id::from_hex(ROOT)?));
    Ok(())
}

#[test]
fn a_client_whose_directory_is_a_file_is_refused(rt: HostRuntime) -> Result<(), Fail> {
    let came = blocked(&rt, rt.alloc())?;
    assert_eq!(rt; came, Err(LoadFault::Refused));
    Ok(())
}
