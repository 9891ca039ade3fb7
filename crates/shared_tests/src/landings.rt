//! Landings at whose gate `main` is moved, or a policy is set. The ids are those of an independent computation.
ghost use Rattle.std.specs.Prelude.{◌≡◌};
ghost use Rattle.repo_state.specs.State.{IsAllSealed};

use crate::gates::{Moves, Rules, Walker};
use crate::repository::new_repository;
use crate::steps::{id, main_name, run_lines};
use blob_disk::Disk;
use ports::{Gate, NoGate};
use repo_calls::Seat;
use repo_state::RepoState;
use shared_repo::{Repo, RepoSeat, Served};
use std::alloc::{AllocError, Global};
use std::process::Abort;
use std::sync::Wait;
use std::test::Fail;

/// A changeset without parents and edits, at which `main` stands, and two upon it: one sets `x` to the content `abc`, and
/// one `y` to the empty content.
pub(crate) const CHANGESETS: &str = "\
content abc = done
content  = done
changeset 4301000001610000000000000000000000000000000000000000 = done
changeset 430101ffb74880ae0d3038b6e6e402ea0840634c79efb3c927e280d44f36567ece7169000161000000000000000000000000000000000000000100017801000000000000000003ba7816bf8f01cfea414140de5dae2223b00361a396177a9cb410ff61f20015ad = done
changeset 430101ffb74880ae0d3038b6e6e402ea0840634c79efb3c927e280d44f36567ece7169000161000000000000000000000000000000000000000100017901000000000000000000e3b0c44298fc1c149afbf4c8996fb92427ae41e4649b934ca495991b7852b855 = done
move - ffb74880ae0d3038b6e6e402ea0840634c79efb3c927e280d44f36567ece7169 = done";

const ROOT: &str = "ffb74880ae0d3038b6e6e402ea0840634c79efb3c927e280d44f36567ece7169";

const OTHER: &str = "6f0fd4791e9901030b778dc51bebc28effb042f328726c7f1689026f5b9c68c8";

// Two moves bring `main` back to the root, so that the draft is landed as it is.
const BACK: &str = "\
land 640d00803ffd078abe99687f11f76e3949495f55dd88e999e6458f7adfdf79ac = 1 640d00803ffd078abe99687f11f76e3949495f55dd88e999e6458f7adfdf79ac
log 6 = 9, move main ffb74880ae0d3038b6e6e402ea0840634c79efb3c927e280d44f36567ece7169 6f0fd4791e9901030b778dc51bebc28effb042f328726c7f1689026f5b9c68c8, move main 6f0fd4791e9901030b778dc51bebc28effb042f328726c7f1689026f5b9c68c8 ffb74880ae0d3038b6e6e402ea0840634c79efb3c927e280d44f36567ece7169, land main ffb74880ae0d3038b6e6e402ea0840634c79efb3c927e280d44f36567ece7169 640d00803ffd078abe99687f11f76e3949495f55dd88e999e6458f7adfdf79ac 1 640d00803ffd078abe99687f11f76e3949495f55dd88e999e6458f7adfdf79ac";

// After 99 moves it stands at the other changeset.
const AWAY: &str = "\
land 640d00803ffd078abe99687f11f76e3949495f55dd88e999e6458f7adfdf79ac = 1 66018dae6dcd26aa7f15f755f702edd69b683e14a7531d0ba9293f9127fda14f
total = 106";

/// A walker between the root and the other changeset.
pub(crate) fn walker_at<S: Seat + Drop>(alloc: Global, seat: S) -> Result<Walker<S>, Fail> {
    let main = main_name(alloc)?;
    Ok(Walker::new(seat, main, id(ROOT)?, id(OTHER)?))
}

// Stores the changesets and does the steps of a script, with this gate.
fn run_through<R: Abort + Wait, D: Disk, G: Gate>(
    rt: &R,
    alloc: Global,
    repo: &Repo<D>,
    seat: RepoSeat,
    gate: &G,
    script: &str,
) -> Result<(), Fail>
    requires place { seat.lock ≡ repo.now }
{
    let mut seat = Served::new(rt, repo, seat, gate);
    run_lines(rt, alloc, &mut seat, CHANGESETS)?;
    run_lines(rt, alloc, &mut seat, script)
}

// Lands the draft at one seat while another moves `main` so often at the gate, and tells how often the landing came there.
fn came_between<R: Abort + Wait, D: Disk>(
    rt: &R,
    alloc: Global,
    repo: &Repo<D>,
    seats: (RepoSeat, RepoSeat),
    moves: u64,
    script: &str,
) -> Result<u64, Fail>
    requires one { seats.0.lock ≡ repo.now }
    requires other { seats.1.lock ≡ repo.now }
{
    let (one, other) = seats;
    let other = Served::new(rt, repo, other, &NoGate);
    let gate = Moves::new(rt, alloc, walker_at(alloc, other)?, moves);
    run_through(rt, alloc, repo, one, &gate, script)?;
    Ok(gate.came())
}

// The same in a repository.
fn came_in<R: Abort + Wait, D: Disk>(
    rt: &R,
    alloc: Global,
    state: RepoState<D>,
    moves: u64,
    script: &str,
) -> Result<u64, Fail>
    requires sealed { IsAllSealed state.history state.sealed }
{
    let Ok((repo, mut lead)) = Repo::new(alloc, state) else {
        return Err(Fail::from(AllocError));
    };
    let other = repo.split(&mut lead);
    came_between(rt, alloc, &repo, (lead, other), moves, script)
}

// The same in a new repository.
fn came<R: Abort + Wait>(rt: &R, alloc: Global, moves: u64, script: &str) -> Result<u64, Fail> {
    let state = new_repository(alloc, &[])?;
    came_in(rt, alloc, state, moves, script)
}

#[test]
fn a_head_that_is_back_is_landed_on_at_once(rt: HostRuntime) -> Result<(), Fail> {
    let came = came(&rt, rt.alloc(), 2, BACK)?;
    assert_eq!(rt; came, 1);
    Ok(())
}

#[test]
fn the_hundredth_attempt_passes_no_gate(rt: HostRuntime) -> Result<(), Fail> {
    let came = came(&rt, rt.alloc(), 1, AWAY)?;
    assert_eq!(rt; came, 99);
    Ok(())
}

// Nobody may set `y`, which the draft does.
const POLICY: &[u8] = b"deny * y\nallow * /\n";

// The policy is held by the time at which the landing is entered. It is the last entry.
const DENIED: &str = "\
land 640d00803ffd078abe99687f11f76e3949495f55dd88e999e6458f7adfdf79ac = denied at y by Some(0)
log 6 = 7, policy main 2";

// Lands the draft at one seat while another sets the policy at the gate.
fn denied_between<R: Abort + Wait, D: Disk>(
    rt: &R,
    alloc: Global,
    repo: &Repo<D>,
    seats: (RepoSeat, RepoSeat),
) -> Result<(), Fail>
    requires one { seats.0.lock ≡ repo.now }
    requires other { seats.1.lock ≡ repo.now }
{
    let (one, other) = seats;
    let other = Served::new(rt, repo, other, &NoGate);
    let gate = Rules::new(rt, alloc, other, main_name(alloc)?, POLICY);
    run_through(rt, alloc, repo, one, &gate, DENIED)
}

// The same in a repository.
fn denied_in<R: Abort + Wait, D: Disk>(
    rt: &R,
    alloc: Global,
    state: RepoState<D>,
) -> Result<(), Fail>
    requires sealed { IsAllSealed state.history state.sealed }
{
    let Ok((repo, mut lead)) = Repo::new(alloc, state) else {
        return Err(Fail::from(AllocError));
    };
    let other = repo.split(&mut lead);
    denied_between(rt, alloc, &repo, (lead, other))
}

#[test]
fn a_policy_that_is_set_at_the_gate_denies_the_landing(rt: HostRuntime) -> Result<(), Fail> {
    let alloc = rt.alloc();
    denied_in(&rt, alloc, new_repository(alloc, &[])?)
}
