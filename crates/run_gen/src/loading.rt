//! A whole load, from its first entry to its summary.
ghost use Rattle.std.specs.Prelude.{◌≡◌, ◌<◌, ◌≤◌, ◌^◌, IfOk, IfSome};
ghost use Rattle.repo_state.specs.State.{IsAllSealed, IsQuiet};
ghost use Rattle.run_gen.specs.Begun.{load_header};
ghost use Rattle.run_gen.specs.Loading.{Leaves, Tells};

use crate::LoadFault;
use crate::begin::begin;
use crate::crew::{run_all, split_all};
use crate::joins::{join_all, outcome_of};
use crate::summary::{Summary, sum_up};
use blob_disk::MemDisk;
use repo_state::RepoState;
use shared_repo::Repo;
use std::alloc::{AllocError, Global};
use std::hash::RandomState;
use std::sync::Wait;
use std::thread::Threads;

// What the clients came to, and the repository that they left.
#[derive(Drop)]
struct Left {
    outcome: Result<(), LoadFault>,
    state: RepoState<MemDisk>,
}

// Runs all clients on a new repository.
fn run<R: Threads + Wait + Sync>(
    rt: &R,
    alloc: Global,
    keys: RandomState,
    seed: u64,
    stacks: u64,
    clients: u64,
) -> Result<Left, AllocError>
    requires seed { seed < 2 ^ 32 }
    requires stacks { 0 < stacks }
    requires clients { clients ≤ 8 }
    ensures leaves { IfOk result (λ left. Leaves seed stacks clients left.outcome left.state) }
    ensures quiet { IfOk result (λ left. IsQuiet left.state.opening) }
    ensures header { IfOk result (λ left. left.state.opening.header ≡ load_header) }
    ensures sealed { IfOk result (λ left. IsAllSealed left.state.history left.state.sealed) }
{
    let state = begin(alloc, keys)?;
    let Ok((repo, mut lead)) = Repo::new(alloc, state) else {
        return Err(AllocError);
    };
    let all = split_all(&repo, alloc, &mut lead, clients)?;
    let finished = run_all(rt, alloc, &repo, all, seed, stacks)?;
    let outcome = outcome_of(finished.as_slice());
    join_all(&repo, &mut lead, finished);
    Ok(Left {
        outcome,
        state: repo.close(lead),
    })
}

/// Clients that run at once, each at a seat of its own, land so many stacks each on one repository
/// in memory. What they ask follows from the seed, up to what their landings answer. The state is
/// handed back but where memory runs out. The tables by ids are hashed with these keys.
///
/// # Errors
/// `Refused` where the repository refuses a call of some client.
pub fn load<R: Threads + Wait + Sync>(
    rt: &R,
    alloc: Global,
    keys: RandomState,
    seed: u64,
    stacks: u64,
    clients: u64,
) -> (Result<Summary, LoadFault>, Option<RepoState<MemDisk>>)
    requires seed { seed < 2 ^ 32 }
    requires stacks { 0 < stacks }
    requires clients { clients ≤ 8 }
    ensures tells { Tells seed stacks clients result.0 result.1 }
    ensures quiet { IfSome result.1 (λ s. IsQuiet s.opening) }
    // Its file may have so many bytes.
    ensures header { IfSome result.1 (λ s. s.opening.header ≡ load_header) }
    ensures sealed { IfSome result.1 (λ s. IsAllSealed s.history s.sealed) }
{
    let Ok(Left { outcome, mut state }) = run(rt, alloc, keys, seed, stacks, clients) else {
        return (Err(LoadFault::Memory), None);
    };
    match outcome {
        Ok(()) => match sum_up(&mut state, alloc) {
            Ok(summary) => (Ok(summary), Some(state)),
            Err(_) => (Err(LoadFault::Memory), None),
        },
        Err(LoadFault::Refused) => (Err(LoadFault::Refused), Some(state)),
        Err(LoadFault::Memory) => (Err(LoadFault::Memory), None),
    }
}
