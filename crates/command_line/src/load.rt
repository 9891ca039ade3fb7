//! A generated load, in a repository in memory.
ghost use Rattle.std.specs.Prelude.{◌≡◌, ◌≤◌, ◌<◌, ◌^◌, None};
ghost use Rattle.command_line.specs.Loading.{Closes, Loads, report_of};
ghost use Rattle.command_line.specs.Outside.{none_served, told};
ghost use Rattle.command_line.specs.Running.{ReportsLoad};

use crate::ran::{Ran, loaded};
use crate::serve::closed;
use crate::{Report, end_run};
use blob_disk::MemDisk;
use ports::Link;
use repo_state::RepoState;
use run_gen::{LoadFault, Summary, load};
use std::alloc::Global;
use std::hash::RandomState;
use std::sync::Wait;
use std::thread::Threads;

/// What a load came to: what is reported of it, and the disk of its repository.
#[derive(Drop)]
struct Left {
    report: Report,
    disk: Option<MemDisk>,
}

fn report_of(outcome: Result<Summary, LoadFault>) -> Report
    ensures { result ≡ report_of outcome }
{
    match outcome {
        Ok(
            Summary {
                landed,
                entries,
                root,
            },
        ) => Report::Loaded {
            landed,
            entries,
            root,
        },
        Err(LoadFault::Refused) => Report::LoadRefused,
        Err(LoadFault::Memory) => Report::NoMemory,
    }
}

// Closes the repository that a load left.
fn left_disk(state: Option<RepoState<MemDisk>>) -> Option<MemDisk>
    ensures { Closes state result }
{
    match state {
        Some(state) => Some(closed(state)),
        None => None,
    }
}

fn make_load<R: Threads + Wait + Sync>(
    rt: &R,
    alloc: Global,
    keys: RandomState,
    seed: u64,
    stacks: u64,
    clients: u64,
) -> Left
    requires seed { seed < 2 ^ 32 }
    requires stacks { 0 < stacks }
    requires clients { clients ≤ 8 }
    ensures { Loads seed stacks clients result.report result.disk }
{
    let (outcome, state) = load(rt, alloc, keys, seed, stacks, clients);
    Left {
        report: report_of(outcome),
        disk: left_disk(state),
    }
}

/// Lands the stacks of a generated load in a repository in memory, and reports in one line what it came to.
pub(crate) fn run_load<R, D, L, A, K>(
    rt: &R,
    alloc: Global,
    keys: RandomState,
    seed: u64,
    stacks: u64,
    clients: u64,
    link: &mut L,
    accept: A,
) -> Ran<D, A, K>
where
    R: Threads + Wait + Sync,
    L: Link,
    K: Drop,
    requires seed { seed < 2 ^ 32 }
    requires stacks { 0 < stacks }
    requires clients { clients ≤ 8 }
    ensures loads { ReportsLoad seed stacks clients result.load result.status (told L.rest L.written L.faults link.old) (told L.rest L.written L.faults link.new) }
    ensures disk { result.disk ≡ None }
    ensures other { result.other ≡ None }
    ensures served { result.served ≡ none_served }
    ensures link { result.link ≡ None }
    ensures accept { result.accept ≡ accept }
{
    let left = make_load(rt, alloc, keys, seed, stacks, clients);
    loaded(end_run(left.report, link), left.disk, accept)
}
