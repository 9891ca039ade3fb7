//! The clients of a load, each in a thread of its own.
ghost use Rattle.std.specs.Prelude.{◌≡◌, ◌+◌, ◌<◌, ◌≤◌, ◌^◌, ℕ, All, IfOk, length, slice_index_or};
ghost use Rattle.run_gen.specs.Crew.{AreClients, Did, IsReady};

use crate::LoadFault;
use crate::clients::client;
use blob_disk::Disk;
use shared_repo::{Repo, RepoSeat};
use std::alloc::{AllocError, Global};
use std::sync::Wait;
use std::thread::{Threads, map_vec};

/// A client that is to begin: its seat and its number.
#[derive(Drop)]
pub(crate) struct Seated {
    pub(crate) seat: RepoSeat,
    pub(crate) number: u64,
}

/// A client that has ended: its seat, and whether it landed all of its stacks.
#[derive(Drop)]
pub(crate) struct Finished {
    pub(crate) seat: RepoSeat,
    pub(crate) outcome: Result<(), LoadFault>,
}

/// So many clients, each at a new seat.
pub(crate) fn split_all<D: Disk>(
    repo: &Repo<D>,
    alloc: Global,
    lead: &mut RepoSeat,
    clients: u64,
) -> Result<Vec<Seated>, AllocError>
    requires place { lead.old.lock ≡ repo.now }
    requires leads { lead.old.number ≡ 0 }
    requires room { lead.old.split + clients ≤ 2 ^ 63 }
    ensures lead { IfOk result (λ v. lead.new ≡ record lead.old { split = lead.old.split + clients; out = lead.old.out + clients }) }
    ensures len { IfOk result (λ v. length v.items ≡ clients) }
    ensures clients { IfOk result (λ v. AreClients lead.old clients v.items) }
{
    let mut all = Vec::with_capacity(alloc, clients as usize)?;
    for number in 0..clients {
        let seat = repo.split(lead);
        all.push(Seated { seat, number })?;
    }
    Ok(all)
}

// Runs one client.
fn run_one<D: Disk, R: Wait>(
    rt: &R,
    alloc: Global,
    repo: &Repo<D>,
    seated: Seated,
    seed: u64,
    stacks: u64,
) -> Finished
    requires ready { IsReady repo.now seed seated }
    requires stacks { 0 < stacks }
    ensures { Did seed stacks seated result }
{
    let Seated { mut seat, number } = seated;
    let outcome = client(rt, alloc, repo, &mut seat, number, seed, stacks);
    Finished { seat, outcome }
}

/// Runs each client in a thread of its own. Where no thread can be made, they run one after another.
pub(crate) fn run_all<D: Disk + Send, R: Threads + Wait + Sync>(
    rt: &R,
    alloc: Global,
    repo: &Repo<D>,
    all: Vec<Seated>,
    seed: u64,
    stacks: u64,
) -> Result<Vec<Finished>, AllocError>
where
    D::Flush: Send,
    D::Peer: Send,
    requires ready { All (IsReady repo.now seed) all.items }
    requires stacks { 0 < stacks }
    ensures len { IfOk result (λ v. length v.items ≡ length all.items) }
    ensures did { IfOk result (λ v. (k : ℕ) (d : _) (e : _) → k < length all.items → Did seed stacks (slice_index_or all.items k d) (slice_index_or v.items k e)) }
{
    map_vec(
        rt,
        all,
        &|seated: Seated| -> Finished
            requires ready { IsReady repo.now seed seated }
            requires stacks { 0 < stacks }
            ensures { Did seed stacks seated result }
        { run_one(rt, alloc, repo, seated, seed, stacks) },
    )
}
