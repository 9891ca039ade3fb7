//! Seats in threads of their own, which store and join at once.
ghost use Rattle.std.specs.Prelude.{◌≡◌, ◌+◌, ◌≤◌, ◌^◌};
ghost use Rattle.repo_state.specs.State.{IsAllSealed};

use crate::repository::new_repository;
use crate::steps::total;
use blob_disk::Disk;
use object_id::Id;
use ports::NoGate;
use repo_calls::{Ask, Seat};
use repo_state::RepoState;
use shared_repo::{Repo, RepoSeat, Served};
use std::alloc::{AllocError, Global};
use std::sync::Wait;
use std::test::Fail;
use std::thread::{Threads, for_each_mut};

const TIMES: u8 = 5;

// A seat, the first byte of its contents, and how many of them were stored, with those that were joined.
#[derive(Drop)]
struct Worker<S: Seat + Drop> {
    seat: S,
    first: u8,
    stored: u64,
}

impl<S: Seat + Drop> Worker<S> {
    // Each content is joined with itself, too.
    fn work(&mut self, alloc: Global) {
        for second in 0..TIMES {
            let bytes = [self.first, second];
            self.count(alloc, &Ask::PutContent(&bytes));
            self.count(alloc, &Ask::PutWhole(&twice(Id::of(&bytes))));
        }
    }

    fn count(&mut self, alloc: Global, ask: &Ask) {
        if self.seat.change(alloc, ask).is_ok() {
            self.stored = self.stored.saturating_add(1);
        }
    }
}

// The body that joins a content with itself.
fn twice(id: Id) -> [u8; 64] {
    let mut body = [0; 64];
    body[..32].copy_from_slice(id.as_bytes());
    body[32..].copy_from_slice(id.as_bytes());
    body
}

// So many workers, each at a seat of its own.
fn split_all<'a, R: Wait, D: Disk>(
    rt: &'a R,
    alloc: Global,
    repo: &'a Repo<D>,
    lead: &mut RepoSeat,
    count: u8,
) -> Result<Vec<Worker<Served<'a, R, D, NoGate>>>, AllocError>
    requires place { lead.old.lock ≡ repo.now }
    requires leads { lead.old.number ≡ 0 }
    requires room { lead.old.split + count ≤ 2 ^ 63 }
    ensures place { lead.new.lock ≡ repo.now }
{
    let mut workers = Vec::new(alloc);
    for first in 0..count {
        let seat = Served::new(rt, repo, repo.split(lead), &NoGate);
        workers.push(Worker {
            seat,
            first,
            stored: 0,
        })?;
    }
    Ok(workers)
}

// Each worker works in a thread of its own.
fn work_all<R: Threads + Sync, S: Seat + Drop + Send>(
    rt: &R,
    alloc: Global,
    workers: &mut [Worker<S>],
) {
    let threads = workers.len().max(1);
    for_each_mut(
        rt,
        workers,
        threads,
        &|_, worker: &mut Worker<S>| {
            worker.work(alloc);
        },
    );
}

fn stored<S: Seat + Drop>(workers: &[Worker<S>]) -> u64 {
    let mut all = 0u64;
    for worker in workers {
        all = all.saturating_add(worker.stored);
    }
    all
}

// How many contents so many threads store and join.
fn store_at_once<R: Threads + Wait + Sync, D: Disk + Send>(
    rt: &R,
    alloc: Global,
    repo: &Repo<D>,
    lead: &mut RepoSeat,
    count: u8,
) -> Result<u64, AllocError>
where
    D::Flush: Send,
    D::Peer: Send,
    requires place { lead.old.lock ≡ repo.now }
    requires leads { lead.old.number ≡ 0 }
    requires room { lead.old.split + count ≤ 2 ^ 63 }
    ensures place { lead.new.lock ≡ repo.now }
{
    let mut workers = split_all(rt, alloc, repo, lead, count)?;
    work_all(rt, alloc, workers.as_mut_slice());
    Ok(stored(workers.as_slice()))
}

// How many contents so many threads stored and joined, and how many entries the lead sees then.
fn at_once<R: Threads + Wait + Sync, D: Disk + Send>(
    rt: &R,
    alloc: Global,
    state: RepoState<D>,
    count: u8,
) -> Result<(u64, u64), Fail>
where
    D::Flush: Send,
    D::Peer: Send,
    requires sealed { IsAllSealed state.history state.sealed }
{
    let Ok((repo, mut lead)) = Repo::new(alloc, state) else {
        return Err(Fail::from(AllocError));
    };
    let stored = store_at_once(rt, alloc, &repo, &mut lead, count)?;
    Ok((stored, total_at(rt, alloc, &repo, lead)?))
}

// How many entries this seat sees.
fn total_at<R: Wait, D: Disk>(
    rt: &R,
    alloc: Global,
    repo: &Repo<D>,
    seat: RepoSeat,
) -> Result<u64, Fail>
    requires place { seat.lock ≡ repo.now }
{
    let mut seat = Served::new(rt, repo, seat, &NoGate);
    total(alloc, &mut seat)
}

#[test]
fn what_threads_store_at_once_adds_up(rt: HostRuntime) -> Result<(), Fail> {
    let alloc = rt.alloc();
    let two = at_once(&rt, alloc, new_repository(alloc, &[])?, 2)?;
    assert_eq!(rt; two, (20, 20));
    let eight = at_once(&rt, alloc, new_repository(alloc, &[])?, 8)?;
    assert_eq!(rt; eight, (80, 80));
    Ok(())
}
