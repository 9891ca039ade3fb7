//! Who works for a server at once: its lanes, and the derivers that they feed.
ghost use Rattle.std.specs.Prelude.{◌≡◌, ◌+◌, ◌<◌, ◌≤◌, ◌^◌, ℕ, [], All, IfOk, length, vec_capacity, vec_len};
ghost use Rattle.bookmark_lock.specs.Place.{Site};
ghost use Rattle.server_lanes.specs.Lanes.{HasRun, IsAt, IsDone};
ghost use Rattle.server_lanes.specs.Derivers.{AreNumbered, HasDerived, IsIdle};

use crate::both::for_each_of_both;
use crate::commons::Commons;
use crate::derivers::{Deriver, split_derivers};
use crate::door::Door;
use crate::lane::{Lane, serve_links};
use crate::lanes::split_lanes;
use crate::run::Run;
use crate::tally::Tally;
use blob_disk::Disk;
use derive_pool::{Feed, IdsFrom, ids_channel};
use ports::{Accept, Clock, Gate, Link};
use routes::Routes;
use shared_repo::{Repo, RepoSeat};
use std::alloc::{AllocError, Global};
use std::sync::ledger::Ledger;
use std::sync::{Mutex, Wait};
use std::thread::Threads;

/// How many there are of each, and the number of the entry that the first page for derivers begins with.
#[derive(Clone, Copy)]
pub(crate) struct Numbers {
    pub(crate) lanes: u64,
    pub(crate) derivers: u64,
    pub(crate) next: u64,
}

/// The lanes and the derivers.
#[derive(Drop)]
pub(crate) struct Crew<'a, R: Wait, D: Disk, G: Gate, L: Link, K: Run, E: Ledger> {
    pub(crate) lanes: Vec<Lane<'a, R, D, G, L, K, E>>,
    pub(crate) derivers: Vec<Deriver<'a, R, D>>,
}

/// What a crew takes memory for: room for its lanes and derivers, and where ids come out.
#[derive(Drop)]
pub(crate) struct CrewRoom<'a, R: Wait, D: Disk, G: Gate, L: Link, K: Run, E: Ledger> {
    pub(crate) lanes: Vec<Lane<'a, R, D, G, L, K, E>>,
    pub(crate) derivers: Vec<Deriver<'a, R, D>>,
    pub(crate) ends: Vec<IdsFrom>,
}

impl<'a, R: Wait, D: Disk, G: Gate, L: Link, K: Run, E: Ledger> CrewRoom<'a, R, D, G, L, K, E> {
    /// Room for so many, and what tells the derivers of the log, if there are any.
    pub(crate) fn new(alloc: Global, numbers: Numbers) -> Result<(Self, Option<Feed>), AllocError>
        ensures empty { IfOk result (λ made. (made.0.lanes.items ≡ []) × (made.0.derivers.items ≡ [])) }
        ensures lanes { IfOk result (λ made. numbers.lanes ≤ vec_capacity made.0.lanes) }
        ensures derivers { IfOk result (λ made. numbers.derivers ≤ vec_capacity made.0.derivers) }
        ensures ends { IfOk result (λ made. vec_len made.0.ends ≡ numbers.derivers) }
    {
        let Numbers {
            lanes,
            derivers,
            next,
        } = numbers;
        let (feed, ends) = make_channel(alloc, derivers, next)?;
        let room = CrewRoom {
            lanes: Vec::with_capacity(alloc, lanes as usize)?,
            derivers: Vec::with_capacity(alloc, derivers as usize)?,
            ends,
        };
        Ok((room, feed))
    }
}

// A feed and an end for each deriver, of one channel. Where there are no derivers there is no feed.
fn make_channel(
    alloc: Global,
    derivers: u64,
    next: u64,
) -> Result<(Option<Feed>, Vec<IdsFrom>), AllocError>
    ensures { IfOk result (λ made. vec_len made.1 ≡ derivers) }
{
    if derivers == 0 {
        return Ok((None, Vec::new(alloc)));
    }
    let (to, from) = ids_channel(alloc)?;
    let ends = make_ends(alloc, &from, derivers)?;
    Ok((Some(Feed::new(to, next)), ends))
}

// So many ends where ids come out.
fn make_ends(alloc: Global, from: &IdsFrom, derivers: u64) -> Result<Vec<IdsFrom>, AllocError>
    ensures { IfOk result (λ made. vec_len made ≡ derivers) }
{
    let mut made = Vec::with_capacity(alloc, derivers as usize)?;
    for _ in 0..derivers {
        made.push(from.clone()?)?;
    }
    Ok(made)
}

/// A crew, each of it at a seat of its own: first the lanes', then the derivers'. It takes no memory.
pub(crate) fn split_crew<'a, R: Wait, D: Disk, G: Gate, L: Link, K: Run, E: Ledger>(
    rt: &'a R,
    room: CrewRoom<'a, R, D, G, L, K, E>,
    commons: &'a Commons,
    repo: &'a Repo<D>,
    gate: &'a G,
    lead: &mut RepoSeat,
    tally: &mut Tally<L, K, E>,
    numbers: Numbers,
) -> Crew<'a, R, D, G, L, K, E>
    requires place { lead.old.lock ≡ repo.now }
    requires leads { lead.old.number ≡ 0 }
    requires room { lead.old.split + (numbers.lanes + numbers.derivers) ≤ 2 ^ 63 }
    requires tally { tally.old ≡ record { parts = numbers.lanes; served = 0; sealed = 0; told = 0 } }
    requires empty { (room.lanes.items ≡ []) × (room.derivers.items ≡ []) }
    requires lanes { numbers.lanes ≤ vec_capacity room.lanes }
    requires derivers { numbers.derivers ≤ vec_capacity room.derivers }
    requires ends { vec_len room.ends ≡ numbers.derivers }
    ensures lead { lead.new ≡ record lead.old { split = lead.old.split + (numbers.lanes + numbers.derivers); out = lead.old.out + (numbers.lanes + numbers.derivers) } }
    ensures tally { tally.new ≡ record { parts = 0; served = 0; sealed = 0; told = 0 } }
    ensures count { (vec_len result.lanes ≡ numbers.lanes) × (vec_len result.derivers ≡ numbers.derivers) }
    ensures lanes { All (IsAt repo.now) result.lanes.items }
    ensures idle { All (IsIdle repo.now) result.derivers.items }
    ensures numbers { AreNumbered (lead.old.split + numbers.lanes + 1) result.derivers.items }
{
    let CrewRoom {
        lanes,
        derivers,
        ends,
    } = room;
    Crew {
        lanes: split_lanes(rt, lanes, commons, repo, gate, lead, tally, numbers.lanes),
        derivers: split_derivers(rt, derivers, ends, repo, lead, numbers.derivers),
    }
}

/// The lanes serve links of the door until no more will come, and the derivers derive meanwhile, until
/// each lane has ended and no id waits any more. Where no thread can be made, the lanes come first.
pub(crate) fn run_crew<
    R: Threads + Wait + Sync,
    D: Disk + Send,
    G: Gate + Sync,
    A: Accept<L> + Send,
    L: Link + Send,
    K: Run + Send + Sync,
    E: Ledger + Send + Sync,
    C: Clock + Sync,
>(
    rt: &R,
    alloc: Global,
    routes: &Routes,
    clock: &C,
    door: &Mutex<Door<A, L, K, E>>,
    lanes: &mut [Lane<'_, R, D, G, L, K, E>],
    derivers: &mut [Deriver<'_, R, D>],
)
where
    D::Flush: Send,
    D::Peer: Send,
    requires some { 0 < length lanes.old }
    requires parts { All (λ lane. lane.tally.parts ≡ 1) lanes.old }
    ensures lanes { (site : Site) → All (IsAt site) lanes.old → All (IsDone site) lanes.new }
    ensures idle { (site : Site) → All (IsIdle site) derivers.old → All (IsIdle site) derivers.new }
    ensures numbers { (first : ℕ) → AreNumbered first derivers.old → AreNumbered first derivers.new }
{
    for_each_of_both(
        rt,
        &|_, deriver: &mut Deriver<'_, R, D>|
            ensures { HasDerived deriver.old deriver.new }
        { deriver.derive_all(rt, alloc) },
        &|_, lane: &mut Lane<'_, R, D, G, L, K, E>|
            requires { lane.old.tally.parts ≡ 1 }
            ensures { HasRun lane.old lane.new }
        { serve_links(rt, alloc, routes, door, lane, clock) },
        derivers,
        lanes,
    );
}
