//! A server, from its first link to its last.
ghost use Rattle.std.specs.Prelude.{◌≡◌, ◌+◌, ◌<◌, ◌≤◌, ◌^◌, ℕ, [], true, false, All, IfErr, IfOk, vec_capacity, vec_len};
ghost use mathlib.Core.List.{IsPrefix};
ghost use Rattle.history_model.specs.History.{Entry, entries_by};
ghost use Rattle.repo_machine.specs.Seats.{cleared};
ghost use Rattle.repo_state.specs.State.{IsAllSealed, reach};
ghost use Rattle.bookmark_lock.specs.Lasting.{AreLast};
ghost use Rattle.bookmark_lock.specs.Place.{lead_place};
ghost use Rattle.shared_repo.specs.Front.{IsFront, IsGivenBack};
ghost use Rattle.server_lanes.specs.Derivers.{AreNumbered, AreUnused, IsIdle};
ghost use Rattle.server_lanes.specs.Lanes.{IsAt, TakesBack};
ghost use Rattle.server_lanes.specs.Serving.{Gave, IsThrough};

use crate::closing::Closing;
use crate::commons::Commons;
use crate::crew::{Crew, CrewRoom, Numbers, run_crew, split_crew};
use crate::derivers::join_derivers;
use crate::door::Door;
use crate::lanes::join_lanes;
use crate::run::Run;
use crate::tally::Tally;
use blob_disk::Disk;
use http_front::connection::ServedLinks;
use ports::{Accept, Clock, Gate, Link};
use repo_state::RepoState;
use routes::Routes;
use shared_repo::{Repo, RepoSeat};
use std::alloc::Global;
use std::marker::Brand;
use std::sync::ledger::{Blank, Ledger};
use std::sync::{Mutex, Wait};
use std::thread::Threads;

// Serves by these lanes until no more links come, and joins all seats. Answers the accept, and how many
// links were served.
fn serve_by<
    R: Threads + Wait + Sync,
    D: Disk + Send,
    G: Gate + Sync,
    A: Accept<L> + Send,
    L: Link + Send,
    K: Run + Send + Sync,
    E: Ledger + Send + Sync,
    C: Clock + Sync,
>(
    rt: &R,
    alloc: Global,
    routes: &Routes,
    clock: &C,
    repo: &Repo<D>,
    lead: &mut RepoSeat,
    crew: Crew<'_, R, D, G, L, K, E>,
    door: Door<A, L, K, E>,
    rest: Tally<L, K, E>,
) -> (A, ServedLinks<L>)
where
    D::Flush: Send,
    D::Peer: Send,
    requires place { lead.old.lock ≡ repo.now }
    requires leads { lead.old.number ≡ 0 }
    requires some { 0 < vec_len crew.lanes }
    requires lanes { All (IsAt repo.now) crew.lanes.items }
    requires idle { All (IsIdle repo.now) crew.derivers.items }
    requires parts { rest.parts + vec_len crew.lanes ≡ K.parts }
    requires none { rest.sealed ≡ 0 }
    ensures lead { TakesBack lead.old (vec_len crew.entry.lanes + vec_len crew.entry.derivers) lead.new }
    ensures unused { (first : ℕ) → AreNumbered first crew.entry.derivers.items → AreUnused first (vec_len crew.entry.derivers) lead.new.front }
    ensures told { result.1.sealed ≤ lead.new.sealed }
    ensures gave { Gave result.1.count K.given (A.given result.0) }
    ensures few { result.1.count ≤ K.connections }
    ensures through { IsThrough result.1.count K.connections (A.over result.0) K.faults (A.faults result.0) }
    ensures faults { K.faults ≤ A.faults result.0 }
{
    let Crew {
        mut lanes,
        mut derivers,
    } = crew;
    let shared = Mutex::new(door);
    run_crew(
        rt,
        alloc,
        routes,
        clock,
        &shared,
        lanes.as_mut_slice(),
        derivers.as_mut_slice(),
    );
    let mut door = shared.into_inner();
    let tally = join_lanes(repo, lead, lanes, &mut door, rest);
    join_derivers(repo, lead, derivers);
    tally.close(door)
}

// Splits off a crew, serves by it until no more links come, and joins all seats. Answers the accept, and how many links were
// served.
fn serve_on<
    'a,
    R: Threads + Wait + Sync,
    D: Disk + Send,
    G: Gate + Sync,
    A: Accept<L> + Send,
    L: Link + Send,
    K: Run + Send + Sync,
    E: Ledger + Send + Sync,
    C: Clock + Sync,
>(
    rt: &'a R,
    alloc: Global,
    routes: &Routes,
    clock: &C,
    room: CrewRoom<'a, R, D, G, L, K, E>,
    commons: &'a Commons,
    repo: &'a Repo<D>,
    lead: &mut RepoSeat,
    gate: &'a G,
    numbers: Numbers,
    door: Door<A, L, K, E>,
    tally: Tally<L, K, E>,
) -> (A, ServedLinks<L>)
where
    D::Flush: Send,
    D::Peer: Send,
    requires some { 0 < numbers.lanes }
    requires room { numbers.lanes + numbers.derivers ≤ 2 ^ 63 }
    requires lead { lead.old ≡ lead_place repo.now lead.old.front lead.old.sealed lead.old.reach lead.old.disk }
    requires parts { K.parts ≡ numbers.lanes }
    requires tally { tally ≡ record { parts = numbers.lanes; served = 0; sealed = 0; told = 0 } }
    requires empty { (room.lanes.items ≡ []) × (room.derivers.items ≡ []) }
    requires lanes { numbers.lanes ≤ vec_capacity room.lanes }
    requires derivers { numbers.derivers ≤ vec_capacity room.derivers }
    requires ends { vec_len room.ends ≡ numbers.derivers }
    ensures lead { TakesBack (record lead.old { split = numbers.lanes + numbers.derivers; out = numbers.lanes + numbers.derivers }) (numbers.lanes + numbers.derivers) lead.new }
    ensures unused { AreUnused (numbers.lanes + 1) numbers.derivers lead.new.front }
    ensures told { result.1.sealed ≤ lead.new.sealed }
    ensures gave { Gave result.1.count K.given (A.given result.0) }
    ensures few { result.1.count ≤ K.connections }
    ensures through { IsThrough result.1.count K.connections (A.over result.0) K.faults (A.faults result.0) }
    ensures faults { K.faults ≤ A.faults result.0 }
{
    let mut tally = tally;
    let crew = split_crew(rt, room, commons, repo, gate, lead, &mut tally, numbers);
    serve_by(rt, alloc, routes, clock, repo, lead, crew, door, tally)
}

// What a run begins with. All its memory is taken.
#[derive(Drop)]
struct Begun<'a, R: Wait, D: Disk, G: Gate, L: Link, K: Run, E: Ledger> {
    routes: Routes,
    room: CrewRoom<'a, R, D, G, L, K, E>,
    commons: Commons,
    repo: Repo<D>,
    lead: RepoSeat,
}

// Takes all memory, that for the lock last: once seats take turns the repository can't be given back as it was.
fn begin<'a, R: Wait, D: Disk, G: Gate, L: Link, K: Run, E: Ledger>(
    alloc: Global,
    state: RepoState<D>,
    numbers: Numbers,
) -> Result<Begun<'a, R, D, G, L, K, E>, RepoState<D>>
    requires sealed { IsAllSealed state.history state.sealed }
    ensures back { IfErr result (IsGivenBack state) }
    ensures opening { IfOk result (λ begun. begun.repo.opening ≡ state.opening) }
    ensures lead { IfOk result (λ begun. begun.lead ≡ lead_place begun.repo (cleared state.history) state.sealed (reach state) state.disk) }
    ensures empty { IfOk result (λ begun. (begun.room.lanes.items ≡ []) × (begun.room.derivers.items ≡ [])) }
    ensures lanes { IfOk result (λ begun. numbers.lanes ≤ vec_capacity begun.room.lanes) }
    ensures derivers { IfOk result (λ begun. numbers.derivers ≤ vec_capacity begun.room.derivers) }
    ensures ends { IfOk result (λ begun. vec_len begun.room.ends ≡ numbers.derivers) }
{
    let Ok(routes) = Routes::new(alloc) else {
        return Err(given_back(state));
    };
    let Ok((room, feed)) = CrewRoom::new(alloc, numbers) else {
        return Err(given_back(state));
    };
    match Repo::new(alloc, state) {
        Ok((repo, lead)) => Ok(Begun {
            routes,
            room,
            commons: Commons::new(feed, numbers.lanes),
            repo,
            lead,
        }),
        Err(state) => Err(state),
    }
}

// The state as the lock gives it back.
fn given_back<D: Disk>(state: RepoState<D>) -> RepoState<D>
    ensures { IsGivenBack state result }
{
    let mut state = state;
    state.clear_seats();
    state
}

// A run that these two ledgers count.
fn run<
    R: Threads + Wait + Sync,
    D: Disk + Send,
    G: Gate + Sync,
    A: Accept<L> + Send,
    L: Link + Send,
    K: Run + Send + Sync,
    E: Ledger + Send + Sync,
    C: Clock + Sync,
>(
    rt: &R,
    alloc: Global,
    state: RepoState<D>,
    accept: A,
    gate: &G,
    clock: &C,
    lanes: u64,
    derivers: u64,
    connections: u64,
    links: Blank,
    ends: Blank,
) -> Closing<D, A, L>
where
    D::Flush: Send,
    D::Peer: Send,
    requires sealed { IsAllSealed state.history state.sealed }
    requires lanes { (0 < lanes) × (lanes ≤ 2 ^ 63) }
    requires room { lanes + derivers ≤ 2 ^ 63 }
    requires links { (links.name ≡ K.name) × (links.parts ≡ K.parts) × (links.parts ≡ lanes) }
    requires ends { (ends.name ≡ E.name) × (ends.parts ≡ E.parts) × (ends.parts ≡ lanes) }
    requires connections { connections ≡ K.connections }
    requires given { A.given accept ≡ K.given }
    requires faults { A.faults accept ≡ K.faults }
    ensures served { Gave result.served.count (A.given accept) (A.given result.accept) }
    ensures share { result.served.count ≤ connections }
    ensures through { result.began ≡ true → IsThrough result.served.count connections (A.over result.accept) (A.faults accept) (A.faults result.accept) }
    ensures faults { A.faults accept ≤ A.faults result.accept }
    ensures memory { result.began ≡ false → (result.served ≡ record { count = 0; sealed = 0 }) × (result.accept ≡ accept) × IsGivenBack state result.state }
    ensures opening { result.began ≡ true → result.state.opening ≡ state.opening }
    ensures begins { result.began ≡ true → IsPrefix (cleared state.history) result.state.history }
    ensures front { result.began ≡ true → IsFront result.state.opening result.state.history }
    ensures numbers { result.began ≡ true → All (λ (e : Entry). e.who ≤ lanes) result.state.history }
    ensures sealed { result.began ≡ true → IsAllSealed result.state.history result.state.sealed }
    ensures told { result.began ≡ true → result.served.sealed ≤ result.state.sealed }
    ensures last { result.began ≡ true → AreLast result.state.history result.state.sealed }
    ensures own { result.began ≡ true → entries_by 0 result.state.history ≡ entries_by 0 (cleared state.history) }
{
    let numbers = Numbers {
        lanes,
        derivers,
        next: state.counts().entries,
    };
    match begin(alloc, state, numbers) {
        Ok(
            Begun {
                routes,
                room,
                commons,
                repo,
                mut lead,
            },
        ) => {
            let (links, counted) = links.open::<K>();
            let (ends, told) = ends.open::<E>();
            let door = Door::new(accept, connections, links, ends);
            let tally = Tally::new(counted, told);
            let (accept, served) = serve_on(
                rt, alloc, &routes, clock, room, &commons, &repo, &mut lead, gate, numbers, door,
                tally,
            );
            Closing {
                state: repo.close(lead),
                began: true,
                accept,
                served,
            }
        }
        Err(state) => Closing {
            state,
            began: false,
            accept,
            served: ServedLinks::new(),
        },
    }
}

/// Serves so many connections of the accept, or all that it gives, at most `lanes` of them at once.
/// Each link that it gives has a session of its own, and the clock is read once for each landing. So many derivers derive the
/// manifests of new changesets meanwhile, and make no entry. Where memory is refused no link is taken, and the repository is
/// given back.
pub fn serve_all<
    R: Threads + Wait + Sync,
    D: Disk + Send,
    A: Accept<L> + Send,
    L: Link + Send,
    G: Gate + Sync,
    C: Clock + Sync,
>(
    rt: &R,
    alloc: Global,
    state: RepoState<D>,
    accept: A,
    gate: &G,
    clock: &C,
    lanes: u64,
    derivers: u64,
    connections: u64,
) -> Closing<D, A, L>
where
    D::Flush: Send,
    D::Peer: Send,
    requires sealed { IsAllSealed state.history state.sealed }
    requires lanes { (0 < lanes) × (lanes ≤ 2 ^ 63) }
    requires room { lanes + derivers ≤ 2 ^ 63 }
    ensures served { Gave result.served.count (A.given accept) (A.given result.accept) }
    ensures share { result.served.count ≤ connections }
    ensures through { result.began ≡ true → IsThrough result.served.count connections (A.over result.accept) (A.faults accept) (A.faults result.accept) }
    ensures faults { A.faults accept ≤ A.faults result.accept }
    ensures memory { result.began ≡ false → (result.served ≡ record { count = 0; sealed = 0 }) × (result.accept ≡ accept) × IsGivenBack state result.state }
    ensures opening { result.began ≡ true → result.state.opening ≡ state.opening }
    ensures begins { result.began ≡ true → IsPrefix (cleared state.history) result.state.history }
    ensures front { result.began ≡ true → IsFront result.state.opening result.state.history }
    ensures numbers { result.began ≡ true → All (λ (e : Entry). e.who ≤ lanes) result.state.history }
    ensures sealed { result.began ≡ true → IsAllSealed result.state.history result.state.sealed }
    ensures told { result.began ≡ true → result.served.sealed ≤ result.state.sealed }
    ensures last { result.began ≡ true → AreLast result.state.history result.state.sealed }
    ensures own { result.began ≡ true → entries_by 0 result.state.history ≡ entries_by 0 (cleared state.history) }
{
    run::<R, D, G, A, L, Brand, Brand, C>(
        rt,
        alloc,
        state,
        accept,
        gate,
        clock,
        lanes,
        derivers,
        connections,
        Blank::new(lanes),
        Blank::new(lanes),
    )
}
