//! Many connections, served on the repository in a file.
ghost use Rattle.std.specs.Prelude.{◌≡◌, ◌≤◌, All, if◌then◌else◌, true, false, is_some, None};
ghost use mathlib.Core.List.{IsPrefix};
ghost use Rattle.disk_model.specs.Meaning.{IsSound};
ghost use Rattle.repo_state.specs.State.{IsAllSealed, IsSound as IsSoundState, reach};
ghost use Rattle.bookmark_lock.specs.Lasting.{AreLast};
ghost use Rattle.history_model.specs.History.{Entry, entries_by, is_down, stored};
ghost use Rattle.reply_model.specs.Legal.{IsLegal};
ghost use Rattle.repo_journal.specs.Opened.{IsOpened};
ghost use Rattle.repo_machine.specs.Counting.{counts_of};
ghost use Rattle.repo_machine.specs.Seats.{cleared};
ghost use Rattle.command_line.specs.declared.report.Report.TheVariants.{NoMemory as NoMemoryLine};
ghost use Rattle.command_line.specs.Outside.{TakesNone, links, outside, told};
ghost use Rattle.command_line.specs.Running.{OpensOnly, RunsOpened, RunsServe};
ghost use Rattle.command_line.specs.Serving.{IsServed, TakesLinks, served_report};

use crate::program::tell;
use crate::ran::{Ran, apart};
use crate::watched::{Since, Watched};
use crate::{OpenedFile, Report, end_run, open_file};
use blob_disk::Disk;
use http_front::connection::ServedLinks;
use ports::{Accept, Clock, Gate, Link, Opener};
use repo_state::RepoState;
use server_lanes::{Closing, serve_all};
use std::alloc::Global;
use std::hash::RandomState;
use std::marker::Brand;
use std::sync::Wait;
use std::thread::Threads;

/// Serves the connections that the accept gives on the repository in the file of this name, so many at most and in so many lanes,
/// while so many derivers derive ahead, and reports the end in one line. No connection is taken where the file or the repository
/// in it isn't opened. The clock is read once for each landing.
pub(crate) fn run_serve<R, D, O, L, A, K, G, C>(
    rt: &R,
    alloc: Global,
    keys: RandomState,
    file: &str,
    lanes: u64,
    derivers: u64,
    connections: u64,
    link: &mut L,
    opener: &mut O,
    accept: A,
    gate: &G,
    clock: &C,
) -> Ran<D, A, K>
where
    R: Threads + Wait + Sync,
    D: Disk + Send,
    D::Flush: Send,
    D::Peer: Send,
    O: Opener<D>,
    L: Link,
    A: Accept<K> + Send,
    K: Link + Send,
    G: Gate + Sync,
    C: Clock + Sync,
    requires { (1 ≤ lanes) × (lanes ≤ 4096) × (derivers ≤ 8) }
    ensures runs { RunsServe D.meaning file.now lanes connections (outside O.shelf O.faults L.rest L.written L.faults opener.old link.old) (outside O.shelf O.faults L.rest L.written L.faults opener.new link.new) (links A.given A.over A.faults accept result.accept result.served) (record { status = result.status; disk = result.disk }) }
    ensures only { OpensOnly file.now false (outside O.shelf O.faults L.rest L.written L.faults opener.old link.old) (outside O.shelf O.faults L.rest L.written L.faults opener.new link.new) result.disk }
    ensures served { IsServed (links A.given A.over A.faults accept result.accept result.served) }
    ensures other { result.other ≡ None }
    ensures load { result.load ≡ None }
    ensures link { result.link ≡ None }
{
    match open_file(alloc, keys, opener, file) {
        Ok(opened) => serve_opened(
            rt,
            alloc,
            opened,
            lanes,
            derivers,
            connections,
            link,
            accept,
            gate,
            clock,
        ),
        Err(outcome) => apart(tell(outcome, link), accept),
    }
}

fn serve_opened<R, D, L, A, K, G, C>(
    rt: &R,
    alloc: Global,
    opened: OpenedFile<D>,
    lanes: u64,
    derivers: u64,
    connections: u64,
    link: &mut L,
    accept: A,
    gate: &G,
    clock: &C,
) -> Ran<D, A, K>
where
    R: Threads + Wait + Sync,
    D: Disk + Send,
    D::Flush: Send,
    D::Peer: Send,
    L: Link,
    A: Accept<K> + Send,
    K: Link + Send,
    G: Gate + Sync,
    C: Clock + Sync,
    requires opened { IsOpened opened.machine.header opened.machine.history opened.journal (D.meaning opened.disk) }
    requires legal { IsLegal opened.machine.header opened.machine.history }
    requires stored { opened.machine.history ≡ stored opened.machine.history }
    requires lanes { (1 ≤ lanes) × (lanes ≤ 4096) }
    requires derivers { derivers ≤ 8 }
    ensures runs { RunsOpened D.meaning opened.machine.header opened.machine.history opened.journal (D.meaning opened.disk) lanes connections (told L.rest L.written L.faults link.old) (told L.rest L.written L.faults link.new) (links A.given A.over A.faults accept result.accept result.served) (record { status = result.status; disk = result.disk }) }
    ensures disk { is_some result.disk ≡ true }
    ensures served { IsServed (links A.given A.over A.faults accept result.accept result.served) }
    ensures other { result.other ≡ None }
    ensures load { result.load ≡ None }
    ensures link { result.link ≡ None }
{
    let OpenedFile {
        machine,
        journal,
        disk,
    } = opened;
    let state = RepoState::new(alloc, machine, journal, disk);
    let left = serve_watched::<R, D, A, K, G, C, Brand>(
        rt,
        alloc,
        state,
        accept,
        gate,
        clock,
        lanes,
        derivers,
        connections,
    );
    let Left {
        state,
        began,
        accept,
        served,
        faulted,
    } = left;
    let report = served_report(&state, began, faulted, served.count());
    Ran {
        status: end_run(report, link),
        disk: Some(closed(state)),
        other: None,
        load: None,
        served,
        link: None,
        accept,
    }
}

// What is left of a server, whether there was memory to begin, and whether a call of its accept failed.
#[derive(Drop)]
struct Left<D: Disk, A, K: Drop> {
    state: RepoState<D>,
    began: bool,
    accept: A,
    served: ServedLinks<K>,
    faulted: bool,
}

// Serves the connections of an accept that has failed so often as the last type parameter names.
fn serve_watched<R, D, A, K, G, C, N>(
    rt: &R,
    alloc: Global,
    state: RepoState<D>,
    accept: A,
    gate: &G,
    clock: &C,
    lanes: u64,
    derivers: u64,
    connections: u64,
) -> Left<D, A, K>
where
    R: Threads + Wait + Sync,
    D: Disk + Send,
    D::Flush: Send,
    D::Peer: Send,
    A: Accept<K> + Send,
    K: Link + Send,
    G: Gate + Sync,
    C: Clock + Sync,
    N: Since + Send,
    requires sealed { IsAllSealed state.history state.sealed }
    requires since { A.faults accept ≡ N.faults }
    requires lanes { (1 ≤ lanes) × (lanes ≤ 4096) }
    requires derivers { derivers ≤ 8 }
    ensures served { IsServed (links A.given A.over A.faults accept result.accept result.served) }
    ensures takes { result.began ≡ true → TakesLinks connections result.faulted (links A.given A.over A.faults accept result.accept result.served) }
    ensures memory { result.began ≡ false → TakesNone (links A.given A.over A.faults accept result.accept result.served) }
    ensures back { result.began ≡ false → result.state.disk ≡ state.disk }
    ensures opening { result.began ≡ true → result.state.opening ≡ state.opening }
    ensures begins { result.began ≡ true → IsPrefix (cleared state.history) result.state.history }
    ensures seats { result.began ≡ true → All (λ (e : Entry). e.who ≤ lanes) result.state.history }
    ensures sealed { result.began ≡ true → IsAllSealed result.state.history result.state.sealed }
    ensures told { result.began ≡ true → result.served.sealed ≤ result.state.sealed }
    ensures last { result.began ≡ true → AreLast result.state.history result.state.sealed }
    ensures own { result.began ≡ true → entries_by 0 result.state.history ≡ entries_by 0 (cleared state.history) }
{
    let watched = Watched::<A, K, N>::new(accept);
    let closing = serve_all(
        rt,
        alloc,
        state,
        watched,
        gate,
        clock,
        lanes,
        derivers,
        connections,
    );
    let Closing {
        state,
        began,
        accept,
        served,
    } = closing;
    let (accept, faulted) = accept.into_parts();
    Left {
        state,
        began,
        accept,
        served,
        faulted,
    }
}

/// The disk of a state that is done with.
pub(crate) fn closed<D: Disk>(state: RepoState<D>) -> D
    ensures disk { D.meaning result ≡ state.disk }
    ensures whole { IsSound (D.meaning result) }
    ensures state { IsSoundState state.opening state.history state.sealed (reach state) state.disk }
{
    state.into_disk()
}

// What is reported of a server, or where there was no memory to begin.
fn served_report<D: Disk>(
    state: &RepoState<D>,
    began: bool,
    faulted: bool,
    connections: u64,
) -> Report
    ensures { result ≡ (if began then served_report (is_down state.now.history) faulted connections (counts_of state.now.history).entries else NoMemoryLine) }
{
    if !began {
        Report::NoMemory
    } else if state.down() {
        Report::DiskFault
    } else if faulted {
        Report::StreamFault
    } else {
        Report::Served {
            connections,
            entries: state.counts().entries,
        }
    }
}
