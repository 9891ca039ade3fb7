//! Following a server into the repository in a file.
ghost use Rattle.std.specs.Prelude.{◌≡◌, false, None};
ghost use Rattle.bonsai.specs.Versions.{version_view};
ghost use Rattle.changeset_model.specs.Version.{Second};
ghost use Rattle.history_model.specs.History.{stored};
ghost use Rattle.reply_model.specs.Legal.{IsLegal};
ghost use Rattle.repo_journal.specs.Opened.{IsOpened};
ghost use Rattle.repo_state.specs.State.{IsSound};
ghost use Rattle.command_line.specs.Followed.{AsksLink, FollowsLink, FollowsOn, report_of};
ghost use Rattle.command_line.specs.Outside.{links, none_served, outside, peer, taken, told};
ghost use Rattle.command_line.specs.Running.{OpensOnly, RunsFollow, RunsOpenedOn};
ghost use Rattle.command_line.specs.Serving.{IsServed};

use crate::opening::{OpenedFile, open_file};
use crate::program::tell;
use crate::ran::{Ran, apart};
use crate::report::{Report, end_run};
use crate::serve::closed;
use blob_disk::Disk;
use bonsai::Version;
use follower::{FollowEnd, Followed, follow};
use http_front::connection::ServedLinks;
use ports::{Accept, Link, Opener};
use repo_state::RepoState;
use std::alloc::Global;
use std::hash::RandomState;

/// What came of a server: what is reported, and the link to it as it was left, if one was taken.
#[derive(Drop)]
struct Visit<K> {
    report: Report,
    link: Option<K>,
}

fn report_of(followed: Followed) -> Report
    ensures { result ≡ report_of followed.entries followed.end }
{
    match followed.end {
        FollowEnd::Same => Report::Followed {
            entries: followed.entries,
        },
        FollowEnd::LinkFault => Report::StreamFault,
        FollowEnd::BadReply { number } => Report::BadReply { number },
        FollowEnd::Differs { number } => Report::Differs { number },
        FollowEnd::Full { number } => Report::Full { number },
        FollowEnd::DiskFault => Report::DiskFault,
        FollowEnd::OldFormat => Report::OldFormat,
        FollowEnd::Memory => Report::NoMemory,
    }
}

// Follows the server over this link.
fn follow_over<D: Disk, K: Link>(alloc: Global, state: &mut RepoState<D>, link: K) -> Visit<K>
    requires { state.old.header.version ≡ Second }
    ensures { FollowsLink state.old.opening state.old.history state.old.sealed state.old.disk state.new.disk (told K.rest K.written K.faults) link result.link result.report }
{
    let mut link = link;
    let followed = follow(alloc, state, &mut link);
    Visit {
        report: report_of(followed),
        link: Some(link),
    }
}

// Follows the server over the next link of the accept. Where there is none, nothing was sent for the next entry.
fn follow_next<D: Disk, A: Accept<K>, K: Link>(
    alloc: Global,
    state: &mut RepoState<D>,
    accept: &mut A,
) -> Visit<K>
    requires { state.old.header.version ≡ Second }
    ensures asks { AsksLink state.old.opening state.old.history state.old.sealed state.old.disk state.new.disk (links A.given A.over A.faults accept.old accept.new none_served) (peer A.next_link K.rest K.written K.faults accept.old result.link) result.report }
    ensures taken { IsServed (links A.given A.over A.faults accept.old accept.new (taken none_served result.link)) }
{
    match accept.next() {
        Ok(Some(link)) => follow_over(alloc, state, link),
        Ok(None) => Visit {
            report: Report::BadReply {
                number: state.sealed(),
            },
            link: None,
        },
        Err(_) => Visit {
            report: Report::StreamFault,
            link: None,
        },
    }
}

// No link is taken where the file has the first version.
fn follow_by_version<D: Disk, A: Accept<K>, K: Link>(
    alloc: Global,
    state: &mut RepoState<D>,
    accept: &mut A,
) -> Visit<K>
    ensures follows { FollowsOn state.old.header.version state.old.opening state.old.history state.old.sealed state.old.disk state.new.disk (links A.given A.over A.faults accept.old accept.new none_served) (peer A.next_link K.rest K.written K.faults accept.old result.link) result.report }
    ensures taken { IsServed (links A.given A.over A.faults accept.old accept.new (taken none_served result.link)) }
{
    match state.version() {
        Version::First => Visit {
            report: Report::OldFormat,
            link: None,
        },
        Version::Second => follow_next(alloc, state, accept),
    }
}

fn follow_opened<D, L, A, K>(
    alloc: Global,
    opened: OpenedFile<D>,
    link: &mut L,
    accept: A,
) -> Ran<D, A, K>
where
    D: Disk,
    L: Link,
    A: Accept<K>,
    K: Link,
    requires opened { IsOpened opened.machine.header opened.machine.history opened.journal (D.meaning opened.disk) }
    requires legal { IsLegal opened.machine.header opened.machine.history }
    requires stored { opened.machine.history ≡ stored opened.machine.history }
    ensures runs { RunsOpenedOn D.meaning opened.machine.header opened.machine.history opened.journal (D.meaning opened.disk) (told L.rest L.written L.faults link.old) (told L.rest L.written L.faults link.new) (links A.given A.over A.faults accept result.accept result.served) (peer A.next_link K.rest K.written K.faults accept result.link) (record { status = result.status; disk = result.disk }) }
    ensures served { result.served ≡ none_served }
    ensures taken { IsServed (links A.given A.over A.faults accept result.accept (taken result.served result.link)) }
    ensures other { result.other ≡ None }
    ensures load { result.load ≡ None }
{
    let OpenedFile {
        machine,
        journal,
        disk,
    } = opened;
    let mut state = RepoState::new(alloc, machine, journal, disk);
    let mut accept = accept;
    let visit = follow_by_version(alloc, &mut state, &mut accept);
    Ran {
        status: end_run(visit.report, link),
        disk: Some(closed(state)),
        other: None,
        load: None,
        served: ServedLinks::new(),
        link: visit.link,
        accept,
    }
}

/// Follows the server to which the accept gives a link into the repository in the file of this name, and reports the end in one
/// line. No link is taken where the file or the repository in it isn't opened, or has the first version.
pub(crate) fn run_follow<D, O, L, A, K>(
    alloc: Global,
    keys: RandomState,
    file: &str,
    link: &mut L,
    opener: &mut O,
    accept: A,
) -> Ran<D, A, K>
where
    D: Disk,
    O: Opener<D>,
    L: Link,
    A: Accept<K>,
    K: Link,
    ensures runs { RunsFollow D.meaning file.now (outside O.shelf O.faults L.rest L.written L.faults opener.old link.old) (outside O.shelf O.faults L.rest L.written L.faults opener.new link.new) (links A.given A.over A.faults accept result.accept result.served) (peer A.next_link K.rest K.written K.faults accept result.link) (record { status = result.status; disk = result.disk }) }
    ensures only { OpensOnly file.now false (outside O.shelf O.faults L.rest L.written L.faults opener.old link.old) (outside O.shelf O.faults L.rest L.written L.faults opener.new link.new) result.disk }
    ensures served { result.served ≡ none_served }
    ensures taken { IsServed (links A.given A.over A.faults accept result.accept (taken result.served result.link)) }
    ensures other { result.other ≡ None }
    ensures load { result.load ≡ None }
{
    match open_file(alloc, keys, opener, file) {
        Ok(opened) => follow_opened(alloc, opened, link, accept),
        Err(outcome) => apart(tell(outcome, link), accept),
    }
}
