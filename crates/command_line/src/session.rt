//! One connection, served on the repository in a file.
ghost use Rattle.std.specs.Prelude.{◌≡◌, false};
ghost use Rattle.history_model.specs.History.{stored};
ghost use Rattle.reply_model.specs.Legal.{IsLegal};
ghost use Rattle.repo_journal.specs.Opened.{IsOpened};
ghost use Rattle.command_line.specs.Outside.{outside, told};
ghost use Rattle.command_line.specs.Running.{OpensOnly, RunsSession};
ghost use Rattle.command_line.specs.Sessions.{Serves, session_status, status_of};

use crate::came::Came;
use crate::{OpenedFile, Status, open_file};
use blob_disk::Disk;
use http_front::ended::Ended;
use http_front::session::serve_session;
use ports::{Clock, Link, Opener};
use repo_state::{Alone, RepoState};
use std::alloc::Global;
use std::hash::RandomState;

fn status_of(end: Ended) -> Status
    ensures { result ≡ status_of end }
{
    match end {
        Ended::Whole | Ended::Closed => Status::Done,
        Ended::Cut { rest: _ } => Status::Cut,
        Ended::Refused { status: _ } => Status::Refused,
        Ended::Spent => Status::Spent,
        Ended::LinkFault => Status::StreamFault,
        Ended::Memory => Status::NoMemory,
    }
}

// A breaking fault is told before all else.
fn session_status(down: bool, end: Ended) -> Status
    ensures { result ≡ session_status down end }
{
    if down {
        Status::DiskFault
    } else {
        status_of(end)
    }
}

/// Serves one connection on the repository in the file of this name, and writes nothing where the file or the
/// repository in it isn't opened. The clock is read once for each landing.
pub(crate) fn run_session<D: Disk, O: Opener<D>, L: Link, C: Clock>(
    alloc: Global,
    keys: RandomState,
    file: &str,
    link: &mut L,
    opener: &mut O,
    clock: &C,
) -> Came<D>
    ensures runs { RunsSession D.meaning (C.tells clock.now) file.now (outside O.shelf O.faults L.rest L.written L.faults opener.old link.old) (outside O.shelf O.faults L.rest L.written L.faults opener.new link.new) result }
    ensures only { OpensOnly file.now false (outside O.shelf O.faults L.rest L.written L.faults opener.old link.old) (outside O.shelf O.faults L.rest L.written L.faults opener.new link.new) result.disk }
{
    match open_file(alloc, keys, opener, file) {
        Ok(opened) => serve_file(alloc, opened, link, clock),
        Err(outcome) => Came {
            status: outcome.report.status(),
            disk: outcome.disk,
        },
    }
}

fn serve_file<D: Disk, L: Link, C: Clock>(
    alloc: Global,
    opened: OpenedFile<D>,
    link: &mut L,
    clock: &C,
) -> Came<D>
    requires opened { IsOpened opened.machine.header opened.machine.history opened.journal (D.meaning opened.disk) }
    requires legal { IsLegal opened.machine.header opened.machine.history }
    requires stored { opened.machine.history ≡ stored opened.machine.history }
    ensures { Serves D.meaning (C.tells clock.now) opened.machine.header opened.machine.history opened.journal (D.meaning opened.disk) (told L.rest L.written L.faults link.old) (told L.rest L.written L.faults link.new) result }
{
    let OpenedFile {
        machine,
        journal,
        disk,
    } = opened;
    let mut alone = Alone::new(RepoState::new(alloc, machine, journal, disk));
    let end = serve_session(alloc, &mut alone, link, clock);
    let state = alone.into_state();
    let status = session_status(state.down(), end);
    Came {
        status,
        disk: Some(state.into_disk()),
    }
}
