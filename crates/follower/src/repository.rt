//! A repository in a file follows a server.
ghost use Rattle.std.specs.Prelude.{◌≡◌, ◌↔◌, ◌≤◌, [], IfOk};
ghost use Rattle.reply_model.specs.Log.{log_lines};
ghost use Rattle.repo_calls.specs.Calls.{lines_seen};
ghost use Rattle.ports.specs.Faults.{Rose};
ghost use Rattle.bookmark_lock.specs.Opening.{Opening};
ghost use Rattle.changeset_model.specs.Version.{First};
ghost use Rattle.repo_state.specs.State.{IsSound, reach};
ghost use Rattle.follower.specs.Following.{IsFollowed};
ghost use Rattle.follower.specs.Left.{HasFollowed, open_to};
ghost use Rattle.follower.specs.declared.followed.FollowEnd.TheVariants as ends;

use crate::followed::{FollowEnd, Followed};
use crate::log_walk::follow_own;
use crate::own_repository::OwnRepository;
use blob_disk::Disk;
use bonsai::Version;
use ports::{Failed, Link};
use repo_calls::{Ask, ChangeFault, Granted, LogPage, Question, Seen};
use repo_state::RepoState;
use std::alloc::{AllocError, Global};

/// The number of no seat: what is followed was made by others.
const NO_SEAT: u64 = 0;

// What the log tells from this number on.
fn log_from<D: Disk>(
    alloc: Global,
    state: &mut RepoState<D>,
    from: u64,
) -> Result<LogPage, AllocError>
    ensures page { IfOk result (λ page. lines_seen page.entries.items ≡ log_lines state.old.history from) }
    ensures history { state.new.history ≡ state.old.history }
    ensures sealed { state.new.sealed ≡ state.old.sealed }
    ensures left { state.new.left ≡ state.old.left }
    ensures header { state.new.header ≡ state.old.header }
    ensures opening { state.new.opening ≡ state.old.opening }
    ensures faults { state.old.disk.faults ≤ state.new.disk.faults }
{
    match state.look(alloc, NO_SEAT, &Question::Log(from)) {
        Ok(Seen::Log(page)) => Ok(page),
        Ok(_) | Err(_) => Err(AllocError),
    }
}

impl<D: Disk> OwnRepository for RepoState<D> {
    ghost opening = { λ s. s.opening };

    ghost history = { λ s. s.history };

    ghost sealed = { λ s. s.sealed };

    ghost open_to = { λ s. open_to s.left };

    ghost faults = { λ s. s.disk.faults };

    fn entries(&self) -> u64 {
        self.stored_length()
    }

    fn make(&mut self, alloc: Global, ask: &Ask) -> Result<Granted, ChangeFault> {
        // It keeps its rules.
        let _length = self.history_length();
        self.store(alloc, NO_SEAT, ask)
    }

    fn told_from(&mut self, alloc: Global, from: u64) -> Result<LogPage, AllocError> {
        log_from(alloc, self, from)
    }

    #[tactic(auto, using(crate::proofs::Leavings::opens_less))]
    fn seal_first(&mut self, upto: u64) -> Result<(), Failed> {
        match self.seal(NO_SEAT, upto) {
            Ok(()) => Ok(()),
            Err(_) => Err(Failed),
        }
    }
}

// Follows a server, unless the file has the first version.
fn end_of<D: Disk, L: Link>(alloc: Global, state: &mut RepoState<D>, link: &mut L) -> FollowEnd
    ensures followed { IsFollowed state.old.opening state.old.history state.old.sealed [] [] (L.rest link.old) state.new.history state.new.sealed result }
    ensures version { result ≡ ends.OldFormat ↔ state.old.header.version ≡ First }
    ensures opens { open_to state.new.left ≤ open_to state.old.left }
    ensures opening { state.new.opening ≡ state.old.opening }
    ensures link_faults { L.faults link.old ≤ L.faults link.new }
    ensures link_cause { result ≡ ends.LinkFault → Rose (L.faults link.old) (L.faults link.new) }
    ensures disk_faults { state.old.disk.faults ≤ state.new.disk.faults }
    ensures disk_cause { result ≡ ends.DiskFault → Rose state.old.disk.faults state.new.disk.faults }
{
    // It keeps its rules, and what is sealed is stored.
    let _length = state.history_length();
    let _stored = state.stored_length();
    match state.version() {
        Version::First => FollowEnd::OldFormat,
        Version::Second => follow_own(alloc, state, link),
    }
}

/// Follows a server over a link to the end of its log: asks for page after page, and for the contents, changesets and
/// policies that they tell of, and makes the same entries here. Each is sealed before the next is asked for, and one that
/// differs from what the page tells never comes onto the disk. It begins behind what is stored already.
pub fn follow<D: Disk, L: Link>(alloc: Global, state: &mut RepoState<D>, link: &mut L) -> Followed
    ensures followed { HasFollowed state.old.opening state.old.history state.old.sealed (L.rest link.old) state.new.history state.new.sealed state.new.disk result.end }
    ensures entries { result.entries ≡ state.new.sealed }
    ensures version { result.end ≡ ends.OldFormat ↔ state.old.header.version ≡ First }
    ensures header { state.new.header ≡ state.old.header }
    ensures opening { state.new.opening ≡ state.old.opening }
    ensures sound { IsSound state.new.opening state.new.history state.new.sealed (reach state.new) state.new.disk }
    ensures link_faults { L.faults link.old ≤ L.faults link.new }
    ensures link_cause { result.end ≡ ends.LinkFault → Rose (L.faults link.old) (L.faults link.new) }
    ensures disk_faults { state.old.disk.faults ≤ state.new.disk.faults }
    ensures disk_cause { result.end ≡ ends.DiskFault → Rose state.old.disk.faults state.new.disk.faults }
{
    // It keeps its rules, and what is sealed is stored.
    let _length = state.history_length();
    let _stored = state.stored_length();
    let end = end_of(alloc, state, link);
    let _after = state.history_length();
    Followed {
        entries: state.sealed(),
        end,
    }
}
