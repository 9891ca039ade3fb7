//! Changes and reads of other seats while a seat's sync runs.
ghost use Rattle.std.specs.Prelude.{◌≡◌, ◌+◌, ◌≤◌, ◌^◌};
ghost use Rattle.repo_state.specs.State.{IsAllSealed};

use crate::repository::{new_disk, repository_on};
use crate::waiting::{MOST_TURNS, Meanwhile, Waiting};
use blob_disk::Disk;
use ports::NoGate;
use repo_calls::{Ask, Question, Seat, Seen};
use repo_state::RepoState;
use shared_repo::{Repo, RepoSeat, Served};
use std::alloc::{AllocError, Global};
use std::sync::{Arc, Wait};
use std::test::Fail;
use std::thread;
use std::thread::{Threads, for_each_mut};

// What a seat does.
#[derive(Clone, Copy, PartialEq, Eq)]
enum Part {
    // Changes the repository, by a seal whose first sync is waited for.
    First,
    // Changes it while that sync runs.
    Second,
    // Reads, while that sync runs, until both changes are seen.
    Reader,
}

const PARTS: [Part; 3] = [Part::First, Part::Second, Part::Reader];

// A seat, its part, what it waits for, and whether all came as it was to.
#[derive(Drop)]
struct Player<'a, S: Seat + Drop> {
    seat: S,
    part: Part,
    meanwhile: &'a Meanwhile,
    fine: bool,
}

impl<'a, S: Seat + Drop> Player<'a, S> {
    fn play(&mut self, alloc: Global) {
        self.fine = match self.part {
            Part::First => self.puts(alloc, b"abc"),
            Part::Second => {
                self.meanwhile.wait_for_sync();
                self.puts(alloc, b"")
            }
            Part::Reader => {
                self.meanwhile.wait_for_sync();
                let seen = self.sees(alloc, 2);
                self.meanwhile.see();
                seen
            }
        };
    }

    fn puts(&mut self, alloc: Global, bytes: &[u8]) -> bool {
        self.seat.change(alloc, &Ask::PutContent(bytes)).is_ok()
    }

    // Reads until the log has so many entries.
    fn sees(&mut self, alloc: Global, entries: u64) -> bool {
        for _ in 0..MOST_TURNS {
            if self.count(alloc) == Some(entries) {
                return true;
            }
            thread::yield_now();
        }
        false
    }

    fn count(&mut self, alloc: Global) -> Option<u64> {
        match self.seat.look(alloc, &Question::Log(0)) {
            Ok(Seen::Log(page)) => Some(page.total),
            _ => None,
        }
    }
}

// A player for each part, at a seat of its own.
fn players<'a, R: Wait, D: Disk>(
    rt: &'a R,
    alloc: Global,
    repo: &'a Repo<D>,
    lead: &mut RepoSeat,
    meanwhile: &'a Meanwhile,
) -> Result<Vec<Player<'a, Served<'a, R, D, NoGate>>>, AllocError>
    requires place { lead.old.lock ≡ repo.now }
    requires leads { lead.old.number ≡ 0 }
    requires room { lead.old.split + 3 ≤ 2 ^ 63 }
    ensures place { lead.new.lock ≡ repo.now }
{
    let mut players = Vec::new(alloc);
    for part in PARTS {
        let seat = Served::new(rt, repo, repo.split(lead), &NoGate);
        players.push(Player {
            seat,
            part,
            meanwhile,
            fine: false,
        })?;
    }
    Ok(players)
}

// Each plays in a thread of its own. Whether all came as it was to.
fn play_all<R: Threads + Sync, S: Seat + Drop + Send>(
    rt: &R,
    alloc: Global,
    players: &mut [Player<S>],
) -> bool {
    for_each_mut(
        rt,
        players,
        3,
        &|_, player: &mut Player<S>| {
            player.play(alloc);
        },
    );
    players.iter().all(|player| player.fine)
}

// Whether all came as it was to, in a repository that these seats share.
fn played<R: Threads + Wait + Sync, D: Disk + Send>(
    rt: &R,
    alloc: Global,
    state: RepoState<D>,
    meanwhile: &Meanwhile,
) -> Result<bool, Fail>
where
    D::Flush: Send,
    D::Peer: Send,
    requires sealed { IsAllSealed state.history state.sealed }
{
    let Ok((repo, mut lead)) = Repo::new(alloc, state) else {
        return Err(Fail::from(AllocError));
    };
    Ok(played_on(rt, alloc, &repo, &mut lead, meanwhile)?)
}

// The same of this repository.
fn played_on<'a, R: Threads + Wait + Sync, D: Disk + Send>(
    rt: &'a R,
    alloc: Global,
    repo: &'a Repo<D>,
    lead: &mut RepoSeat,
    meanwhile: &'a Meanwhile,
) -> Result<bool, AllocError>
where
    D::Flush: Send,
    D::Peer: Send,
    requires place { lead.old.lock ≡ repo.now }
    requires leads { lead.old.number ≡ 0 }
    requires room { lead.old.split + 3 ≤ 2 ^ 63 }
{
    let mut seated = players(rt, alloc, repo, lead, meanwhile)?;
    Ok(play_all(rt, alloc, seated.as_mut_slice()))
}

// The first sync that is run ends once both changes were read. The seal of each change is two syncs, of which no wait was
// given up.
#[test]
fn reads_and_changes_go_on_while_a_sync_runs(rt: HostRuntime) -> Result<(), Fail> {
    let alloc = rt.alloc();
    let meanwhile = Arc::new(alloc, Meanwhile::new())?;
    let disk = Waiting::new(new_disk(alloc, &[])?, Arc::try_clone(&meanwhile)?);
    let fine = played(&rt, alloc, repository_on(alloc, disk)?, &meanwhile)?;
    assert!(rt; fine);
    assert_eq!(rt; meanwhile.told(), (4, 0));
    Ok(())
}
