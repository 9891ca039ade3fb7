//! The repository.
ghost use Rattle.std.specs.Prelude.{◌≡◌, ◌≤◌, length};
ghost use Rattle.history_model.specs.History.{bodies, is_down, known, stored};
ghost use Rattle.reply_model.specs.Legal.{IsLegal};
ghost use Rattle.core_model.specs.Core.{opened};
ghost use Rattle.landing_core.specs.Steps.{Shows};
ghost use Rattle.node_table.specs.Table.{empty_table};
ghost use Rattle.repo_journal.specs.Opened.{IsOpened};
ghost use Rattle.repo_state.specs.Cores.{ShowsLeft, ShowsTable};
ghost use Rattle.repo_state.specs.State.{IsSound, LeavesNow, opening_of, reach};

use crate::left::Left;
use blob_disk::Disk;
use bookmark_lock::Recorded;
use manifest_store::ManifestStore;
use repo_journal::Journal;
use repo_machine::Machine;
use std::alloc::Global;
use std::marker::Model;
use std::snapshot::Snapshot;

/// A repository in a file: what is known of it, how many of its stored entries are sealed, the manifests that were derived,
/// the journal, in which the records of the other entries wait, and the disk.
#[derive(Drop)]
pub struct RepoState<D: Disk> {
    pub(crate) machine: Machine,
    pub(crate) sealed: u64,
    pub(crate) manifests: ManifestStore,
    pub(crate) journal: Journal,
    // How many entries are stored up to the end of the group whose seal was begun last.
    pub(crate) group_end: u64,
    pub(crate) disk: D,
    // The disk as it was once all was read.
    pub(crate) first: Snapshot<D>,
}

impl<D: Disk> Model for RepoState<D> {
    ghost use Rattle.repo_state.specs.Groups.{left_of, reach_of};
    ghost use Rattle.repo_state.specs.State.{State, IsSound, Agrees, HasFaultRoom, opening_of};
    ghost use Rattle.repo_state.specs.Manifests.{HasManifests};

    ghost Value = { State };

    ghost use Rattle.std.specs.Coded.{codes};
    ghost use Rattle.node_table.specs.Table.{coded_table};

    ghost coded = { Prim.hlevel (codes, coded_table) };

    ghost view = { λ s. record {
      header = s.machine.header;
      history = s.machine.history;
      sealed = s.sealed;
      pending = s.journal.pending;
      left = left_of s.group_end s.journal.left;
      room = s.machine.room;
      table = s.manifests;
      disk = D.meaning s.disk;
      opening = opening_of s.machine.header s.journal.opening (D.meaning s.first.value);
    } };

    ghost invariant = { λ s. ((IsSound (opening_of s.machine.header s.journal.opening (D.meaning s.first.value)) s.machine.history s.sealed (reach_of s.sealed (left_of s.group_end s.journal.left)) (D.meaning s.disk)
        × Agrees s.machine.header s.machine.history s.sealed s.group_end s.journal (D.meaning s.disk))
        × HasFaultRoom s.machine.history s.sealed s.machine.room)
        × HasManifests s.machine.header s.machine.history s.manifests };
}

impl<D: Disk> RepoState<D> {
    /// The repository of one opened file, in which all is sealed, and of which no changeset's manifests are derived yet.
    pub fn new(alloc: Global, machine: Machine, journal: Journal, disk: D) -> Self
        requires opened { IsOpened machine.header machine.history journal (D.meaning disk) }
        requires legal { IsLegal machine.header machine.history }
        requires unseated { machine.history ≡ stored machine.history }
        ensures header { result.header ≡ machine.header }
        ensures history { result.history ≡ machine.history }
        ensures sealed { result.sealed ≡ length (bodies machine.history) }
        ensures disk { result.disk ≡ D.meaning disk }
        ensures opening { result.opening ≡ opening_of machine.header journal.opening (D.meaning disk) }
        ensures sound { IsSound result.opening result.history result.sealed (reach result) result.disk }
        ensures leaves_now { LeavesNow result }
        ensures table { result.table ≡ empty_table }

        // As the repository of many seats begins.
        ensures core { Shows result.history result.sealed (opened result.history) }
        ensures core_left { ShowsLeft result.left (opened result.history) }
        ensures core_table { ShowsTable (known result.history) result.table (opened result.history) }
    {
        let first = Snapshot::of(&disk);
        // The header's capacity is within the limits.
        let _changesets = machine.changesets();
        let sealed = machine.stored_length();
        RepoState {
            machine,
            sealed,
            manifests: ManifestStore::new(alloc),
            journal,
            group_end: sealed,
            disk,
            first,
        }
    }

    /// Its disk.
    pub fn into_disk(self) -> D
        ensures disk { D.meaning result ≡ self.disk }
        ensures sound { IsSound self.opening self.history self.sealed (reach self) self.disk }
        ensures leaves_now { LeavesNow self }
    {
        self.disk
    }

    /// Whether the disk failed so that nothing more is stored.
    pub fn down(&self) -> bool
        ensures { result ≡ is_down self.now.history }
    {
        self.machine.down()
    }

    /// The group whose seal was begun and isn't done, or was cut off by a call of the disk that failed.
    pub fn left(&self) -> Option<Left>
        ensures { result ≡ self.now.left }
    {
        let left = self.journal.left()?;
        Some(Left {
            upto: self.group_end,
            at: left.at,
        })
    }

    /// How many entries the history has, with its faults.
    pub fn history_length(&self) -> u64
        ensures length { result ≡ length self.now.history }
        ensures header { self.now.header ≡ self.now.opening.header }
        ensures sound { IsSound self.now.opening self.now.history self.now.sealed (reach self.now) self.now.disk }
        ensures leaves_now { LeavesNow self.now }
    {
        self.machine.history_length()
    }

    /// How many entries are stored, sealed or waiting.
    pub fn stored_length(&self) -> u64
        ensures length { result ≡ length (bodies self.now.history) }
        ensures most { self.now.sealed ≤ result }
    {
        self.machine.stored_length()
    }

    /// How many of the stored entries are sealed.
    pub fn sealed(&self) -> u64
        ensures { result ≡ self.now.sealed }
    {
        self.sealed
    }
}

impl<D: Disk> Recorded for RepoState<D> {
    ghost history = { λ s. s.history };

    ghost opening = { λ s. s.opening };

    ghost sealed = { λ s. s.sealed };

    ghost reach = { reach };

    ghost most = { 1 };

    ghost disk = { λ s. s.disk };

    fn length_word(&self) -> u64 {
        self.history_length()
    }

    fn sealed_count(&self) -> u64 {
        self.sealed()
    }
}
