//! Reads of manifests, which are derived where they aren't settled.
ghost use Rattle.std.specs.Prelude.{◌≡◌, true, is_some, Some, IfOk, IfErr, IfSome};
ghost use Rattle.history_model.specs.History.{known};
ghost use Rattle.reply_model.specs.After.{Answers, Derives, Looks, Roots as RootsOf, nothing};
ghost use Rattle.reply_model.specs.Reply.{FsnodeOf, UnodeOf, HistoryOf, DeletedOf, PathLogOf};
ghost use Rattle.node_table.specs.Table.{is_settled};
ghost use Rattle.changeset_store.specs.Store.{number_in};
ghost use Rattle.manifest_store.specs.Manifests.{AreManifests};
ghost use Rattle.repo_calls.specs.Asking.{bytes_answer, fault_answer, place_of};
ghost use Rattle.repo_state.specs.Manifests.{ids_answer, is_settled_id, manifest_fault, table_fault};
ghost use Rattle.settled_merge.specs.Settling.{StaySettled};

use crate::state::RepoState;
use blob_disk::Disk;
use derive_step::derive;
use manifest_store::ManifestFault;
use node_table::{Roots, TableFault};
use object_id::Id;
use repo_calls::AskFault;
use repo_path::RepoPath;
use std::alloc::Global;

impl<D: Disk> RepoState<D> {
    /// The ids of the root nodes of a changeset, or `None` where it isn't settled or isn't known. Nothing is derived, and
    /// the disk isn't asked.
    pub fn roots(&self, id: Id) -> Option<Roots>
        ensures settled { is_some result ≡ is_settled_id (known self.now.history) self.now.table id }
        ensures some { IfSome result (λ roots. Answers self.now.header self.now.history (Derives id) (RootsOf roots.fsnode roots.unode roots.deleted) nothing) }
    {
        let number = self.machine.number_of(&id)?;
        self.manifests.roots(number)
    }

    /// The bytes of the fsnode of a directory of a changeset, of its root where none is given. What the changeset's past
    /// lacks is derived first. The disk isn't asked.
    pub fn fsnode(
        &mut self,
        alloc: Global,
        id: Id,
        dir: Option<&RepoPath>,
    ) -> Result<Vec<u8>, AskFault>
        ensures answer { Answers self.old.header self.old.history (Looks (FsnodeOf id (place_of dir.entry))) (bytes_answer result) nothing }
        ensures same { self.new ≡ record self.old { table = self.new.table } }
        ensures manifests { AreManifests (known self.new.history) self.new.table }
        ensures stay { StaySettled self.old.table self.new.table }
    {
        let number = self.settle_past(alloc, id)?;
        match self.manifests.fsnode(alloc, number, dir) {
            Ok(bytes) => Ok(bytes),
            Err(fault) => Err(read_fault(fault)),
        }
    }

    /// The bytes of the unode of a file or a directory of a changeset, of its root where no path is given. What the
    /// changeset's past lacks is derived first. The disk isn't asked.
    pub fn unode(
        &mut self,
        alloc: Global,
        id: Id,
        path: Option<&RepoPath>,
    ) -> Result<Vec<u8>, AskFault>
        ensures answer { Answers self.old.header self.old.history (Looks (UnodeOf id (place_of path.entry))) (bytes_answer result) nothing }
        ensures same { self.new ≡ record self.old { table = self.new.table } }
        ensures manifests { AreManifests (known self.new.history) self.new.table }
        ensures stay { StaySettled self.old.table self.new.table }
    {
        let number = self.settle_past(alloc, id)?;
        match self.manifests.unode(alloc, number, path) {
            Ok(bytes) => Ok(bytes),
            Err(fault) => Err(read_fault(fault)),
        }
    }

    /// The changesets that made the unode of a file of a changeset, or one that this reaches through parents, each once,
    /// newest first. What the changeset's past lacks is derived first. The disk isn't asked.
    pub fn file_history(
        &mut self,
        alloc: Global,
        id: Id,
        path: &RepoPath,
    ) -> Result<Vec<Id>, AskFault>
        ensures answer { Answers self.old.header self.old.history (Looks (HistoryOf id path.now)) (ids_answer result) nothing }
        ensures same { self.new ≡ record self.old { table = self.new.table } }
        ensures manifests { AreManifests (known self.new.history) self.new.table }
        ensures stay { StaySettled self.old.table self.new.table }
    {
        let number = self.settle_past(alloc, id)?;
        let changesets = self.machine.changesets();
        match self.manifests.file_history(alloc, changesets, number, path) {
            Ok(ids) => Ok(ids),
            Err(fault) => Err(read_fault(fault)),
        }
    }

    /// The bytes of the deleted node of a path of a changeset, of its root where none is given. What the changeset's past
    /// lacks is derived first. The disk isn't asked.
    pub fn deleted(
        &mut self,
        alloc: Global,
        id: Id,
        path: Option<&RepoPath>,
    ) -> Result<Vec<u8>, AskFault>
        ensures answer { Answers self.old.header self.old.history (Looks (DeletedOf id (place_of path.entry))) (bytes_answer result) nothing }
        ensures same { self.new ≡ record self.old { table = self.new.table } }
        ensures manifests { AreManifests (known self.new.history) self.new.table }
        ensures stay { StaySettled self.old.table self.new.table }
    {
        let number = self.settle_past(alloc, id)?;
        match self.manifests.deleted(alloc, number, path) {
            Ok(bytes) => Ok(bytes),
            Err(fault) => Err(read_fault(fault)),
        }
    }

    /// The changesets of a changeset's chain that set a path, or have another file there than their first parent, newest
    /// first. What its past lacks is derived first. The disk isn't asked.
    pub fn path_log(&mut self, alloc: Global, id: Id, path: &RepoPath) -> Result<Vec<Id>, AskFault>
        ensures answer { Answers self.old.header self.old.history (Looks (PathLogOf id path.now)) (ids_answer result) nothing }
        ensures same { self.new ≡ record self.old { table = self.new.table } }
        ensures manifests { AreManifests (known self.new.history) self.new.table }
        ensures stay { StaySettled self.old.table self.new.table }
    {
        let number = self.settle_past(alloc, id)?;
        let changesets = self.machine.changesets();
        match self.manifests.path_log(alloc, changesets, number, path) {
            Ok(ids) => Ok(ids),
            Err(fault) => Err(read_fault(fault)),
        }
    }

    // The number of a changeset, which is settled by now, and all that it reaches through parents.
    fn settle_past(&mut self, alloc: Global, id: Id) -> Result<u32, AskFault>
        ensures ok { IfOk result (λ n. (number_in (known self.old.history) id ≡ Some n) × (is_settled self.new.table n ≡ true)) }
        ensures err { IfErr result (λ fault. Answers self.old.header self.old.history (Derives id) (fault_answer fault) nothing) }
        ensures same { self.new ≡ record self.old { table = self.new.table } }
        ensures manifests { AreManifests (known self.new.history) self.new.table }
        ensures stay { StaySettled self.old.table self.new.table }
    {
        while let Some(job) = self.next_job(alloc, id)? {
            // The job has all nodes that are looked for, so nothing but memory is wanting.
            let Ok(done) = derive(alloc, job) else {
                return Err(AskFault::Memory);
            };
            if let Err(fault) = self.settle(alloc, done) {
                return Err(settle_fault(fault));
            }
        }
        let Some(number) = self.machine.number_of(&id) else {
            unreachable!();
        };
        Ok(number)
    }
}

// Why a read of manifests sees nothing.
fn read_fault(fault: ManifestFault) -> AskFault
    ensures { result ≡ manifest_fault fault }
{
    match fault {
        ManifestFault::NoPath => AskFault::NoPath,
        ManifestFault::NotADir => AskFault::NotADir,
        ManifestFault::NotAFile => AskFault::NotAFile,
        ManifestFault::Memory => AskFault::Memory,
    }
}

/// Why what was derived can't be put in, as the answer to a request to derive.
pub fn settle_fault(fault: TableFault) -> AskFault
    ensures { result ≡ table_fault fault }
{
    match fault {
        TableFault::Collision { id } => AskFault::Collision { id },
        TableFault::Memory => AskFault::Memory,
    }
}
