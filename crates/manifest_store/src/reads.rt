//! Reads of a settled changeset's manifests.
ghost use Rattle.std.specs.Prelude.{◌≡◌, ℕ, List, true, Ok, Some, IfOk, IfErr};
ghost use Rattle.std.specs.FinMap as map;
ghost use Rattle.history_model.specs.History.{Known};
ghost use Rattle.node_table.specs.Table.{is_settled};
ghost use Rattle.unode.specs.Parts.{entry_seen};
ghost use Rattle.manifest_store.specs.Nodes.{entry_id};
ghost use Rattle.manifest_store.specs.Manifests.{AreManifests};
ghost use Rattle.manifest_store.specs.Reads.{IsAbsence, deleted_at, dir_of, fsnode_at, unode_at};

use crate::fault::ManifestFault;
use crate::store::ManifestStore;
use crate::walk::{DeletedNodes, Fsnodes, Unodes, walk};
use object_id::Id;
use repo_path::RepoPath;
use std::alloc::{AllocError, Global};
use unode::UnodeEntry;

impl ManifestStore {
    /// The bytes of the fsnode of a directory of a settled changeset, of its root where none is given.
    pub fn fsnode(
        &self,
        alloc: Global,
        number: u32,
        dir: Option<&RepoPath>,
    ) -> Result<Vec<u8>, ManifestFault>
        requires manifests { (ks : List Known) × AreManifests ks self.now }
        requires settled { is_settled self.now number ≡ true }
        ensures bytes { (ks : List Known) → AreManifests ks self.now → IfOk result (λ bytes. fsnode_at ks number (dir_of dir.entry) ≡ Ok bytes.items) }
        ensures absent { (ks : List Known) → AreManifests ks self.now → IfErr result (λ fault. IsAbsence fault (fsnode_at ks number (dir_of dir.entry))) }
    {
        let Some(roots) = self.table.roots(number) else {
            unreachable!()
        };
        let fsnodes = Fsnodes { table: &self.table };
        let Some(entry) = walk(&fsnodes, roots.fsnode, dir) else {
            return Err(ManifestFault::NoPath);
        };
        match entry {
            UnodeEntry::Directory(id) => Ok(self.bytes_of(alloc, &id)?),
            UnodeEntry::File(_) => Err(ManifestFault::NotADir),
        }
    }

    /// The bytes of the unode of a path of a settled changeset, of its root where none is given.
    pub fn unode(
        &self,
        alloc: Global,
        number: u32,
        path: Option<&RepoPath>,
    ) -> Result<Vec<u8>, ManifestFault>
        requires manifests { (ks : List Known) × AreManifests ks self.now }
        requires settled { is_settled self.now number ≡ true }
        ensures bytes { (ks : List Known) → AreManifests ks self.now → IfOk result (λ bytes. unode_at ks number (dir_of path.entry) ≡ Ok bytes.items) }
        ensures absent { (ks : List Known) → AreManifests ks self.now → IfErr result (λ fault. IsAbsence fault (unode_at ks number (dir_of path.entry))) }
    {
        let Some(roots) = self.table.roots(number) else {
            unreachable!()
        };
        let unodes = Unodes { table: &self.table };
        let Some(entry) = walk(&unodes, roots.unode, path) else {
            return Err(ManifestFault::NoPath);
        };
        Ok(self.bytes_of(alloc, &id_of(entry))?)
    }

    /// The bytes of the deleted node of a path of a settled changeset, of its root where none is given. There is one of the
    /// root, and of each path at which or under which a file was taken away and isn't there now.
    pub fn deleted(
        &self,
        alloc: Global,
        number: u32,
        path: Option<&RepoPath>,
    ) -> Result<Vec<u8>, ManifestFault>
        requires manifests { (ks : List Known) × AreManifests ks self.now }
        requires settled { is_settled self.now number ≡ true }
        ensures bytes { (ks : List Known) → AreManifests ks self.now → IfOk result (λ bytes. deleted_at ks number (dir_of path.entry) ≡ Ok bytes.items) }
        ensures absent { (ks : List Known) → AreManifests ks self.now → IfErr result (λ fault. IsAbsence fault (deleted_at ks number (dir_of path.entry))) }
    {
        let Some(roots) = self.table.roots(number) else {
            unreachable!()
        };
        let deleted = DeletedNodes { table: &self.table };
        let Some(entry) = walk(&deleted, roots.deleted, path) else {
            return Err(ManifestFault::NoPath);
        };
        Ok(self.bytes_of(alloc, &id_of(entry))?)
    }

    // A copy of the node that stands under an id.
    fn bytes_of(&self, alloc: Global, id: &Id) -> Result<Vec<u8>, AllocError>
        requires { (bytes : List ℕ) × (map.get self.now.nodes id.now ≡ Some bytes) }
        ensures { IfOk result (λ bytes. map.get self.now.nodes id.now ≡ Some bytes.items) }
    {
        let Some(bytes) = self.table.get(alloc, id)? else {
            unreachable!()
        };
        bytes.into_vec(alloc)
    }
}

/// The id of an entry's node.
pub(crate) fn id_of(entry: UnodeEntry) -> Id
    ensures { result ≡ entry_id (entry_seen entry) }
{
    match entry {
        UnodeEntry::Directory(id) | UnodeEntry::File(id) => id,
    }
}
