//! The history of a file, by its unodes.
ghost use Rattle.std.specs.Prelude.{◌≡◌, ℕ, true, List, Ok, IfOk, IfErr, OnOk};
ghost use Rattle.std.specs.BTreeMap.{insert_entry};
ghost use Rattle.std.specs.Ordering.{nat_cmp};
ghost use Rattle.changeset_model.specs.Path.{Path};
ghost use Rattle.manifest_model.specs.Merged.{history_of};
ghost use Rattle.manifest_model.specs.Unode.{Unode as ModelUnode};
ghost use Rattle.changeset_store.specs.Store.{known_at};
ghost use Rattle.unode.specs.Parts.{parents_seen};
ghost use Rattle.node_table.specs.Table.{is_settled};
ghost use Rattle.manifest_store.specs.Manifests.{AreManifests};
ghost use Rattle.manifest_store.specs.Reads.{IsAbsence, history_at};
ghost use Rattle.manifest_store.specs.Histories.{AreUnodesOf, IsFileNode, IsUnodeOf, left_seen, puts};

use crate::fault::ManifestFault;
use crate::store::ManifestStore;
use crate::walk::{Unodes, walk};
use changeset_store::ChangesetStore;
use object_id::Id;
use repo_path::RepoPath;
use std::alloc::{AllocError, Global};
use std::collections::BTreeMap;
use unode::{FileUnode, Parents, UnodeEntry};

impl ManifestStore {
    /// The changesets that made the unode of a file of a settled changeset, or one that this reaches through parents, each
    /// once, newest first.
    pub fn file_history(
        &self,
        alloc: Global,
        changesets: &ChangesetStore,
        number: u32,
        path: &RepoPath,
    ) -> Result<Vec<Id>, ManifestFault>
        requires manifests { AreManifests changesets.now.known self.now }
        requires settled { is_settled self.now number ≡ true }
        ensures ids { IfOk result (λ ids. history_at changesets.now.known number path.now ≡ Ok ids.items) }
        ensures absent { IfErr result (λ fault. IsAbsence fault (history_at changesets.now.known number path.now)) }
    {
        let Some(roots) = self.table.roots(number) else {
            unreachable!()
        };
        let unodes = Unodes { table: &self.table };
        let Some(entry) = walk(&unodes, roots.unode, Some(path)) else {
            return Err(ManifestFault::NoPath);
        };
        match entry {
            UnodeEntry::File(id) => Ok(makers(alloc, &unodes, changesets, &id)?),
            UnodeEntry::Directory(_) => Err(ManifestFault::NotAFile),
        }
    }
}

// Those that made a file's unode and what it reaches, by falling numbers: a parent's maker came before its child's, and a
// changeset makes one unode of a file at most.
fn makers(
    alloc: Global,
    unodes: &Unodes,
    changesets: &ChangesetStore,
    id: &Id,
) -> Result<Vec<Id>, AllocError>
    requires manifests { AreManifests changesets.now.known unodes.now.table.now }
    requires file { (n : ℕ) × (p : Path) × IsFileNode changesets.now.known unodes.now.table.now n p id.now }
    ensures { (n : ℕ) (p : Path) → IsFileNode changesets.now.known unodes.now.table.now n p id.now → IfOk result (λ ids. ids.items ≡ history_of changesets.now.known (known_at changesets.now.known n).id p) }
{
    let mut ids = Vec::new(alloc);
    let mut left = BTreeMap::new(alloc);
    add_node(unodes, changesets, id, &mut left)?;
    while let Some((_, file)) = left.pop_last() {
        ids.push(file.linknode)?;
        add_parents(unodes, changesets, &file.parents, &mut left)?;
    }
    Ok(ids)
}

fn add_parents(
    unodes: &Unodes,
    changesets: &ChangesetStore,
    parents: &Parents,
    left: &mut BTreeMap<u32, FileUnode>,
) -> Result<(), AllocError>
    requires { (us : List (ℕ × ModelUnode)) × AreUnodesOf unodes.now.table.now.nodes changesets.now.known (parents_seen parents.now) us }
    ensures { (us : List (ℕ × ModelUnode)) → AreUnodesOf unodes.now.table.now.nodes changesets.now.known (parents_seen parents.now) us → OnOk result (left_seen left.new ≡ puts (left_seen left.old) us) }
{
    match parents {
        Parents::Absent => Ok(()),
        Parents::One(parent) => add_node(unodes, changesets, parent, left),
        Parents::Two(first, second) => {
            add_node(unodes, changesets, first, left)?;
            add_node(unodes, changesets, second, left)
        }
    }
}

fn add_node(
    unodes: &Unodes,
    changesets: &ChangesetStore,
    id: &Id,
    left: &mut BTreeMap<u32, FileUnode>,
) -> Result<(), AllocError>
    requires { (n : ℕ) × (u : ModelUnode) × IsUnodeOf unodes.now.table.now.nodes changesets.now.known id.now n u }
    ensures { (n : ℕ) (u : ModelUnode) → IsUnodeOf unodes.now.table.now.nodes changesets.now.known id.now n u → OnOk result (left_seen left.new ≡ insert_entry nat_cmp (left_seen left.old) n u) }
{
    let Some(file) = unodes.table.file_unode(id) else {
        unreachable!()
    };
    let Some(number) = changesets.number_of(&file.linknode) else {
        unreachable!()
    };
    left.insert(number, file)?;
    Ok(())
}
