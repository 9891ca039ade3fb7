//! The log of a path, from link to link.
ghost use Rattle.std.specs.Prelude.{◌≡◌, ◌≤◌, ◌<◌, ◌+◌, ◌*◌, true, All, Ok, IfOk, IfErr, length, map};
ghost use Rattle.changeset_model.specs.Changeset.{id_of};
ghost use Rattle.changeset_store.specs.Store.{changeset_at};
ghost use Rattle.node_table.specs.Table.{is_settled};
ghost use Rattle.manifest_store.specs.Manifests.{AreManifests};
ghost use Rattle.manifest_store.specs.Reads.{IsAbsence, logged_ids, path_log_at};

use crate::fault::ManifestFault;
use crate::links::SettledLines;
use crate::store::ManifestStore;
use ancestry::Steps;
use changeset_store::ChangesetStore;
use object_id::Id;
use path_log::walk;
use repo_path::RepoPath;
use std::alloc::{AllocError, Global};
use std::marker::Brand;
use std::sync::ledger::{Blank, Ledger};

impl ManifestStore {
    /// The changesets that set a path of a settled changeset, or changed what is there, newest first: of the changeset, its
    /// first parent and so on, also those before the file was deleted and set again.
    pub fn path_log(
        &self,
        alloc: Global,
        changesets: &ChangesetStore,
        number: u32,
        path: &RepoPath,
    ) -> Result<Vec<Id>, ManifestFault>
        requires manifests { AreManifests changesets.now.known self.now }
        requires settled { is_settled self.now number ≡ true }
        ensures ids { IfOk result (λ ids. path_log_at changesets.now.known number path.now ≡ Ok ids.items) }
        ensures absent { IfErr result (λ fault. IsAbsence fault (path_log_at changesets.now.known number path.now)) }
    {
        path_log_uncounted::<Brand>(self, alloc, changesets, number, path, Blank::new(1))
    }

    /// The same. A step is a link that is looked up; there are at most two for each of these changesets and two more.
    pub fn path_log_counted<L: Ledger>(
        &self,
        alloc: Global,
        changesets: &ChangesetStore,
        number: u32,
        path: &RepoPath,
        steps: &mut Steps<L>,
    ) -> Result<Vec<Id>, ManifestFault>
        requires manifests { AreManifests changesets.now.known self.now }
        requires settled { is_settled self.now number ≡ true }
        ensures ids { IfOk result (λ ids. path_log_at changesets.now.known number path.now ≡ Ok ids.items) }
        ensures absent { IfErr result (λ fault. IsAbsence fault (path_log_at changesets.now.known number path.now)) }
        ensures counted { steps.old ≤ steps.new }
        ensures cost { steps.new ≤ steps.old + 2 * length (logged_ids changesets.now.known number path.now) + 2 }
    {
        let lines = SettledLines {
            table: &self.table,
            changesets,
        };
        let numbers = walk(alloc, &lines, number, path, steps)?;
        if numbers.is_empty() {
            return Err(ManifestFault::NoPath);
        }
        Ok(ids_at(alloc, changesets, &numbers)?)
    }
}

// The same, where nobody reads the count of steps.
fn path_log_uncounted<L: Ledger>(
    store: &ManifestStore,
    alloc: Global,
    changesets: &ChangesetStore,
    number: u32,
    path: &RepoPath,
    blank: Blank,
) -> Result<Vec<Id>, ManifestFault>
    requires name { blank.name ≡ L.name }
    requires parts { blank.parts ≡ L.parts }
    requires some { 0 < blank.parts }
    requires manifests { AreManifests changesets.now.known store.now }
    requires settled { is_settled store.now number ≡ true }
    ensures ids { IfOk result (λ ids. path_log_at changesets.now.known number path.now ≡ Ok ids.items) }
    ensures absent { IfErr result (λ fault. IsAbsence fault (path_log_at changesets.now.known number path.now)) }
{
    let mut steps = Steps::<L>::new(blank);
    store.path_log_counted(alloc, changesets, number, path, &mut steps)
}

// The ids of the changesets of these numbers.
fn ids_at(
    alloc: Global,
    changesets: &ChangesetStore,
    numbers: &[u32],
) -> Result<Vec<Id>, AllocError>
    requires { All (λ n. n < length changesets.now.known) numbers.now }
    ensures { IfOk result (λ ids. ids.items ≡ map (λ n. id_of (changeset_at changesets.now.known n)) numbers.now) }
{
    let mut ids = Vec::with_capacity(alloc, numbers.len())?;
    for number in numbers {
        ids.push(changesets.at(*number).id())?;
    }
    Ok(ids)
}
