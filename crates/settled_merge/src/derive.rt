//! The derivation of what the parents of a merge lack.
ghost use Rattle.std.specs.Prelude.{◌≡◌, ◌⊎◌, true, OnOk};
ghost use Rattle.std.specs.List.{AllByRecursion};
ghost use Rattle.history_model.specs.History.{is_known};
ghost use Rattle.manifest_store.specs.Manifests.{AreManifests};
ghost use Rattle.manifest_store.specs.Merging.{are_sides_settled, is_settled_by};
ghost use Rattle.settled_merge.specs.Settling.{CollideAmong, StaySettled};

use bonsai::Changeset;
use changeset_store::ChangesetStore;
use derive_step::derive;
use manifest_store::ManifestStore;
use node_table::TableFault;
use object_id::Id;
use std::alloc::{AllocError, Global};

/// Derives what the pasts of both parents of a changeset lack, if it has two. Nothing is derived of one that isn't known, and
/// nothing more where two different nodes have one id.
pub fn derive_parents(
    alloc: Global,
    changesets: &ChangesetStore,
    manifests: &mut ManifestStore,
    change: &Changeset,
) -> Result<(), AllocError>
    requires { AreManifests changesets.now.known manifests.old }
    ensures manifests { AreManifests changesets.now.known manifests.new }
    ensures stay { StaySettled manifests.old manifests.new }
    ensures settled { OnOk result (AllByRecursion (λ p. is_known changesets.now.known p ≡ true) change.now.parents → (are_sides_settled changesets.now.known manifests.new change.now.parents ≡ true) ⊎ CollideAmong changesets.now.known) }
{
    let [first, second, ..] = change.parents() else {
        return Ok(());
    };
    derive_past(alloc, changesets, manifests, first)?;
    derive_past(alloc, changesets, manifests, second)
}

// Derives what the past of a changeset lacks, a changeset at a time, each after its parents.
fn derive_past(
    alloc: Global,
    changesets: &ChangesetStore,
    manifests: &mut ManifestStore,
    id: &Id,
) -> Result<(), AllocError>
    requires { AreManifests changesets.now.known manifests.old }
    ensures manifests { AreManifests changesets.now.known manifests.new }
    ensures stay { StaySettled manifests.old manifests.new }
    ensures settled { OnOk result (is_known changesets.now.known id.now ≡ true → (is_settled_by changesets.now.known manifests.new id.now ≡ true) ⊎ CollideAmong changesets.now.known) }
{
    let Some(number) = changesets.number_of(id) else {
        return Ok(());
    };
    while let Some(job) = manifests.next_job(alloc, changesets, number)? {
        // The job has all nodes that are looked for, so nothing but memory is wanting.
        let Ok(done) = derive(alloc, job) else {
            return Err(AllocError);
        };
        match manifests.settle(alloc, changesets, done) {
            Ok(()) => {}
            Err(TableFault::Collision { .. }) => return Ok(()),
            Err(TableFault::Memory) => return Err(AllocError),
        }
    }
    Ok(())
}
