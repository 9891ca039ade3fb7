//! What is left of a merge between its parents' trees.
ghost use Rattle.std.specs.Prelude.{◌≡◌, true, IfOk};
ghost use Rattle.std.specs.List.{AllByRecursion};
ghost use Rattle.history_model.specs.History.{is_known};
ghost use Rattle.manifest_store.specs.Manifests.{AreManifests};
ghost use Rattle.reply_model.specs.Reply.{unresolved_of};

use bonsai::Changeset;
use changeset_store::ChangesetStore;
use known_merge::left_unresolved as left_by_files;
use manifest_store::ManifestStore;
use repo_path::RepoPath;
use std::alloc::{AllocError, Global};

/// The least path that a changeset with two known parents leaves unresolved between their trees, or none. Where the manifests
/// of both are at hand, only the directories in which they differ are read. Else their trees are worked out from the first
/// changeset on, which costs as much as all trees up to theirs have files, so they are to be derived first.
pub fn left_unresolved(
    alloc: Global,
    changesets: &ChangesetStore,
    manifests: &ManifestStore,
    change: &Changeset,
) -> Result<Option<RepoPath>, AllocError>
    requires { AreManifests changesets.now.known manifests.now }
    ensures { IfOk result (λ path. AllByRecursion (λ p. is_known changesets.now.known p ≡ true) change.now.parents → path ≡ unresolved_of changesets.now.known change.now change.now.parents) }
{
    if manifests.has_sides(changesets, change) {
        return manifests.left_unresolved(alloc, changesets, change);
    }
    left_by_files(alloc, changesets, change)
}
