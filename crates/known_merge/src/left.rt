//! What is left of a merge between its parents' trees.
ghost use Rattle.std.specs.Prelude.{◌≡◌, true, map, IfOk, OnOk};
ghost use Rattle.std.specs.List.{AllByRecursion};
ghost use Rattle.byte_fields.specs.Bytes.{Id};
ghost use Rattle.changeset_store.specs.Store.{number_in};
ghost use Rattle.history_model.specs.History.{is_known, with_id};
ghost use Rattle.history_model.specs.Chain.{changesets};
ghost use Rattle.merge_tree.specs.Lineage.{lineage_of, place_of};
ghost use Rattle.reply_model.specs.Reply.{unresolved_of};

use bonsai::Changeset;
use changeset_store::ChangesetStore;
use merge_tree::{Lineage, Parents, unresolved};
use repo_path::RepoPath;
use std::alloc::{AllocError, Global};

/// The least path that a changeset with two known parents leaves unresolved between their trees, or none. For a changeset
/// with one parent at most it costs nothing. For a merge the trees of all known changesets up to the later parent are worked
/// out, each from those of its parents, and each file of the one parent's is compared with each of the other's: so many files
/// are held at once as these trees have together.
pub fn left_unresolved(
    alloc: Global,
    store: &ChangesetStore,
    change: &Changeset,
) -> Result<Option<RepoPath>, AllocError>
    ensures { IfOk result (λ path. AllByRecursion (λ p. is_known store.now.known p ≡ true) change.now.parents → path ≡ unresolved_of store.now.known change.now change.now.parents) }
{
    let [first, second, ..] = change.parents() else {
        return Ok(None);
    };
    let Some(left) = store.number_of(first) else {
        return Ok(None);
    };
    let Some(right) = store.number_of(second) else {
        return Ok(None);
    };
    let lineage = lineage_of(alloc, store)?;
    let left = lineage.tree_of(alloc, left)?;
    let right = lineage.tree_of(alloc, right)?;
    unresolved(alloc, &left, &right, change)
}

// The known changesets, each with the numbers of its parents.
fn lineage_of(alloc: Global, store: &ChangesetStore) -> Result<Lineage, AllocError>
    ensures lineage { IfOk result (λ lineage. lineage ≡ lineage_of (changesets store.now.known)) }
    ensures places { OnOk result ((x : Id) → place_of (changesets store.now.known) x ≡ number_in store.now.known x) }
    ensures ids { OnOk result (map with_id (changesets store.now.known) ≡ store.now.known) }
{
    let mut lineage = Lineage::new(alloc);
    for number in 0..store.len() {
        let parents = Parents {
            first: store.parent(number),
            second: store.second_parent(number),
        };
        lineage.add(alloc, parents, store.at(number).changeset())?;
    }
    Ok(lineage)
}
