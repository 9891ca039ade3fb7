//! What the edits of a changeset decide.
ghost use Rattle.std.specs.Prelude.{◌≡◌, ◌++◌, ◌∷◌, [], true, None, IfOk, OnOk};
ghost use Rattle.std.specs.List.{list_any};
ghost use Rattle.std.specs.FinMap.{is_sorted};
ghost use Rattle.changeset_model.specs.Path.{comparable, path_cmp, path_eq, path_lt};
ghost use Rattle.changeset_model.specs.Changeset.{Changeset, is_changeset, self_conflict};
ghost use Rattle.bonsai.specs.View.{edit_view, edits_view};
ghost use Rattle.derive_step.specs.Covering.{paths_seen, paths_set};
ghost use Rattle.manifest_store.specs.Deciding.{AreDecided};
ghost use Rattle.manifest_store.specs.Moves.{settles as settled_by};

use bonsai::{Change, Edit};
use repo_path::RepoPath;
use std::alloc::{AllocError, Global};

/// Edits by rising paths, and the paths that they set, none of which lies under another.
#[derive(Clone, Copy)]
pub(crate) struct Decided<'a> {
    pub(crate) edits: &'a [Edit],
    pub(crate) sets: &'a [&'a RepoPath],
    pub(crate) ghost rules: { ∥ AreDecided (edits_view edits.now) (paths_seen sets.now) ∥₁ },
}

impl<'a> Decided<'a> {
    /// Whether one of the edits decides what is at a path: one that sets a file decides it there, above it and under it, one
    /// that deletes a file only there.
    pub(crate) fn settles(&self, path: &RepoPath) -> bool
        ensures { result ≡ list_any (λ e. settled_by e path.now) (edits_view self.now.edits.now) }
    {
        is_set_near(self.sets, path) || is_edited(self.edits, path)
    }
}

// Whether one of these paths is a path, or lies above it or under it. None lies under another, so it can only be the last
// that doesn't come after the path, or the one that follows.
fn is_set_near(sets: &[&RepoPath], path: &RepoPath) -> bool
    ensures { (c : Changeset) → is_changeset c ≡ true → self_conflict c ≡ None → paths_seen sets.now ≡ paths_set c.changes → result ≡ list_any (λ q. comparable q path.now) (paths_seen sets.now) }
{
    let count = sets.partition_point(|set| !comes_after(set, path));
    if count > 0 && sets[count - 1].comparable(path) {
        return true;
    }
    count < sets.len() && sets[count].comparable(path)
}

// Whether one of the edits is of a path.
fn is_edited(edits: &[Edit], path: &RepoPath) -> bool
    ensures { is_sorted path_cmp (edits_view edits.now) ≡ true → result ≡ list_any (λ e. path_eq e.0 path.now) (edits_view edits.now) }
{
    let count = edits.partition_point(|edit| !comes_after(&edit.path, path));
    count > 0 && edits[count - 1].path == *path
}

fn comes_after(path: &RepoPath, other: &RepoPath) -> bool
    ensures { result ≡ path_lt other.now path.now }
{
    other < path
}

/// The paths that edits set.
pub(crate) fn set_paths<'a>(
    alloc: Global,
    edits: &'a [Edit],
) -> Result<Vec<&'a RepoPath>, AllocError>
    ensures { IfOk result (λ paths. paths_seen paths.items ≡ paths_set (edits_view edits.now)) }
{
    let mut paths = Vec::with_capacity(alloc, edits.len())?;
    for edit in edits {
        push_set(&mut paths, edit)?;
    }
    Ok(paths)
}

// Puts the path to the paths, if the edit sets it.
fn push_set<'a>(paths: &mut Vec<&'a RepoPath>, edit: &'a Edit) -> Result<(), AllocError>
    ensures { OnOk result (paths_seen paths.new.items ≡ paths_seen paths.old.items ++ paths_set (edit_view edit.now ∷ [])) }
{
    if let Change::Set { .. } = &edit.change {
        paths.push(&edit.path)?;
    }
    Ok(())
}
