//! What a changeset decides.
ghost use Rattle.std.specs.Prelude.{◌≡◌};
ghost use Rattle.std.specs.List.{list_any};
ghost use Rattle.history_model.specs.Tree as trees;
ghost use Rattle.manifest_laws.specs.Changes as changes;
ghost use Rattle.changeset_model.specs.Path.{is_prefix};
ghost use Rattle.bonsai.specs.View.{edit_view, edits_view};

use bonsai::{Change, Changeset, Edit};
use repo_path::RepoPath;

/// Whether a changeset decides a path. It looks at each edit.
pub(crate) fn decides(change: &Changeset, path: &RepoPath) -> bool
    ensures { result ≡ trees.decides change.now path.now }
{
    is_decided(change.edits(), path)
}

fn is_decided(edits: &[Edit], path: &RepoPath) -> bool
    ensures { result ≡ list_any (λ e. trees.decides_at e.1 e.0 path.now) (edits_view edits.now) }
{
    for edit in edits {
        if decides_at(edit, path) {
            return true;
        }
    }
    false
}

fn decides_at(edit: &Edit, path: &RepoPath) -> bool
    ensures { result ≡ trees.decides_at (edit_view edit.now).1 edit.now.path path.now }
{
    match &edit.change {
        Change::Set { .. } => edit.path.comparable(path),
        Change::Delete => edit.path == *path,
    }
}

/// Whether a changeset sets a file at a path or above it, and so decides all that is under the path too.
pub(crate) fn covers(change: &Changeset, path: &RepoPath) -> bool
    ensures { result ≡ changes.is_covered change.now path.now }
{
    is_covered(change.edits(), path)
}

fn is_covered(edits: &[Edit], path: &RepoPath) -> bool
    ensures { result ≡ list_any (λ e. changes.covers e path.now) (edits_view edits.now) }
{
    for edit in edits {
        if covers_at(edit, path) {
            return true;
        }
    }
    false
}

fn covers_at(edit: &Edit, path: &RepoPath) -> bool
    ensures { result ≡ changes.covers (edit_view edit.now) path.now }
{
    match &edit.change {
        Change::Set { .. } => is_at_or_above(&edit.path, path),
        Change::Delete => false,
    }
}

fn is_at_or_above(above: &RepoPath, path: &RepoPath) -> bool
    ensures { result ≡ is_prefix above.now path.now }
{
    *above == *path || above.is_strict_prefix(path)
}
