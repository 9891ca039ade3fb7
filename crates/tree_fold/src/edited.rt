//! Edits of files.
ghost use Rattle.std.specs.Prelude.{◌≡◌, if◌then◌else◌, None};
ghost use Rattle.std.specs.List.{list_any};
ghost use Rattle.std.specs.BTreeMap.{IsOrdered};
ghost use Rattle.changeset_model.specs.Path.{Path, path_cmp, path_eq};
ghost use Rattle.bonsai.specs.View.{edit_view, edits_view};
ghost use Rattle.tree_fold.specs.Fold.{edited, edited_once, file_in};

use crate::file::File;
use bonsai::{Change, Edit};
use repo_path::RepoPath;
use std::collections::BTreeMap;

/// Puts the files that are set in the place of those that are there, and removes those that are deleted.
pub(crate) fn edit_all(files: &mut BTreeMap<RepoPath, File>, edits: &[Edit])
    requires { IsOrdered path_cmp files.old }
    ensures edited { (p : Path) → file_in files.new p ≡ edited (edits_view edits.now) p (file_in files.old p) }
    ensures ordered { IsOrdered path_cmp files.new }
{
    for edit in edits {
        edit_one(files, edit);
    }
}

fn edit_one(files: &mut BTreeMap<RepoPath, File>, edit: &Edit)
    requires { IsOrdered path_cmp files.old }
    ensures edited { (p : Path) → file_in files.new p ≡ edited_once (edit_view edit.now) p (file_in files.old p) }
    ensures ordered { IsOrdered path_cmp files.new }
{
    match &edit.change {
        Change::Set {
            content,
            kind,
            size,
            copied: _,
        } => {
            if let Some(file) = files.get_mut(&edit.path) {
                *file = File {
                    content: *content,
                    kind: *kind,
                    size: *size,
                };
            }
        }
        Change::Delete => {
            files.remove(&edit.path);
        }
    }
}

/// Removes the files at these paths.
pub(crate) fn remove_all(files: &mut BTreeMap<RepoPath, File>, paths: &[RepoPath])
    requires { IsOrdered path_cmp files.old }
    ensures removed { (p : Path) → file_in files.new p ≡ (if list_any (λ q. path_eq q p) paths.now then None else file_in files.old p) }
    ensures ordered { IsOrdered path_cmp files.new }
{
    for path in paths {
        files.remove(path);
    }
}
