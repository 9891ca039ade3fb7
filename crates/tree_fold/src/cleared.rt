//! The files that stand in the way of a set.
ghost use Rattle.std.specs.Prelude.{◌≡◌, ◌||◌, ◌&&◌, ◌++◌, filter, option_map, option_to_list, is_some, OnOk, IfOk};
ghost use Rattle.std.specs.List.{list_any};
ghost use Rattle.std.specs.Map.{keys_of};
ghost use Rattle.changeset_model.specs.Path.{Path, path_eq, is_strict_prefix};
ghost use Rattle.bonsai.specs.View.{edit_view, edits_view};
ghost use Rattle.tree_fold.specs.Fold.{IsFlat, clears, file_in};

use crate::file::File;
use bonsai::{Change, Edit};
use repo_path::RepoPath;
use std::alloc::{AllocError, Global};
use std::collections::BTreeMap;
use std::ops::Bound;

/// The present paths above or under a path that some edit sets, in memory of their own.
pub(crate) fn cleared_paths(
    alloc: Global,
    files: &BTreeMap<RepoPath, File>,
    edits: &[Edit],
) -> Result<Vec<RepoPath>, AllocError>
    requires { IsFlat files.now.entries }
    ensures { IfOk result (λ paths. (p : Path) → list_any (λ q. path_eq q p) paths.items ≡ (list_any (clears p) (edits_view edits.now) && is_some (file_in files.now p))) }
{
    let mut paths = Vec::new(alloc);
    for edit in edits {
        push_cleared(alloc, files, edit, &mut paths)?;
    }
    Ok(paths)
}

// Appends the present paths above and under the path that an edit sets.
fn push_cleared(
    alloc: Global,
    files: &BTreeMap<RepoPath, File>,
    edit: &Edit,
    paths: &mut Vec<RepoPath>,
) -> Result<(), AllocError>
    requires { IsFlat files.now.entries }
    ensures { OnOk result ((p : Path) → list_any (λ q. path_eq q p) paths.new.items ≡ (list_any (λ q. path_eq q p) paths.old.items || (clears p (edit_view edit.now) && is_some (file_in files.now p)))) }
{
    if let Change::Delete = &edit.change {
        return Ok(());
    }
    push_above(alloc, files, &edit.path, paths)?;
    push_under(alloc, files, &edit.path, paths)?;
    Ok(())
}

// Appends the path of the file above a path.
fn push_above(
    alloc: Global,
    files: &BTreeMap<RepoPath, File>,
    path: &RepoPath,
    paths: &mut Vec<RepoPath>,
) -> Result<(), AllocError>
    requires { IsFlat files.now.entries }
    ensures { OnOk result ((p : Path) → list_any (λ q. path_eq q p) paths.new.items ≡ (list_any (λ q. path_eq q p) paths.old.items || (is_strict_prefix p path.now && is_some (file_in files.now p)))) }
{
    if let Some(above) = file_above(files, path) {
        paths.push(above.copy(alloc)?)?;
    }
    Ok(())
}

// The file above a path. Where no file lies under another, it is the last one before the path.
fn file_above<'a>(files: &'a BTreeMap<RepoPath, File>, path: &RepoPath) -> Option<&'a RepoPath>
    requires { IsFlat files.now.entries }
    ensures { (p : Path) → list_any (λ q. path_eq q p) (option_to_list (option_map (λ q. q.now) result)) ≡ (is_strict_prefix p path.now && is_some (file_in files.now p)) }
{
    let (before, _) = files
        .range((Bound::Unbounded, Bound::Excluded(path)))
        .next_back()?;
    if before.is_strict_prefix(path) {
        Some(before)
    } else {
        None
    }
}

// Appends the paths of the files under a path, which follow it without a gap.
fn push_under(
    alloc: Global,
    files: &BTreeMap<RepoPath, File>,
    path: &RepoPath,
    paths: &mut Vec<RepoPath>,
) -> Result<(), AllocError>
    ensures { OnOk result (paths.new.items ≡ paths.old.items ++ keys_of (filter (λ e. is_strict_prefix path.now e.0) files.now.entries)) }
{
    for (present, _) in files.range((Bound::Excluded(path), Bound::Unbounded)) {
        if !path.is_strict_prefix(present) {
            return Ok(());
        }
        paths.push(present.copy(alloc)?)?;
    }
    Ok(())
}
