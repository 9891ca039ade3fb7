//! Files that are placed where none is.
ghost use Rattle.std.specs.Prelude.{◌≡◌, OnOk};
ghost use Rattle.std.specs.List.{list_any};
ghost use Rattle.changeset_model.specs.Path.{Path};
ghost use Rattle.history_model.specs.Tree as trees;
ghost use Rattle.bonsai.specs.View.{edit_view, edits_view};
ghost use Rattle.tree_fold.specs.Fold.{file_in};
ghost use Rattle.merge_tree.specs.View.{flat_view, flats_view};
ghost use Rattle.merge_tree.specs.Placed.{set_once, set_all, left_once, left_all};

use crate::flat::FlatFile;
use bonsai::{Change, Changeset, Edit};
use repo_path::RepoPath;
use std::alloc::{AllocError, Global};
use std::collections::BTreeMap;
use tree_fold::File;

/// Places what edits set.
pub(crate) fn place_sets(
    alloc: Global,
    files: &mut BTreeMap<RepoPath, File>,
    edits: &[Edit],
) -> Result<(), AllocError>
    ensures { OnOk result ((p : Path) → file_in files.new p ≡ set_all (edits_view edits.now) p (file_in files.old p)) }
{
    for edit in edits {
        place_set(alloc, files, edit)?;
    }
    Ok(())
}

fn place_set(
    alloc: Global,
    files: &mut BTreeMap<RepoPath, File>,
    edit: &Edit,
) -> Result<(), AllocError>
    ensures { OnOk result ((p : Path) → file_in files.new p ≡ set_once (edit_view edit.now) p (file_in files.old p)) }
{
    match &edit.change {
        Change::Set {
            content,
            kind,
            size,
            copied: _,
        } => {
            let file = File {
                content: *content,
                kind: *kind,
                size: *size,
            };
            files.insert(edit.path.copy(alloc)?, file)?;
        }
        Change::Delete => {}
    }
    Ok(())
}

/// Places the files that a changeset leaves, where no file is.
pub(crate) fn place_left(
    alloc: Global,
    files: &mut BTreeMap<RepoPath, File>,
    side: &[FlatFile],
    change: &Changeset,
) -> Result<(), AllocError>
    ensures { OnOk result ((p : Path) → file_in files.new p ≡ left_all change.now (flats_view side.now) p (file_in files.old p)) }
{
    for file in side {
        place_if_left(alloc, files, file, change)?;
    }
    Ok(())
}

fn place_if_left(
    alloc: Global,
    files: &mut BTreeMap<RepoPath, File>,
    file: &FlatFile,
    change: &Changeset,
) -> Result<(), AllocError>
    ensures { OnOk result ((p : Path) → file_in files.new p ≡ left_once change.now (flat_view file.now) p (file_in files.old p)) }
{
    if decides(change, &file.path) {
        return Ok(());
    }
    if files.contains_key(&file.path) {
        return Ok(());
    }
    files.insert(file.path.copy(alloc)?, file.file)?;
    Ok(())
}

/// Whether a changeset decides a path.
pub(crate) fn decides(change: &Changeset, path: &RepoPath) -> bool
    ensures { result ≡ trees.decides change.now path.now }
{
    is_decided(change.edits(), path)
}

fn is_decided(edits: &[Edit], path: &RepoPath) -> bool
    ensures { result ≡ list_any (λ e. trees.decides_at e.1 e.0 path.now) (edits_view edits.now) }
{
    for edit in edits {
        if decides_at(edit, path) {
            return true;
        }
    }
    false
}

fn decides_at(edit: &Edit, path: &RepoPath) -> bool
    ensures { result ≡ trees.decides_at (edit_view edit.now).1 edit.now.path path.now }
{
    match &edit.change {
        Change::Set { .. } => edit.path.comparable(path),
        Change::Delete => edit.path == *path,
    }
}
