//! Files that are placed where none is.
ghost use Rattle.std.specs.Prelude.{◌≡◌, ◌||◌, ◌&&◌, true, false, is_some, is_none, if◌then◌else◌, None, Some, OnOk, OnErr, IfOk, IfSome, IfNone};
ghost use Rattle.std.specs.List.{list_any};
ghost use Rattle.std.specs.BTreeMap.{get, IsOrdered, IsUnchanged};
ghost use Rattle.changeset_model.specs.Path.{Path, path_cmp, path_eq};
ghost use Rattle.bonsai.specs.View.{edit_view, edits_view};
ghost use Rattle.tree_fold.specs.Fold.{is_set_of};

use crate::file::File;
use bonsai::{Change, Edit, FileKind};
use object_id::Id;
use repo_path::RepoPath;
use std::alloc::{AllocError, Global};
use std::collections::BTreeMap;

/// Makes a place for each file that is set where none is. After an error the files are as before.
pub(crate) fn place_new(
    alloc: Global,
    files: &mut BTreeMap<RepoPath, File>,
    edits: &[Edit],
) -> Result<(), AllocError>
    requires { IsOrdered path_cmp files.old }
    ensures placed { OnOk result ((p : Path) → list_any (is_set_of p) (edits_view edits.now) ≡ true → is_some (get path_cmp files.new p) ≡ true) }
    ensures kept { OnOk result ((p : Path) → list_any (is_set_of p) (edits_view edits.now) ≡ false → get path_cmp files.new p ≡ get path_cmp files.old p) }
    ensures err { OnErr result (IsUnchanged files.old files.new) }
    ensures ordered { IsOrdered path_cmp files.new }
{
    let placings = placings_of(alloc, files, edits)?;
    let file = blank();
    if let Err(e) = place_all(alloc, files, placings.as_slice(), &file) {
        take_back(files, placings.as_slice());
        return Err(e);
    }
    Ok(())
}

// The paths that are set where no file is.
fn placings_of<'a>(
    alloc: Global,
    files: &BTreeMap<RepoPath, File>,
    edits: &'a [Edit],
) -> Result<Vec<&'a RepoPath>, AllocError>
    ensures { IfOk result (λ placings. (p : Path) → list_any (λ n. path_eq n.now p) placings.items ≡ (list_any (is_set_of p) (edits_view edits.now) && is_none (get path_cmp files.now p))) }
{
    let mut placings = Vec::with_capacity(alloc, edits.len())?;
    for edit in edits {
        if let Some(placing) = placing_of(files, edit) {
            placings.push(placing)?;
        }
    }
    Ok(placings)
}

// The path, if it is set where no file is.
fn placing_of<'a>(files: &BTreeMap<RepoPath, File>, edit: &'a Edit) -> Option<&'a RepoPath>
    ensures some { IfSome result (λ n. (p : Path) → path_eq n.now p ≡ (is_set_of p (edit_view edit.now) && is_none (get path_cmp files.now p))) }
    ensures none { IfNone result ((p : Path) → (is_set_of p (edit_view edit.now) && is_none (get path_cmp files.now p)) ≡ false) }
{
    let Change::Set { .. } = &edit.change else {
        return None;
    };
    if files.contains_key(&edit.path) {
        return None;
    }
    Some(&edit.path)
}

// After an error some of the files may be placed.
fn place_all(
    alloc: Global,
    files: &mut BTreeMap<RepoPath, File>,
    placings: &[&RepoPath],
    file: &File,
) -> Result<(), AllocError>
    requires { IsOrdered path_cmp files.old }
    ensures placed { OnOk result ((p : Path) → list_any (λ n. path_eq n.now p) placings.now ≡ true → is_some (get path_cmp files.new p) ≡ true) }
    ensures kept { (p : Path) → list_any (λ n. path_eq n.now p) placings.now ≡ false → get path_cmp files.new p ≡ get path_cmp files.old p }
    ensures ordered { IsOrdered path_cmp files.new }
{
    for placing in placings {
        place(alloc, files, placing, file)?;
    }
    Ok(())
}

fn place(
    alloc: Global,
    files: &mut BTreeMap<RepoPath, File>,
    path: &RepoPath,
    file: &File,
) -> Result<(), AllocError>
    requires { IsOrdered path_cmp files.old }
    ensures ok { OnOk result ((p : Path) → get path_cmp files.new p ≡ (if path_eq path.now p then Some file.now else get path_cmp files.old p)) }
    ensures err { OnErr result (IsUnchanged files.old files.new) }
    ensures ordered { IsOrdered path_cmp files.new }
{
    files.insert(path.copy(alloc)?, *file)?;
    Ok(())
}

fn take_back(files: &mut BTreeMap<RepoPath, File>, placings: &[&RepoPath])
    requires { IsOrdered path_cmp files.old }
    ensures taken { (p : Path) → get path_cmp files.new p ≡ (if list_any (λ n. path_eq n.now p) placings.now then None else get path_cmp files.old p) }
    ensures ordered { IsOrdered path_cmp files.new }
{
    for placing in placings {
        files.remove(*placing);
    }
}

// What keeps a place until a file is put there.
fn blank() -> File {
    File {
        content: Id::from_bytes([0; 32]),
        kind: FileKind::Regular,
        size: 0,
    }
}
