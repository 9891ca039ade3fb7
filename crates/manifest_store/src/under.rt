//! The files under a directory, level by level.
ghost use Rattle.std.specs.Prelude.{◌≡◌, ◌≤◌, ◌&&◌, ◌||◌, ◌∷◌, ◌++◌, [], ℕ, suc, List, Some, None, if◌then◌else◌, length, IfOk, OnOk};
ghost use Rattle.std.specs.List.{AllByRecursion};
ghost use Rattle.changeset_model.specs.Path.{Path, is_path, is_prefix, is_strict_prefix, elements};
ghost use Rattle.history_model.specs.Past.{Past};
ghost use Rattle.history_model.specs.Tree.{files_in};
ghost use Rattle.manifest_model.specs.Fsnode.{fsnode};
ghost use Rattle.manifest_laws.specs.Entries.{fs_entry_at};
ghost use Rattle.fsnode.specs.Parts.{child_seen};
ghost use Rattle.manifest_store.specs.Manifests.{IsRight};
ghost use Rattle.manifest_store.specs.Moves.{HasPast, IsDirectory, Adds, has_file};
ghost use Rattle.manifest_store.specs.Reads.{dir_of};
ghost use Rattle.manifest_store.specs.Levels.{AreDirectories, AreDeep, is_reached};

use crate::nodes::fsnode_under;
use fsnode::{FsChild, FsEntry};
use node_fields::Name;
use node_table::NodeTable;
use object_id::Id;
use repo_path::{LONGEST_PATH, PathFault, RepoPath};
use std::alloc::{AllocError, Global};

/// A directory with the id of its fsnode.
#[derive(Drop)]
pub(crate) struct Directory {
    pub(crate) path: RepoPath,
    pub(crate) id: Id,
}

/// Adds all files under a directory, whose fsnode has this id. It goes through them level by level. An element of a path
/// takes a byte at least, so that no directory lies below the last turn's level.
pub(crate) fn add_files_under(
    alloc: Global,
    table: &NodeTable,
    dir: &RepoPath,
    id: &Id,
    gone: &mut Vec<RepoPath>,
) -> Result<(), AllocError>
    ensures { (past : Past) → HasPast table.now.nodes past → IsDirectory past dir.now id.now → OnOk result (Adds (λ p. has_file past p && is_strict_prefix dir.now p) gone.old.items gone.new.items) }
{
    let mut level = Vec::new(alloc);
    level.push(Directory {
        path: dir.copy(alloc)?,
        id: *id,
    })?;
    for _ in 0..LONGEST_PATH {
        if level.is_empty() {
            return Ok(());
        }
        level = level_under(alloc, table, &level, gone)?;
    }
    Ok(())
}

// Adds the files directly in these directories, and gives the directories in them.
fn level_under(
    alloc: Global,
    table: &NodeTable,
    level: &[Directory],
    gone: &mut Vec<RepoPath>,
) -> Result<Vec<Directory>, AllocError>
    ensures files { (past : Past) → HasPast table.now.nodes past → AreDirectories past level.now → IfOk result (λ next. (p : Path) → is_reached past gone.new.items next.items p ≡ is_reached past gone.old.items level.now p) }
    ensures directories { (past : Past) → HasPast table.now.nodes past → AreDirectories past level.now → IfOk result (λ next. AreDirectories past next.items) }
    ensures deeper { (n : ℕ) → AreDeep n level.now → IfOk result (λ next. AreDeep (suc n) next.items) }
{
    let mut next = Vec::new(alloc);
    for dir in level {
        add_children(alloc, table, dir, &mut next, gone)?;
    }
    Ok(next)
}

fn add_children(
    alloc: Global,
    table: &NodeTable,
    dir: &Directory,
    left: &mut Vec<Directory>,
    gone: &mut Vec<RepoPath>,
) -> Result<(), AllocError>
    ensures files { (past : Past) → HasPast table.now.nodes past → IsDirectory past dir.now.path dir.now.id → OnOk result ((p : Path) → is_reached past gone.new.items left.new.items p ≡ (is_reached past gone.old.items left.old.items p || (has_file past p && is_strict_prefix dir.now.path p))) }
    ensures directories { (past : Past) → HasPast table.now.nodes past → IsDirectory past dir.now.path dir.now.id → AreDirectories past left.old.items → OnOk result (AreDirectories past left.new.items) }
    ensures deeper { (n : ℕ) → n ≤ length dir.now.path → AreDeep (suc n) left.old.items → OnOk result (AreDeep (suc n) left.new.items) }
{
    let Some(node) = fsnode_under(alloc, table, &dir.id)? else {
        return Ok(());
    };
    for child in &node.entries {
        add_child(alloc, &dir.path, child, left, gone)?;
    }
    Ok(())
}

fn add_child(
    alloc: Global,
    dir: &RepoPath,
    child: &FsChild,
    left: &mut Vec<Directory>,
    gone: &mut Vec<RepoPath>,
) -> Result<(), AllocError>
    ensures files { (past : Past) → IsRight past → fs_entry_at (fsnode (files_in past) dir.now) (child_seen child.now).0 ≡ Some (child_seen child.now).1 → OnOk result ((p : Path) → is_reached past gone.new.items left.new.items p ≡ (is_reached past gone.old.items left.old.items p || (has_file past p && is_prefix (dir.now ++ child.now.name ∷ []) p))) }
    ensures directories { (past : Past) → IsRight past → fs_entry_at (fsnode (files_in past) dir.now) (child_seen child.now).0 ≡ Some (child_seen child.now).1 → AreDirectories past left.old.items → OnOk result (AreDirectories past left.new.items) }
    ensures deeper { (n : ℕ) → n ≤ length dir.now → AreDeep (suc n) left.old.items → OnOk result (AreDeep (suc n) left.new.items) }
{
    let Some(path) = path_in(alloc, Some(dir), &child.name)? else {
        return Ok(());
    };
    match child.entry {
        FsEntry::File { .. } => gone.push(path)?,
        FsEntry::Directory { id, .. } => left.push(Directory { path, id })?,
    }
    Ok(())
}

/// The path of a name in a directory, or in the root where none is given; `None` where that is too long for a path.
pub(crate) fn path_in(
    alloc: Global,
    dir: Option<&RepoPath>,
    name: &Name,
) -> Result<Option<RepoPath>, AllocError>
    ensures { IfOk result (λ path. path ≡ (if is_path (dir_of dir.entry ++ name.now ∷ []) then Some (dir_of dir.entry ++ name.now ∷ []) else None)) }
{
    let text = text_in(alloc, dir, name)?;
    match RepoPath::from_bytes(alloc, &text) {
        Ok(path) => Ok(Some(path)),
        Err(PathFault::BadPath { .. }) => Ok(None),
        Err(PathFault::Memory) => Err(AllocError),
    }
}

fn text_in(alloc: Global, dir: Option<&RepoPath>, name: &Name) -> Result<Vec<u8>, AllocError>
    ensures { IfOk result (λ text. elements text.items ≡ dir_of dir.entry ++ name.now ∷ []) }
{
    let Some(dir) = dir else {
        return Ok(Vec::from_slice(alloc, name.as_bytes())?);
    };
    let mut text = Vec::from_slice(alloc, dir.as_str().as_bytes())?;
    text.push(b'/')?;
    text.extend_from_slice(name.as_bytes())?;
    Ok(text)
}
