//! Files in a directory that a changeset leaves.
ghost use Rattle.std.specs.Prelude.{◌≡◌, ◌+◌, ◌≤◌, ◌++◌, filter_map, IfOk, OnOk};
ghost use Rattle.std.specs.Option.{option_to_list};
ghost use Rattle.std.specs.List.{list_any};
ghost use Rattle.fsnode.specs.Parts.{child_seen, children_seen};
ghost use Rattle.merge_walk.specs.Left.{Leaves, is_left_file, dir_in};
ghost use Rattle.merge_walk.specs.Cost.{room, cleared};
ghost use Rattle.merge_walk.specs.View.{dirs_seen};

use crate::decided::decides;
use crate::directories::{Directories, read};
use crate::joined::joined;
use ancestry::Steps;
use bonsai::Changeset;
use fsnode::{FsChild, FsEntry};
use object_id::Id;
use repo_path::RepoPath;
use std::alloc::{AllocError, Global};
use std::sync::ledger::Ledger;

/// A directory with its path.
#[derive(Debug, Drop)]
pub(crate) struct Directory {
    pub(crate) path: RepoPath,
    pub(crate) id: Id,
}

/// Whether some file in a directory, however deep, is left by a changeset. It looks until it finds one.
pub(crate) fn leaves_any<D: Directories, L: Ledger>(
    alloc: Global,
    dirs: &D,
    path: &RepoPath,
    id: Id,
    change: &Changeset,
    steps: &mut Steps<L>,
) -> Result<bool, AllocError>
    ensures leaves { IfOk result (λ left. Leaves (D.listed dirs.now) change.now path.now id left) }
    ensures counted { steps.old ≤ steps.new }
    ensures cost { steps.new ≤ steps.old + 1 + cleared (D.listed dirs.now) change.now (room path.now) path.now id }
{
    let mut rest = Vec::new(alloc);
    rest.push(Directory {
        path: path.copy(alloc)?,
        id,
    })?;
    while let Some(here) = rest.pop() {
        let entries = read(alloc, dirs, &here.id, steps)?;
        if leaves_here(alloc, &here.path, entries.as_slice(), change)? {
            return Ok(true);
        }
        push_dirs(alloc, &here.path, entries.as_slice(), &mut rest)?;
    }
    Ok(false)
}

// Whether a file directly in a directory is left.
fn leaves_here(
    alloc: Global,
    path: &RepoPath,
    entries: &[FsChild],
    change: &Changeset,
) -> Result<bool, AllocError>
    ensures { IfOk result (λ left. left ≡ list_any (is_left_file change.now path.now) (children_seen entries.now)) }
{
    for child in entries {
        if is_left(alloc, path, child, change)? {
            return Ok(true);
        }
    }
    Ok(false)
}

fn is_left(
    alloc: Global,
    path: &RepoPath,
    child: &FsChild,
    change: &Changeset,
) -> Result<bool, AllocError>
    ensures { IfOk result (λ left. left ≡ is_left_file change.now path.now (child_seen child.now)) }
{
    let FsEntry::File { .. } = &child.entry else {
        return Ok(false);
    };
    let Some(file) = joined(alloc, Some(path), &child.name)? else {
        return Ok(false);
    };
    Ok(!decides(change, &file))
}

// Adds the directories directly in a directory.
fn push_dirs(
    alloc: Global,
    path: &RepoPath,
    entries: &[FsChild],
    rest: &mut Vec<Directory>,
) -> Result<(), AllocError>
    ensures { OnOk result (dirs_seen rest.new.items ≡ dirs_seen rest.old.items ++ filter_map (dir_in path.now) (children_seen entries.now)) }
{
    for child in entries {
        push_dir(alloc, path, child, rest)?;
    }
    Ok(())
}

fn push_dir(
    alloc: Global,
    path: &RepoPath,
    child: &FsChild,
    rest: &mut Vec<Directory>,
) -> Result<(), AllocError>
    ensures { OnOk result (dirs_seen rest.new.items ≡ dirs_seen rest.old.items ++ option_to_list (dir_in path.now (child_seen child.now))) }
{
    let FsEntry::Directory { id, .. } = &child.entry else {
        return Ok(());
    };
    let Some(path) = joined(alloc, Some(path), &child.name)? else {
        return Ok(());
    };
    rest.push(Directory { path, id: *id })?;
    Ok(())
}
