//! The walk over both parents' manifests.
ghost use Rattle.std.specs.Prelude.{◌≡◌, ◌+◌, ◌<◌, ◌≤◌, ◌^◌, ◌++◌, length, ◌&&◌, not, [], List, IfOk, OnOk};
ghost use Rattle.history_model.specs.Tree.{decides as is_decided};
ghost use Rattle.changeset_model.specs.Path.{Path};
ghost use Rattle.changeset_model.specs.Changeset.{File};
ghost use Rattle.history_model.specs.Merge.{unresolved};
ghost use Rattle.fsnode.specs.Parts.{entry_seen};
ghost use Rattle.merge_walk.specs.Walk.{IsTreeAt};
ghost use Rattle.merge_walk.specs.Left.{Judged, Stands};
ghost use Rattle.merge_walk.specs.Meeting.{met as met_at, opened, is_same as are_same};
ghost use Rattle.merge_walk.specs.Cost.{room, standing, judging, opening, reads};
ghost use Rattle.merge_walk.specs.View.{dir_of, pending as pending_seen};

use crate::decided::{covers, decides};
use crate::directories::{Directories, read};
use crate::left::leaves_any;
use crate::meeting::{Meeting, is_same, lay, met};
use ancestry::Steps;
use bonsai::Changeset;
use fsnode::FsEntry;
use object_id::Id;
use repo_path::RepoPath;
use std::alloc::{AllocError, Global};
use std::sync::ledger::Ledger;

/// The least path that a merge with these root directories leaves unresolved: a file of one parent that the changeset
/// doesn't decide, where the other has another file, or one above or under it that isn't decided either. It reads no
/// directory that both parents have at its path, and none at or under a path that the changeset sets. A step is a directory
/// that is read.
pub fn least_unresolved<D: Directories, L: Ledger>(
    alloc: Global,
    dirs: &D,
    left: Id,
    right: Id,
    change: &Changeset,
    steps: &mut Steps<L>,
) -> Result<Option<RepoPath>, AllocError>
    ensures exact { IfOk result (λ path. (l r : List (Path × File)) → IsTreeAt (D.listed dirs.now) left l → IsTreeAt (D.listed dirs.now) right r → path ≡ unresolved change.now l r) }
    ensures counted { steps.old ≤ steps.new }
    ensures cost { steps.new ≤ steps.old + reads (D.listed dirs.now) change.now left right }
{
    if left == right {
        return Ok(None);
    }
    let mut pending = Vec::new(alloc);
    open(alloc, dirs, None, &left, &right, &mut pending, steps)?;
    while let Some(meeting) = pending.pop() {
        if is_unresolved(alloc, dirs, &meeting, change, steps)? {
            return Ok(Some(meeting.path));
        }
        open_met(alloc, dirs, &meeting, change, &mut pending, steps)?;
    }
    Ok(None)
}

// Whether the path of a meeting is unresolved.
fn is_unresolved<D: Directories, L: Ledger>(
    alloc: Global,
    dirs: &D,
    meeting: &Meeting,
    change: &Changeset,
    steps: &mut Steps<L>,
) -> Result<bool, AllocError>
    ensures judged { IfOk result (λ unresolved. Judged (D.listed dirs.now) change.now meeting.now.path (entry_seen meeting.now.left) (entry_seen meeting.now.right) unresolved) }
    ensures counted { steps.old ≤ steps.new }
    ensures cost { steps.new ≤ steps.old + judging (D.listed dirs.now) change.now (room meeting.now.path) meeting.now.path (entry_seen meeting.now.left) (entry_seen meeting.now.right) }
{
    match (&meeting.left, &meeting.right) {
        (FsEntry::File { .. }, FsEntry::File { .. }) => Ok(differs(meeting, change)),
        (FsEntry::File { .. }, FsEntry::Directory { id, .. }) => {
            stands(alloc, dirs, &meeting.path, *id, change, steps)
        }
        (FsEntry::Directory { id, .. }, FsEntry::File { .. }) => {
            stands(alloc, dirs, &meeting.path, *id, change, steps)
        }
        (FsEntry::Directory { .. }, FsEntry::Directory { .. }) => Ok(false),
    }
}

// Whether different entries meet at a path that is left.
fn differs(meeting: &Meeting, change: &Changeset) -> bool
    ensures { result ≡ (not (is_decided change.now meeting.now.path) && not (are_same (entry_seen meeting.now.left) (entry_seen meeting.now.right))) }
{
    !decides(change, &meeting.path) && !is_same(&meeting.left, &meeting.right)
}

// Whether a file at a path that is left stands against a file in a directory there.
fn stands<D: Directories, L: Ledger>(
    alloc: Global,
    dirs: &D,
    path: &RepoPath,
    dir: Id,
    change: &Changeset,
    steps: &mut Steps<L>,
) -> Result<bool, AllocError>
    ensures stands { IfOk result (λ stands. Stands (D.listed dirs.now) change.now path.now dir stands) }
    ensures counted { steps.old ≤ steps.new }
    ensures cost { steps.new ≤ steps.old + standing (D.listed dirs.now) change.now (room path.now) path.now dir }
{
    if decides(change, path) {
        return Ok(false);
    }
    leaves_any(alloc, dirs, path, dir, change, steps)
}

// Lays what is in two directories that meet over what is pending, unless the changeset decides all of it.
fn open_met<D: Directories, L: Ledger>(
    alloc: Global,
    dirs: &D,
    meeting: &Meeting,
    change: &Changeset,
    pending: &mut Vec<Meeting>,
    steps: &mut Steps<L>,
) -> Result<(), AllocError>
    ensures laid { OnOk result (pending_seen pending.new.items ≡ opened (D.listed dirs.now) change.now meeting.now.path (entry_seen meeting.now.left) (entry_seen meeting.now.right) ++ pending_seen pending.old.items) }
    ensures few { OnOk result (length (opened (D.listed dirs.now) change.now meeting.now.path (entry_seen meeting.now.left) (entry_seen meeting.now.right)) < 2 ^ 64) }
    ensures counted { steps.old ≤ steps.new }
    ensures cost { steps.new ≤ steps.old + opening change.now meeting.now.path (entry_seen meeting.now.left) (entry_seen meeting.now.right) }
{
    match (&meeting.left, &meeting.right) {
        (FsEntry::Directory { id: left, .. }, FsEntry::Directory { id: right, .. }) => {
            if covers(change, &meeting.path) {
                return Ok(());
            }
            open(
                alloc,
                dirs,
                Some(&meeting.path),
                left,
                right,
                pending,
                steps,
            )
        }
        _ => Ok(()),
    }
}

fn open<D: Directories, L: Ledger>(
    alloc: Global,
    dirs: &D,
    path: Option<&RepoPath>,
    left: &Id,
    right: &Id,
    pending: &mut Vec<Meeting>,
    steps: &mut Steps<L>,
) -> Result<(), AllocError>
    ensures laid { OnOk result (pending_seen pending.new.items ≡ met_at (dir_of path.entry) (D.listed dirs.now left.now) (D.listed dirs.now right.now) ++ pending_seen pending.old.items) }
    ensures few { OnOk result (length (met_at (dir_of path.entry) (D.listed dirs.now left.now) (D.listed dirs.now right.now)) < 2 ^ 64) }
    ensures counted { steps.old ≤ steps.new }
    ensures cost { steps.new ≤ steps.old + 2 }
{
    let lefts = read(alloc, dirs, left, steps)?;
    let rights = read(alloc, dirs, right, steps)?;
    let meetings = met(alloc, path, lefts.as_slice(), rights.as_slice())?;
    lay(meetings, pending)
}
