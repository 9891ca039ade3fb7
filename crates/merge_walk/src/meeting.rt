//! Where two directories have different entries under one name.
ghost use Rattle.std.specs.Prelude.{◌≡◌, true, map, option_map, IfOk, OnOk, ◌++◌};
ghost use Rattle.std.specs.Option.{option_to_list};
ghost use Rattle.std.specs.Ordering.{nat_cmp};
ghost use Rattle.std.specs.Cmp.Lexicographic.{slice_cmp};
ghost use Rattle.std.specs.FinMap.{is_sorted};
ghost use Rattle.history_model.specs.Merge.{file_eq};
ghost use Rattle.fsnode.specs.Parts.{entry_seen, child_seen, children_seen};
ghost use Rattle.merge_walk.specs.Meeting as model;
ghost use Rattle.merge_walk.specs.View.{dir_of, meeting_seen, meetings_seen, pending};

use crate::joined::joined;
use fsnode::{FsChild, FsEntry};
use repo_path::RepoPath;
use std::alloc::{AllocError, Global};
use std::cmp::Ordering;

/// A path with what either side has there.
#[derive(Debug, Drop)]
pub(crate) struct Meeting {
    pub(crate) path: RepoPath,
    pub(crate) left: FsEntry,
    pub(crate) right: FsEntry,
}

/// The names that both directories have with different entries, by rising paths. Both lists are gone up once.
pub(crate) fn met(
    alloc: Global,
    dir: Option<&RepoPath>,
    left: &[FsChild],
    right: &[FsChild],
) -> Result<Vec<Meeting>, AllocError>
    requires left_rises { is_sorted (slice_cmp nat_cmp) (children_seen left.now) ≡ true }
    requires right_rises { is_sorted (slice_cmp nat_cmp) (children_seen right.now) ≡ true }
    ensures { IfOk result (λ meetings. meetings_seen meetings.items ≡ model.met (dir_of dir.entry) (children_seen left.now) (children_seen right.now)) }
{
    let mut meetings = Vec::new(alloc);
    let mut i = 0;
    let mut j = 0;
    'walk: while i < left.len() && j < right.len() {
        let of_left = &left[i];
        let of_right = &right[j];
        match of_left.name.cmp(&of_right.name) {
            Ordering::Less => i += 1,
            Ordering::Greater => j += 1,
            Ordering::Equal => {
                push_met(alloc, dir, of_left, of_right, &mut meetings)?;
                i += 1;
                j += 1;
            }
        }
    }
    Ok(meetings)
}

// Adds the meeting of two entries of one name, if they differ.
fn push_met(
    alloc: Global,
    dir: Option<&RepoPath>,
    left: &FsChild,
    right: &FsChild,
    meetings: &mut Vec<Meeting>,
) -> Result<(), AllocError>
    ensures { OnOk result (meetings_seen meetings.new.items ≡ meetings_seen meetings.old.items ++ option_to_list (model.met_here (dir_of dir.entry) (child_seen left.now) (entry_seen right.now.entry))) }
{
    if is_same(&left.entry, &right.entry) {
        return Ok(());
    }
    let Some(path) = joined(alloc, dir, &left.name)? else {
        return Ok(());
    };
    meetings.push(Meeting {
        path,
        left: left.entry,
        right: right.entry,
    })?;
    Ok(())
}

/// Whether two entries are equal files, or directories with one id.
pub(crate) fn is_same(left: &FsEntry, right: &FsEntry) -> bool
    ensures { result ≡ model.is_same (entry_seen left.now) (entry_seen right.now) }
{
    match (left, right) {
        (
            FsEntry::File {
                content,
                kind,
                size,
            },
            FsEntry::File {
                content: other,
                kind: other_kind,
                size: other_size,
            },
        ) => content == other && kind.to_byte() == other_kind.to_byte() && size == other_size,
        (FsEntry::Directory { id, .. }, FsEntry::Directory { id: other, .. }) => id == other,
        (FsEntry::File { .. }, FsEntry::Directory { .. })
        | (FsEntry::Directory { .. }, FsEntry::File { .. }) => false,
    }
}

/// Lays meetings over those that are pending, the first of them on top.
pub(crate) fn lay(mut meetings: Vec<Meeting>, onto: &mut Vec<Meeting>) -> Result<(), AllocError>
    ensures { OnOk result (pending onto.new.items ≡ meetings_seen meetings.items ++ pending onto.old.items) }
{
    while let Some(meeting) = meetings.pop() {
        onto.push(meeting)?;
    }
    Ok(())
}
