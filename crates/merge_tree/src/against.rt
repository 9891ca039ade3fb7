//! Where the trees of a merge's parents don't agree.
ghost use Rattle.std.specs.Prelude.{◌≡◌, map, filter, option_map, IfOk};
ghost use Rattle.std.specs.List.{list_any};
ghost use Rattle.history_model.specs.Merge as merge;
ghost use Rattle.tree_fold.specs.View.{file_view};
ghost use Rattle.merge_tree.specs.View.{flat_view, flats_view};
ghost use Rattle.merge_tree.specs.Lesser.{lesser_of};

use crate::flat::{Flat, FlatFile};
use crate::placed::decides;
use bonsai::Changeset;
use repo_path::RepoPath;
use std::alloc::{AllocError, Global};
use std::cmp::Ordering;
use tree_fold::File;

/// The least path with a file of one parent's tree that a merge leaves against a file of the other's: another one at the
/// same path, or one above or under it that the merge leaves too. It compares each file with each of the other tree.
pub fn unresolved(
    alloc: Global,
    left: &Flat,
    right: &Flat,
    change: &Changeset,
) -> Result<Option<RepoPath>, AllocError>
    ensures { IfOk result (λ path. path ≡ merge.unresolved change.now left.now right.now) }
{
    let of_left = first_unresolved(left.files(), right.files(), change);
    let of_right = first_unresolved(right.files(), left.files(), change);
    match lesser(of_left, of_right) {
        Some(path) => Ok(Some(path.copy(alloc)?)),
        None => Ok(None),
    }
}

// The first path with a file that the changeset leaves against one of the other side.
fn first_unresolved<'a>(
    files: &'a [FlatFile],
    others: &[FlatFile],
    change: &Changeset,
) -> Option<&'a RepoPath>
    ensures { option_map (λ p. p.now) result ≡ merge.least_of (map (λ e. e.0) (filter (merge.is_unresolved change.now (flats_view others.now)) (flats_view files.now))) }
{
    for file in files {
        if is_unresolved(file, others, change) {
            return Some(&file.path);
        }
    }
    None
}

fn is_unresolved(file: &FlatFile, others: &[FlatFile], change: &Changeset) -> bool
    ensures { result ≡ merge.is_unresolved change.now (flats_view others.now) (flat_view file.now) }
{
    !decides(change, &file.path) && stands_against_any(file, others, change)
}

fn stands_against_any(file: &FlatFile, others: &[FlatFile], change: &Changeset) -> bool
    ensures { result ≡ list_any (merge.stands_against change.now (flat_view file.now)) (flats_view others.now) }
{
    for other in others {
        if stands_against(file, other, change) {
            return true;
        }
    }
    false
}

fn stands_against(file: &FlatFile, other: &FlatFile, change: &Changeset) -> bool
    ensures { result ≡ merge.stands_against change.now (flat_view file.now) (flat_view other.now) }
{
    if file.path == other.path {
        return !is_same(&file.file, &other.file);
    }
    file.path.comparable(&other.path) && !decides(change, &other.path)
}

fn is_same(file: &File, other: &File) -> bool
    ensures { result ≡ merge.file_eq (file_view file.now) (file_view other.now) }
{
    file.content == other.content
        && file.kind.to_byte() == other.kind.to_byte()
        && file.size == other.size
}

fn lesser<'a>(left: Option<&'a RepoPath>, right: Option<&'a RepoPath>) -> Option<&'a RepoPath>
    ensures { option_map (λ p. p.now) result ≡ lesser_of (option_map (λ p. p.now) left.entry) (option_map (λ p. p.now) right.entry) }
{
    let Some(of_left) = left else {
        return right;
    };
    let Some(of_right) = right else {
        return left;
    };
    match of_left.cmp(of_right) {
        Ordering::Less => left,
        Ordering::Equal | Ordering::Greater => right,
    }
}
