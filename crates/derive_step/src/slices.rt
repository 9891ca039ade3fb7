//! The edits of a changeset that lie under a directory. They stand by rising paths, so these are one slice of them.
ghost use Rattle.std.specs.Prelude.{◌≡◌, ◌≤◌, true, length};
ghost use Rattle.std.specs.FinMap.{is_sorted};
ghost use Rattle.std.specs.FinMap.Entries.{below_all};
ghost use Rattle.bonsai.specs.View.{edits_view};
ghost use Rattle.changeset_model.specs.Path.{path_cmp, path_lt};
ghost use Rattle.derive_step.specs.Slices.{edits_in, left_after, past};

use bonsai::Edit;
use repo_path::RepoPath;

/// The edits whose paths lie under a directory.
pub(crate) fn edits_under<'a>(edits: &'a [Edit], dir: &RepoPath) -> &'a [Edit]
    ensures { is_sorted path_cmp (edits_view edits.now) ≡ true → edits_view result.now ≡ edits_in dir.now (edits_view edits.now) }
{
    let after = edits_after(edits, dir);
    let count = after.partition_point(|edit| dir.is_strict_prefix(&edit.path));
    &after[..count]
}

// The edits whose paths come after that of a directory.
fn edits_after<'a>(edits: &'a [Edit], dir: &RepoPath) -> &'a [Edit]
    ensures sorted { is_sorted path_cmp (edits_view edits.now) ≡ true → is_sorted path_cmp (edits_view result.now) ≡ true }
    ensures after { is_sorted path_cmp (edits_view edits.now) ≡ true → below_all path_cmp dir.now (edits_view result.now) ≡ true }
    ensures same { is_sorted path_cmp (edits_view edits.now) ≡ true → edits_in dir.now (edits_view result.now) ≡ edits_in dir.now (edits_view edits.now) }
{
    let start = edits.partition_point(|edit| !comes_after(&edit.path, dir));
    &edits[start..]
}

/// Whether a path comes after another one.
pub(crate) fn comes_after(path: &RepoPath, other: &RepoPath) -> bool
    ensures { result ≡ path_lt other.now path.now }
{
    other < path
}

/// The edits that are left after one. Where it lies under a directory, those that follow it there are done with it.
pub(crate) fn edits_left<'a>(rest: &'a [Edit], child: Option<RepoPath>) -> &'a [Edit]
    ensures left { edits_view result.now ≡ left_after child (edits_view rest.now) }
    ensures fewer { length result.now ≤ length rest.now }
{
    match child {
        Some(dir) => edits_past(rest, &dir),
        None => rest,
    }
}

// Without the first edits that lie under a directory.
fn edits_past<'a>(edits: &'a [Edit], dir: &RepoPath) -> &'a [Edit]
    ensures left { edits_view result.now ≡ past dir.now (edits_view edits.now) }
    ensures fewer { length result.now ≤ length edits.now }
{
    let mut left = edits;
    'passing: while let Some((edit, rest)) = left.split_first() {
        if !dir.is_strict_prefix(&edit.path) {
            return left;
        }
        left = rest;
    }
    left
}
