//! Edits by rising paths.
ghost use Rattle.std.specs.Prelude.{◌≡◌, map, option_map, IfOk};
ghost use Rattle.std.specs.FinMap.{find as find_key};
ghost use Rattle.changeset_model.specs.Path.{path_cmp};
ghost use Rattle.std.specs.Cmp.Lexicographic.{pointwise};
ghost use Rattle.bonsai.specs.Equal.{edit_eq};
ghost use Rattle.bonsai.specs.View.{change_view, edits_view};

use crate::change::Change;
use crate::edit::Edit;
use repo_path::RepoPath;
use std::alloc::{AllocError, Global};

/// What is done at a path.
pub(crate) fn change_among<'a>(edits: &'a [Edit], path: &RepoPath) -> Option<&'a Change>
    ensures { option_map (λ c. change_view c.now) result ≡ find_key path_cmp path.now (edits_view edits.now) }
{
    for edit in edits {
        if *path == edit.path {
            return Some(&edit.change);
        }
    }
    None
}

/// The paths, in memory of their own.
pub(crate) fn paths_of(alloc: Global, edits: &[Edit]) -> Result<Vec<RepoPath>, AllocError>
    ensures { IfOk result (λ paths. paths.items ≡ map (λ e. e.path) edits.now) }
{
    let mut paths = Vec::with_capacity(alloc, edits.len())?;
    for edit in edits {
        paths.push(edit.path.copy(alloc)?)?;
    }
    Ok(paths)
}

/// Whether two lists have the same edits.
pub(crate) fn are_equal(left: &[Edit], right: &[Edit]) -> bool
    ensures { result ≡ pointwise edit_eq (edits_view left.now) (edits_view right.now) }
{
    left == right
}
