//! The paths of a list that lie under no other one of it.
ghost use Rattle.std.specs.Prelude.{◌≡◌, ◌≤◌, ◌&&◌, ◌-◌, nat_lt, length, map, List, [], Option, option_map, slice_index_or, Contains, IfOk};
ghost use Rattle.changeset_model.specs.Path.{Path, comparable, rising, IsRising};
ghost use Rattle.history_model.specs.Pushrebase.{clash as clash_of};
ghost use Rattle.path_conflict.specs.Places.{paths_of, AreApart};
ghost use Rattle.path_conflict.specs.Best.{IsBest, pair_of};
ghost use Rattle.path_conflict.specs.declared.lesser.Met.{Met};

use repo_path::RepoPath;
use std::alloc::{AllocError, Global};

/// The paths of a rising list that lie under no other one of it, rising. What clashes with some path of the list clashes
/// with one of these, and the least path that clashes is one of these: so the least clash of these with the paths of any
/// list, one at a time and in any order, is that of the whole list with that one.
pub fn outermost<'a>(alloc: Global, paths: &[&'a RepoPath]) -> Result<Vec<&'a RepoPath>, AllocError>
    requires { IsRising (paths_of paths.now) }
    ensures rising { IfOk result (λ outer. IsRising (paths_of outer.items)) }
    ensures apart { IfOk result (λ outer. AreApart (paths_of outer.items)) }
    ensures among { IfOk result (λ outer. (o : Path) → Contains (paths_of outer.items) o → Contains (paths_of paths.now) o) }
    ensures few { IfOk result (λ outer. length outer.items ≤ length paths.now) }
    ensures same_clash { IfOk result (λ outer. (seen : List Path) (met : Option Met) → IsBest (paths_of outer.items) seen met → clash_of (paths_of paths.now) (rising seen) ≡ option_map (pair_of (paths_of outer.items)) met) }
{
    let mut outer = Vec::with_capacity(alloc, paths.len())?;
    for path in paths {
        if meets_last(outer.as_slice(), path) {
            continue;
        }
        outer.push(*path)?;
    }
    Ok(outer)
}

// Whether a path is comparable with the last of a list.
fn meets_last(outer: &[&RepoPath], path: &RepoPath) -> bool
    ensures { result ≡ (nat_lt 0 (length (paths_of outer.now)) && comparable (slice_index_or (paths_of outer.now) (length (paths_of outer.now) - 1) []) path.now) }
{
    if outer.is_empty() {
        return false;
    }
    outer[outer.len() - 1].comparable(path)
}
