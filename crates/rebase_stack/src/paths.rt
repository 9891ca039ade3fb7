//! The paths that a stack touches.
ghost use Rattle.std.specs.Prelude.{◌≡◌, ◌++◌, map, IfOk, OnOk};
ghost use Rattle.changeset_model.specs.Path.{IsRising};
ghost use Rattle.changeset_model.specs.Changeset.{touched_paths};

use bonsai::{Changeset, Edit};
use repo_path::RepoPath;
use std::alloc::{AllocError, Global};

/// The paths that some changeset of a stack sets or deletes, rising, each once, borrowed from the changesets. They are put
/// in order by one sort, and it fails only for want of memory.
pub fn touched<'a>(alloc: Global, stack: &[&'a Changeset]) -> Result<Vec<&'a RepoPath>, AllocError>
    ensures touched { IfOk result (λ paths. map (λ p. p.now) paths.items ≡ touched_paths (map (λ c. c.now) stack.now)) }
    ensures rising { IfOk result (λ paths. IsRising (map (λ p. p.now) paths.items)) }
{
    let mut paths = Vec::with_capacity(alloc, count_of_edits(stack))?;
    for changeset in stack {
        push_paths(&mut paths, changeset.edits())?;
    }
    paths.sort()?;
    paths.dedup();
    Ok(paths)
}

// How many edits the changesets have together, or the most that can be counted.
fn count_of_edits(stack: &[&Changeset]) -> usize {
    let mut count: usize = 0;
    for changeset in stack {
        count = count.saturating_add(changeset.edits().len());
    }
    count
}

// Puts the paths of some edits behind others.
fn push_paths<'a>(paths: &mut Vec<&'a RepoPath>, edits: &'a [Edit]) -> Result<(), AllocError>
    ensures { OnOk result (map (λ p. p.now) paths.new.items ≡ map (λ p. p.now) paths.old.items ++ map (λ e. e.path) edits.now) }
{
    for edit in edits {
        paths.push(&edit.path)?;
    }
    Ok(())
}
