//! Trees of the changesets of a repository.
use crate::trees::put_sizes;
use object_id::Id;
use repo_machine::Machine;
use std::alloc::{AllocError, Global};
use std::test::Fail;
use tree_fold::Tree;

/// Puts the sizes of the files at these paths of the tree of a changeset.
pub(crate) fn put_sizes_at(
    alloc: Global,
    machine: &Machine,
    head: Option<Id>,
    out: &mut String,
    paths: &str,
) -> Result<(), Fail> {
    let mut tree = Tree::new(alloc);
    grow(alloc, machine, head, &mut tree)?;
    put_sizes(alloc, &tree, out, paths)
}

// Applies a changeset and what it stands on.
fn grow(
    alloc: Global,
    machine: &Machine,
    head: Option<Id>,
    tree: &mut Tree,
) -> Result<(), AllocError> {
    let mut line = Vec::new(alloc);
    put_line_to(machine, head, &mut line)?;
    apply_line(alloc, machine, line.as_slice(), tree)
}

// The ids of a changeset and of what it stands on, newest first.
fn put_line_to(machine: &Machine, head: Option<Id>, line: &mut Vec<Id>) -> Result<(), AllocError> {
    let mut next = head;
    for _ in 0..100 {
        let Some(id) = next else {
            break;
        };
        line.push(id)?;
        next = parent_of(machine, &id);
    }
    Ok(())
}

fn parent_of(machine: &Machine, id: &Id) -> Option<Id> {
    let commit = machine.changeset(id)?;
    commit.changeset().parents().first().copied()
}

fn apply_line(
    alloc: Global,
    machine: &Machine,
    line: &[Id],
    tree: &mut Tree,
) -> Result<(), AllocError> {
    for id in line.iter().rev() {
        if let Some(commit) = machine.changeset(id) {
            tree.apply(alloc, commit.changeset())?;
        }
    }
    Ok(())
}
