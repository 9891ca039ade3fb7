//! The nodes of the parent in the directories that a changeset touches.
ghost use Rattle.std.specs.Prelude.{◌≡◌, ◌↔◌, ◌++◌, ◌∷◌, [], true, is_some, option_map, Some, IfOk, IfSome, OnOk, IsTrue};
ghost use Rattle.std.specs.List.{list_any};
ghost use Rattle.std.specs.Option.{option_and_then, option_copied};
ghost use Rattle.bonsai.specs.View.{edits_view};
ghost use Rattle.changeset_model.specs.Path.{Path, elements, is_path};
ghost use Rattle.derive_step.specs.Touched.{is_above};
ghost use Rattle.derive_step.specs.Renewal.{before_of};
ghost use Rattle.derive_step.specs.Views.{before_seen};
ghost use Rattle.manifest_store.specs.Nodes.{child_under as child_in_table, dir_from, dir_ids};
ghost use Rattle.manifest_store.specs.Dirs.{AreDirs, AreFull, IsFull, IsMore, found};
ghost use Rattle.manifest_store.specs.Parents.{IsParentIn};
ghost use Rattle.manifest_store.specs.Reads.{dir_of};

use crate::nodes::{child_ids, dir_under};
use crate::place::{front_of, parted};
use bonsai::Edit;
use derive_step::{DirIds, DirNodes, Parent, text_above};
use node_table::{NodeTable, Roots};
use repo_path::{RepoPath, has_elements, path_of};
use std::alloc::{AllocError, Global};
use std::collections::BTreeMap;

/// Nodes of directories other than the root.
pub(crate) type Dirs = BTreeMap<RepoPath, DirNodes>;

/// Of a settled changeset: the nodes of the root, and of the directories above edits that are there.
pub(crate) fn parent_nodes(
    alloc: Global,
    table: &NodeTable,
    number: u32,
    edits: &[Edit],
) -> Result<Option<Parent>, AllocError>
    ensures nodes { IfOk result (λ parent. IsParentIn table.now number (edits_view edits.now) parent) }
    ensures dirs { IfOk result (λ parent. IfSome parent (λ p. AreDirs table.now.nodes (before_seen p.root) p.dirs)) }
{
    let Some(roots) = table.roots(number) else {
        return Ok(None);
    };
    let Some(root) = dir_under(alloc, table, &ids_of(&roots))? else {
        return Ok(None);
    };
    let mut dirs = BTreeMap::new(alloc);
    add_all_above(alloc, table, &root, edits, &mut dirs)?;
    Ok(Some(Parent { roots, root, dirs }))
}

// The ids of the root's fsnode and unode.
fn ids_of(roots: &Roots) -> DirIds
    ensures { result ≡ dir_ids roots.now }
{
    DirIds {
        fsnode: roots.fsnode,
        unode: roots.unode,
    }
}

// Adds the directories above edits. Neighbours often lie in one directory.
fn add_all_above(
    alloc: Global,
    table: &NodeTable,
    root: &DirNodes,
    edits: &[Edit],
    dirs: &mut Dirs,
) -> Result<(), AllocError>
    requires { AreDirs table.now.nodes (before_seen root.now) dirs.old }
    ensures dirs { OnOk result (AreDirs table.now.nodes (before_seen root.now) dirs.new) }
    ensures full { OnOk result ((d : Path) → list_any (λ e. is_above d e.0) (edits_view edits.now) ≡ true → IsFull table.now.nodes (before_seen root.now) dirs.new d) }
{
    let mut last = None;
    for edit in edits {
        let Some(dir) = text_above(edit.path.as_str()) else {
            continue;
        };
        if is_same(last, dir) {
            continue;
        }
        add_above(alloc, table, root, dir, dirs)?;
        last = Some(dir);
    }
    Ok(())
}

fn is_same(last: Option<&str>, dir: &str) -> bool
    ensures { IsTrue result ↔ (option_copied last.entry ≡ Some dir.now) }
{
    match last {
        Some(last) => last == dir,
        None => false,
    }
}

// Adds a directory and those above it, down from the root as far as they are there.
fn add_above(
    alloc: Global,
    table: &NodeTable,
    root: &DirNodes,
    dir: &str,
    dirs: &mut Dirs,
) -> Result<(), AllocError>
    requires path { IsTrue (is_path (elements dir.now)) }
    requires dirs { AreDirs table.now.nodes (before_seen root.now) dirs.old }
    ensures dirs { OnOk result (AreDirs table.now.nodes (before_seen root.now) dirs.new) }
    ensures more { OnOk result (IsMore table.now.nodes (before_seen root.now) dirs.old dirs.new) }
    ensures full { OnOk result (AreFull table.now.nodes (before_seen root.now) dirs.new (elements dir.now)) }
{
    let mut above = None;
    let mut rest = Some(dir);
    while let Some(text) = rest {
        let (name, after) = parted(text);
        let here = path_of(alloc, front_of(dir, after))?;
        if !add_dir(alloc, table, root, above.as_ref(), name, &here, dirs)? {
            return Ok(());
        }
        above = Some(here);
        rest = after;
    }
    Ok(())
}

// Adds a directory in the one above it, and tells whether it is there.
fn add_dir(
    alloc: Global,
    table: &NodeTable,
    root: &DirNodes,
    above: Option<&RepoPath>,
    name: &str,
    here: &RepoPath,
    dirs: &mut Dirs,
) -> Result<bool, AllocError>
    requires dirs { AreDirs table.now.nodes (before_seen root.now) dirs.old }
    requires above { IsFull table.now.nodes (before_seen root.now) dirs.old (dir_of above) }
    requires here { here.now ≡ dir_of above ++ name.now ∷ [] }
    ensures dirs { OnOk result (AreDirs table.now.nodes (before_seen root.now) dirs.new) }
    ensures more { OnOk result (IsMore table.now.nodes (before_seen root.now) dirs.old dirs.new) }
    ensures full { OnOk result (IsFull table.now.nodes (before_seen root.now) dirs.new here.now) }
    ensures there { IfOk result (λ there. there ≡ is_some (dir_from table.now.nodes (before_seen root.now) here.now)) }
{
    if dirs.contains_key(here) {
        return Ok(true);
    }
    let Some(nodes) = child_under(alloc, table, nodes_at(root, dirs, above), name)? else {
        return Ok(false);
    };
    dirs.insert(here.copy(alloc)?, nodes)?;
    Ok(true)
}

/// What was gathered of a directory, or of the root.
pub(crate) fn nodes_at<'a>(
    root: &'a DirNodes,
    dirs: &'a Dirs,
    dir: Option<&RepoPath>,
) -> Option<&'a DirNodes>
    ensures { before_of result ≡ found (before_seen root.now) dirs.now (dir_of dir.entry) }
{
    match dir {
        Some(dir) => {
            has_elements(dir);
            dirs.get(dir)
        }
        None => Some(root),
    }
}

// The nodes of a directory in another one.
fn child_under(
    alloc: Global,
    table: &NodeTable,
    nodes: Option<&DirNodes>,
    name: &str,
) -> Result<Option<DirNodes>, AllocError>
    ensures { IfOk result (λ child. option_map before_seen child ≡ option_and_then (λ b. child_in_table table.now.nodes b name.now) (before_of nodes.entry)) }
{
    let Some(nodes) = nodes else {
        return Ok(None);
    };
    match child_ids(nodes, name.as_bytes()) {
        Some(ids) => dir_under(alloc, table, &ids),
        None => Ok(None),
    }
}
