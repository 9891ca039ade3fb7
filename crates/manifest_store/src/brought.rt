//! The files that a second parent brings.
ghost use Rattle.std.specs.Prelude.{◌≡◌, ◌≤◌, ◌&&◌, ◌||◌, ◌∷◌, ◌++◌, [], ℕ, suc, not, length, true, None, Some, IfOk, OnOk, option_map};
ghost use Rattle.std.specs.List.{list_any};
ghost use Rattle.std.specs.Option.{option_and_then};
ghost use Rattle.std.specs.Ordering.{is_lt, nat_cmp};
ghost use Rattle.std.specs.Cmp.Lexicographic.{slice_cmp};
ghost use Rattle.std.specs.FinMap.{is_sorted, find as find_key};
ghost use Rattle.changeset_model.specs.Path.{Path, is_prefix, is_strict_prefix};
ghost use Rattle.bonsai.specs.View.{edits_view};
ghost use Rattle.history_model.specs.Past.{Past};
ghost use Rattle.history_model.specs.Tree.{files_in};
ghost use Rattle.manifest_model.specs.Fsnode.{fsnode};
ghost use Rattle.manifest_laws.specs.Entries.{fs_entry_at};
ghost use Rattle.fsnode.specs.Parts.{child_seen, children_seen, entry_seen};
ghost use Rattle.fsnode.specs.Views.{fsnode_seen};
ghost use Rattle.derive_step.specs.Pasts.{roots_of};
ghost use Rattle.manifest_store.specs.Brought.{HasBoth, IsBroughtFrom, AreBroughtFrom, AreAsDeep, AreEntries, entry_under, id_of_dir, is_brought, is_file_entry, is_to_come, own};
ghost use Rattle.manifest_store.specs.Manifests.{IsRight};
ghost use Rattle.manifest_store.specs.Deciding.{AreMade};
ghost use Rattle.manifest_store.specs.Moves.{Adds, Stands, has_file, settles as settled_by};
ghost use Rattle.manifest_store.specs.Nodes.{fsnode_under as fsnode_in_table};

use crate::decided::{Decided, set_paths};
use crate::nodes::fsnode_under;
use crate::under::path_in;
use bonsai::Edit;
use fsnode::{FsChild, FsEntry, Fsnode};
use node_fields::Name;
use node_table::{NodeTable, Roots};
use object_id::Id;
use repo_path::{LONGEST_PATH, RepoPath};
use std::alloc::{AllocError, Global};

// A directory that the second parent has, the root where no path is given, and the first parent's fsnode of it, if it has
// one.
#[derive(Drop)]
struct Brought {
    path: Option<RepoPath>,
    first: Option<Id>,
    second: Id,
}

/// Adds the files of the second parent that edits leave and that the first hasn't: level by level, into the directories
/// whose fsnodes differ. An element of a path takes a byte at least, so that no directory lies below the last turn's level.
pub(crate) fn add_brought(
    alloc: Global,
    table: &NodeTable,
    first: &Option<Roots>,
    second: &Roots,
    edits: &[Edit],
    come: &mut Vec<RepoPath>,
) -> Result<(), AllocError>
    requires { AreMade (edits_view edits.now) }
    ensures { (past other : Past) → Stands table.now.nodes first.now past → Stands table.now.nodes (Some second.now) other → OnOk result (Adds (λ p. not (has_file past p) && (has_file other p && not (list_any (λ e. settled_by e p) (edits_view edits.now)))) come.old.items come.new.items) }
{
    let sets = set_paths(alloc, edits)?;
    let decided = Decided { edits, sets: &sets };
    let mut level = Vec::new(alloc);
    level.push(root_of(first, second))?;
    for _ in 0..LONGEST_PATH {
        if level.is_empty() {
            return Ok(());
        }
        level = level_under(alloc, table, &level, &decided, come)?;
    }
    Ok(())
}

fn root_of(first: &Option<Roots>, second: &Roots) -> Brought
    ensures root { own result.path ≡ [] }
    ensures ids { (past other : Past) → first.now ≡ roots_of past → Some second.now ≡ roots_of other → IsBroughtFrom past other result }
{
    Brought {
        path: None,
        first: fsnode_of(first),
        second: second.fsnode,
    }
}

fn fsnode_of(roots: &Option<Roots>) -> Option<Id>
    ensures { result ≡ option_map (λ r. r.fsnode) roots.now }
{
    match roots {
        Some(roots) => Some(roots.fsnode),
        None => None,
    }
}

// Adds the files directly in these directories, and gives the directories in them.
fn level_under(
    alloc: Global,
    table: &NodeTable,
    level: &[Brought],
    decided: &Decided,
    come: &mut Vec<RepoPath>,
) -> Result<Vec<Brought>, AllocError>
    ensures files { (past other : Past) → HasBoth table.now.nodes past other → AreBroughtFrom past other level.now → IfOk result (λ next. (p : Path) → is_to_come past other (edits_view decided.now.edits.now) come.new.items next.items p ≡ is_to_come past other (edits_view decided.now.edits.now) come.old.items level.now p) }
    ensures directories { (past other : Past) → HasBoth table.now.nodes past other → AreBroughtFrom past other level.now → IfOk result (λ next. AreBroughtFrom past other next.items) }
    ensures deeper { (n : ℕ) → AreAsDeep n level.now → IfOk result (λ next. AreAsDeep (suc n) next.items) }
{
    let mut next = Vec::new(alloc);
    for dir in level {
        add_entries(alloc, table, dir, decided, &mut next, come)?;
    }
    Ok(next)
}

// Equal ids are those of equal fsnodes, so that nothing is brought there.
fn add_entries(
    alloc: Global,
    table: &NodeTable,
    dir: &Brought,
    decided: &Decided,
    next: &mut Vec<Brought>,
    come: &mut Vec<RepoPath>,
) -> Result<(), AllocError>
    ensures files { (past other : Past) → HasBoth table.now.nodes past other → IsBroughtFrom past other dir.now → OnOk result ((p : Path) → is_to_come past other (edits_view decided.now.edits.now) come.new.items next.new.items p ≡ (is_to_come past other (edits_view decided.now.edits.now) come.old.items next.old.items p || (is_brought past other (edits_view decided.now.edits.now) p && is_strict_prefix (own dir.now.path) p))) }
    ensures directories { (past other : Past) → HasBoth table.now.nodes past other → IsBroughtFrom past other dir.now → AreBroughtFrom past other next.old.items → OnOk result (AreBroughtFrom past other next.new.items) }
    ensures deeper { (n : ℕ) → n ≤ length (own dir.now.path) → AreAsDeep (suc n) next.old.items → OnOk result (AreAsDeep (suc n) next.new.items) }
{
    if is_alike(dir) {
        return Ok(());
    }
    let Some(second) = fsnode_under(alloc, table, &dir.second)? else {
        return Ok(());
    };
    let first = first_fsnode(alloc, table, dir)?;
    add_children(alloc, dir, &second.entries, &first, decided, next, come)
}

// Whether both parents have one fsnode there.
fn is_alike(dir: &Brought) -> bool
    ensures { result ≡ true → dir.now.first ≡ Some dir.now.second }
{
    match &dir.first {
        Some(id) => *id == dir.second,
        None => false,
    }
}

fn first_fsnode(
    alloc: Global,
    table: &NodeTable,
    dir: &Brought,
) -> Result<Option<Fsnode>, AllocError>
    ensures { IfOk result (λ node. option_map fsnode_seen node ≡ option_and_then (fsnode_in_table table.now.nodes) dir.now.first) }
{
    match &dir.first {
        Some(id) => fsnode_under(alloc, table, id),
        None => Ok(None),
    }
}

fn add_children(
    alloc: Global,
    dir: &Brought,
    children: &[FsChild],
    first: &Option<Fsnode>,
    decided: &Decided,
    next: &mut Vec<Brought>,
    come: &mut Vec<RepoPath>,
) -> Result<(), AllocError>
    ensures files { (past other : Past) → AreEntries past other (own dir.now.path) (option_map fsnode_seen first.now) (children_seen children.now) → OnOk result ((p : Path) → is_to_come past other (edits_view decided.now.edits.now) come.new.items next.new.items p ≡ (is_to_come past other (edits_view decided.now.edits.now) come.old.items next.old.items p || (is_brought past other (edits_view decided.now.edits.now) p && is_strict_prefix (own dir.now.path) p))) }
    ensures directories { (past other : Past) → AreEntries past other (own dir.now.path) (option_map fsnode_seen first.now) (children_seen children.now) → AreBroughtFrom past other next.old.items → OnOk result (AreBroughtFrom past other next.new.items) }
    ensures deeper { (n : ℕ) → n ≤ length (own dir.now.path) → AreAsDeep (suc n) next.old.items → OnOk result (AreAsDeep (suc n) next.new.items) }
{
    for child in children {
        add_child(alloc, dir, child, first, decided, next, come)?;
    }
    Ok(())
}

fn add_child(
    alloc: Global,
    dir: &Brought,
    child: &FsChild,
    first: &Option<Fsnode>,
    decided: &Decided,
    next: &mut Vec<Brought>,
    come: &mut Vec<RepoPath>,
) -> Result<(), AllocError>
    ensures files { (past other : Past) → IsRight past → IsRight other → fs_entry_at (fsnode (files_in other) (own dir.now.path)) (child_seen child.now).0 ≡ Some (child_seen child.now).1 → entry_under (option_map fsnode_seen first.now) child.now.name ≡ fs_entry_at (fsnode (files_in past) (own dir.now.path)) child.now.name → OnOk result ((p : Path) → is_to_come past other (edits_view decided.now.edits.now) come.new.items next.new.items p ≡ (is_to_come past other (edits_view decided.now.edits.now) come.old.items next.old.items p || (is_brought past other (edits_view decided.now.edits.now) p && is_prefix (own dir.now.path ++ child.now.name ∷ []) p))) }
    ensures directories { (past other : Past) → IsRight past → IsRight other → fs_entry_at (fsnode (files_in other) (own dir.now.path)) (child_seen child.now).0 ≡ Some (child_seen child.now).1 → entry_under (option_map fsnode_seen first.now) child.now.name ≡ fs_entry_at (fsnode (files_in past) (own dir.now.path)) child.now.name → AreBroughtFrom past other next.old.items → OnOk result (AreBroughtFrom past other next.new.items) }
    ensures deeper { (n : ℕ) → n ≤ length (own dir.now.path) → AreAsDeep (suc n) next.old.items → OnOk result (AreAsDeep (suc n) next.new.items) }
{
    let Some(path) = path_in(alloc, dir.path.as_ref(), &child.name)? else {
        return Ok(());
    };
    let there = entry_of(first, &child.name);
    match child.entry {
        FsEntry::File { .. } => add_file(path, &there, decided, come)?,
        FsEntry::Directory { id, .. } => next.push(Brought {
            path: Some(path),
            first: dir_id_of(&there),
            second: id,
        })?,
    }
    Ok(())
}

// The entry of a name, if there is a directory.
fn entry_of(dir: &Option<Fsnode>, name: &Name) -> Option<FsEntry>
    ensures { option_map entry_seen result ≡ entry_under (option_map fsnode_seen dir.now) name.now }
{
    match dir {
        Some(node) => entry_among(&node.entries, name),
        None => None,
    }
}

// The entry of a name among those of a directory, which stand by rising names.
fn entry_among(children: &[FsChild], name: &Name) -> Option<FsEntry>
    ensures { is_sorted (slice_cmp nat_cmp) (children_seen children.now) ≡ true → option_map entry_seen result ≡ find_key (slice_cmp nat_cmp) name.now (children_seen children.now) }
{
    let at = children.partition_point(|child| comes_before(&child.name, name));
    let len = children.len();
    if at == len {
        return None;
    }
    let child = &children[at];
    if child.name == *name {
        Some(child.entry)
    } else {
        None
    }
}

fn comes_before(name: &Name, other: &Name) -> bool
    ensures { result ≡ is_lt (slice_cmp nat_cmp name.now other.now) }
{
    name < other
}

// Adds a file of the second parent, by what the first has there.
fn add_file(
    path: RepoPath,
    there: &Option<FsEntry>,
    decided: &Decided,
    come: &mut Vec<RepoPath>,
) -> Result<(), AllocError>
    ensures { (past other : Past) → IsRight other → has_file other path ≡ true → is_file_entry (option_map entry_seen there.now) ≡ has_file past path → OnOk result (Adds (λ p. is_brought past other (edits_view decided.now.edits.now) p && is_prefix path p) come.old.items come.new.items) }
{
    if is_file(there) {
        return Ok(());
    }
    if decided.settles(&path) {
        return Ok(());
    }
    come.push(path)?;
    Ok(())
}

fn is_file(entry: &Option<FsEntry>) -> bool
    ensures { result ≡ is_file_entry (option_map entry_seen entry.now) }
{
    matches!(entry, Some(FsEntry::File { .. }))
}

fn dir_id_of(entry: &Option<FsEntry>) -> Option<Id>
    ensures { result ≡ id_of_dir (option_map entry_seen entry.now) }
{
    match entry {
        Some(FsEntry::Directory { id, .. }) => Some(*id),
        _ => None,
    }
}
