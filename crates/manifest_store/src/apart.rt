//! The directories of which both parents of a merge have different unodes.
ghost use Rattle.std.specs.Prelude.{◌≡◌, ◌≤◌, ◌∷◌, ◌++◌, [], ℕ, suc, true, List, Some, length, IfOk, OnOk};
ghost use Rattle.std.specs.List.{AllByRecursion};
ghost use Rattle.changeset_model.specs.Path.{Path, is_path, is_prefix, is_strict_prefix};
ghost use Rattle.derive_step.specs.Views.{before_seen};
ghost use Rattle.manifest_store.specs.Apart.{AreApartGathered, AreGrown, HaveDir, HaveDirs, IsApartAt, IsChildIn, IsGathered, IsReached, LieDeep, are_apart_at, ids_in, is_child_apart, is_named, is_under};
ghost use Rattle.manifest_store.specs.Dirs.{AreDirs, IsMore};
ghost use Rattle.manifest_store.specs.Reads.{dir_of};

use crate::dirs::nodes_at;
use crate::nodes::{child_ids, dir_under};
use crate::under::path_in;
use derive_step::{DirIds, DirNodes, Parent};
use node_fields::Name;
use node_table::NodeTable;
use repo_path::{LONGEST_PATH, RepoPath};
use std::alloc::{AllocError, Global};

// A directory by its name in another one, with its ids at both parents.
#[derive(Drop)]
struct ApartChild {
    name: Name,
    first: DirIds,
    second: DirIds,
}

/// Adds to what was gathered of both parents the directories of which they have different unodes, level by level down from
/// the roots: such a directory lies in one, since a unode has the ids of those in it. An element of a path takes a byte at
/// least, so that none lies below the last turn's level.
pub(crate) fn add_apart(
    alloc: Global,
    table: &NodeTable,
    first: &mut Parent,
    second: &mut Parent,
) -> Result<(), AllocError>
    requires first { AreDirs table.now.nodes (before_seen first.old.root) first.old.dirs }
    requires second { AreDirs table.now.nodes (before_seen second.old.root) second.old.dirs }
    ensures first_root { OnOk result ((first.new.roots ≡ first.old.roots) × (before_seen first.new.root ≡ before_seen first.old.root)) }
    ensures second_root { OnOk result ((second.new.roots ≡ second.old.roots) × (before_seen second.new.root ≡ before_seen second.old.root)) }
    ensures first_dirs { OnOk result (AreDirs table.now.nodes (before_seen first.old.root) first.new.dirs) }
    ensures second_dirs { OnOk result (AreDirs table.now.nodes (before_seen second.old.root) second.new.dirs) }
    ensures first_more { OnOk result (IsMore table.now.nodes (before_seen first.old.root) first.old.dirs first.new.dirs) }
    ensures second_more { OnOk result (IsMore table.now.nodes (before_seen second.old.root) second.old.dirs second.new.dirs) }
    ensures gathered { OnOk result (AreApartGathered table.now.nodes (before_seen first.old.root) (before_seen second.old.root) first.new.dirs second.new.dirs) }
{
    let mut level = Vec::new(alloc);
    add_children(alloc, table, None, first, second, &mut level)?;
    for _ in 0..LONGEST_PATH {
        if level.is_empty() {
            return Ok(());
        }
        level = level_under(alloc, table, &level, first, second)?;
    }
    Ok(())
}

// Adds those directly in these directories, and gives their paths.
fn level_under(
    alloc: Global,
    table: &NodeTable,
    level: &[RepoPath],
    first: &mut Parent,
    second: &mut Parent,
) -> Result<Vec<RepoPath>, AllocError>
    requires first { IsGathered table.now.nodes first.old }
    requires second { IsGathered table.now.nodes second.old }
    requires level { HaveDirs table.now.nodes first.old second.old level.now }
    ensures grown { IfOk result (λ next. AreGrown table.now.nodes first.old second.old [] first.new second.new next.items) }
    ensures under { IfOk result (λ next. (d : Path) → is_path d ≡ true → are_apart_at table.now.nodes first.old second.old d ≡ true → is_under level.now d ≡ true → IsReached table.now.nodes first.new second.new next.items d) }
    ensures deeper { (n : ℕ) → LieDeep n level.now → IfOk result (λ next. LieDeep (suc n) next.items) }
{
    let mut next = Vec::new(alloc);
    for dir in level {
        add_children(alloc, table, Some(dir), first, second, &mut next)?;
    }
    Ok(next)
}

// Adds those directly in a directory, or in the root, and their paths.
fn add_children(
    alloc: Global,
    table: &NodeTable,
    dir: Option<&RepoPath>,
    first: &mut Parent,
    second: &mut Parent,
    next: &mut Vec<RepoPath>,
) -> Result<(), AllocError>
    requires first { IsGathered table.now.nodes first.old }
    requires second { IsGathered table.now.nodes second.old }
    requires dir { HaveDir table.now.nodes first.old second.old (dir_of dir) }
    ensures grown { OnOk result (AreGrown table.now.nodes first.old second.old next.old.items first.new second.new next.new.items) }
    ensures under { OnOk result ((d : Path) → is_path d ≡ true → are_apart_at table.now.nodes first.old second.old d ≡ true → is_strict_prefix (dir_of dir.entry) d ≡ true → IsReached table.now.nodes first.new second.new next.new.items d) }
    ensures deeper { (n : ℕ) → n ≤ length (dir_of dir.entry) → LieDeep (suc n) next.old.items → OnOk result (LieDeep (suc n) next.new.items) }
{
    let Some(one) = nodes_at(&first.root, &first.dirs, dir) else {
        return Ok(());
    };
    let Some(two) = nodes_at(&second.root, &second.dirs, dir) else {
        return Ok(());
    };
    let children = children_apart(alloc, one, two)?;
    for child in &children {
        add_child(alloc, table, dir, child, first, second, next)?;
    }
    Ok(())
}

// Adds one in a directory, and its path, where that isn't too long.
fn add_child(
    alloc: Global,
    table: &NodeTable,
    dir: Option<&RepoPath>,
    child: &ApartChild,
    first: &mut Parent,
    second: &mut Parent,
    next: &mut Vec<RepoPath>,
) -> Result<(), AllocError>
    requires first { IsGathered table.now.nodes first.old }
    requires second { IsGathered table.now.nodes second.old }
    requires dir { HaveDir table.now.nodes first.old second.old (dir_of dir) }
    requires first_ids { ids_in table.now.nodes first.old (dir_of dir) child.now.name ≡ Some child.now.first }
    requires second_ids { ids_in table.now.nodes second.old (dir_of dir) child.now.name ≡ Some child.now.second }
    ensures grown { OnOk result (AreGrown table.now.nodes first.old second.old next.old.items first.new second.new next.new.items) }
    ensures under { OnOk result ((d : Path) → is_path d ≡ true → are_apart_at table.now.nodes first.old second.old d ≡ true → is_prefix (dir_of dir.entry ++ child.now.name ∷ []) d ≡ true → IsReached table.now.nodes first.new second.new next.new.items d) }
    ensures deeper { (n : ℕ) → n ≤ length (dir_of dir.entry) → LieDeep (suc n) next.old.items → OnOk result (LieDeep (suc n) next.new.items) }
{
    let Some(path) = path_in(alloc, dir, &child.name)? else {
        return Ok(());
    };
    let Some(one) = dir_under(alloc, table, &child.first)? else {
        return Ok(());
    };
    let Some(two) = dir_under(alloc, table, &child.second)? else {
        return Ok(());
    };
    first.dirs.insert(path.copy(alloc)?, one)?;
    second.dirs.insert(path.copy(alloc)?, two)?;
    next.push(path)?;
    Ok(())
}

// The names that both directories have as directories with different ids of their unodes.
fn children_apart(
    alloc: Global,
    first: &DirNodes,
    second: &DirNodes,
) -> Result<Vec<ApartChild>, AllocError>
    ensures children { IfOk result (λ children. AllByRecursion (IsChildIn (before_seen first.now) (before_seen second.now)) children.items) }
    ensures whole { IfOk result (λ children. (n : List ℕ) → is_child_apart (before_seen first.now) (before_seen second.now) n ≡ true → is_named n children.items ≡ true) }
{
    let mut apart = Vec::new(alloc);
    for child in &first.unode.entries {
        if let Some(both) = apart_at(alloc, first, second, &child.name)? {
            apart.push(both)?;
        }
    }
    Ok(apart)
}

fn apart_at(
    alloc: Global,
    first: &DirNodes,
    second: &DirNodes,
    name: &Name,
) -> Result<Option<ApartChild>, AllocError>
    ensures { IfOk result (λ child. IsApartAt (before_seen first.now) (before_seen second.now) name.now child) }
{
    let Some(one) = child_ids(first, name.as_bytes()) else {
        return Ok(None);
    };
    let Some(two) = child_ids(second, name.as_bytes()) else {
        return Ok(None);
    };
    if one.unode == two.unode {
        return Ok(None);
    }
    let name = Name::copy_of(alloc, name.as_bytes())?;
    Ok(Some(ApartChild {
        name,
        first: one,
        second: two,
    }))
}
