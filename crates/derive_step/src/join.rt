//! What both parents have in a directory, joined.
ghost use Rattle.std.specs.Prelude.{◌≡◌, ◌∷◌, ◌++◌, [], ℕ, List, true, if◌then◌else◌, option_map, OnOk, IfOk};
ghost use Rattle.std.specs.FinMap.{is_sorted};
ghost use Rattle.std.specs.FinMap.Entries.{below_all};
ghost use Rattle.std.specs.Ordering.{nat_cmp, eq_by_cmp};
ghost use Rattle.std.specs.Cmp.Lexicographic.{slice_cmp};
ghost use Rattle.std.specs.List.{list_all};
ghost use Rattle.std.specs.BTreeMap.{get};
ghost use Rattle.changeset_model.specs.Path.{is_element, path_cmp};
ghost use Rattle.manifest_model.specs.Fsnode.{are_entries};
ghost use Rattle.node_fields.specs.Children.{children_seen};
ghost use Rattle.derive_step.specs.Places.{dir_of};
ghost use Rattle.derive_step.specs.Merge.{IsMerge, entry_in, is_before};
ghost use Rattle.derive_step.specs.Walk.{entry_among, entries_among, made_in};
ghost use Rattle.derive_step.specs.Join.{joined_by, joined_nodes, made_at, nodes_where};

use crate::kind::Kind;
use crate::made::{Made, MadeDirs};
use crate::merge::{Merge, all_left, finished, put, take};
use crate::place::child_in;
use node_fields::{Child, Name};
use node_table::Node;
use repo_path::RepoPath;
use std::alloc::{AllocError, Global};
use std::collections::VecDeque;

/// The entries of a directory, or of the root, from those of both parents after the edits of a changeset. The own nodes of
/// the files that are new at it are put to the nodes.
pub(crate) fn joined<K: Kind>(
    alloc: Global,
    kind: &K,
    first: Vec<Child<K::Entry>>,
    second: Vec<Child<K::Entry>>,
    dir: Option<&RepoPath>,
    made: &MadeDirs,
    nodes: &mut Vec<Node>,
) -> Result<Vec<Child<K::Entry>>, AllocError>
    requires first { is_sorted (slice_cmp nat_cmp) (children_seen K.seen first.items) ≡ true }
    requires named { list_all (λ e. is_element e.0) (children_seen K.seen first.items) ≡ true }
    requires kept { list_all (λ e. K.is_kept e.1) (children_seen K.seen first.items) ≡ true }
    requires second { is_sorted (slice_cmp nat_cmp) (children_seen K.seen second.items) ≡ true }
    ensures entries { IfOk result (λ children. (n : List ℕ) → entry_among K.seen children.items n ≡ joined_by (K.joined kind.now (dir_of dir.entry) n (made_at (made_in K.made made.now) (dir_of dir.entry ++ n ∷ []))) (entries_among K.seen first.items second.items n)) }
    ensures rising { IfOk result (λ children. are_entries (children_seen K.seen children.items) ≡ true) }
    ensures fields { IfOk result (λ children. list_all (λ e. K.is_kept e.1) (children_seen K.seen children.items) ≡ true) }
    ensures nodes { OnOk result (nodes.new.items ≡ nodes.old.items ++ joined_nodes (K.own_joined kind.now (dir_of dir.entry)) (entry_among K.seen first.items) (children_seen K.seen second.items)) }
{
    // Mostly there is one parent, of which nothing is copied then.
    if second.is_empty() {
        return counted::<K>(first);
    }
    joined_to(alloc, kind, first, second, dir, made, nodes)
}

// The same where there are entries of the second parent.
fn joined_to<K: Kind>(
    alloc: Global,
    kind: &K,
    first: Vec<Child<K::Entry>>,
    second: Vec<Child<K::Entry>>,
    dir: Option<&RepoPath>,
    made: &MadeDirs,
    nodes: &mut Vec<Node>,
) -> Result<Vec<Child<K::Entry>>, AllocError>
    requires first { is_sorted (slice_cmp nat_cmp) (children_seen K.seen first.items) ≡ true }
    requires second { is_sorted (slice_cmp nat_cmp) (children_seen K.seen second.items) ≡ true }
    ensures entries { IfOk result (λ children. (n : List ℕ) → entry_among K.seen children.items n ≡ joined_by (K.joined kind.now (dir_of dir.entry) n (made_at (made_in K.made made.now) (dir_of dir.entry ++ n ∷ []))) (entries_among K.seen first.items second.items n)) }
    ensures rising { IfOk result (λ children. are_entries (children_seen K.seen children.items) ≡ true) }
    ensures fields { IfOk result (λ children. list_all (λ e. K.is_kept e.1) (children_seen K.seen children.items) ≡ true) }
    ensures nodes { OnOk result (nodes.new.items ≡ nodes.old.items ++ joined_nodes (K.own_joined kind.now (dir_of dir.entry)) (entry_among K.seen first.items) (children_seen K.seen second.items)) }
{
    let mut entries = all_left(alloc, first);
    let mut left = VecDeque::from(second);
    'joining: while let Some(child) = left.pop_front() {
        join_child(alloc, kind, &mut entries, child, dir, made, nodes)?;
    }
    children_of::<K>(entries)
}

// Joins an entry of the second parent to those of the first.
fn join_child<K: Kind>(
    alloc: Global,
    kind: &K,
    entries: &mut Merge<K::Entry>,
    child: Child<K::Entry>,
    dir: Option<&RepoPath>,
    made: &MadeDirs,
    nodes: &mut Vec<Node>,
) -> Result<(), AllocError>
    requires merge { IsMerge K.is_kept (children_seen K.seen entries.old.done.items) (children_seen K.seen entries.old.left.items) }
    requires before { is_before child.name (children_seen K.seen entries.old.done.items) ≡ true }
    ensures merge { OnOk result (IsMerge K.is_kept (children_seen K.seen entries.new.done.items) (children_seen K.seen entries.new.left.items)) }
    ensures before { OnOk result (is_before child.name (children_seen K.seen entries.new.done.items) ≡ true) }
    ensures entries { OnOk result ((n : List ℕ) → entry_in K.seen entries.new n ≡ (if eq_by_cmp (slice_cmp nat_cmp) child.name n then joined_by (K.joined kind.now (dir_of dir.entry) child.name (made_at (made_in K.made made.now) (dir_of dir.entry ++ child.name ∷ []))) (entry_in K.seen entries.old child.name, Some (K.seen child.entry)) else entry_in K.seen entries.old n)) }
    ensures nodes { OnOk result (nodes.new.items ≡ nodes.old.items ++ nodes_where (K.own_joined kind.now (dir_of dir.entry) child.name) (entry_in K.seen entries.old child.name) (K.seen child.entry)) }
{
    let bytes = child.name.as_bytes();
    let first = take::<K>(entries, bytes)?;
    let entry = entry_of_both(
        alloc,
        kind,
        dir,
        &child.name,
        first,
        child.entry,
        made,
        nodes,
    )?;
    put::<K>(alloc, entries, bytes, entry)?;
    Ok(())
}

// The entry of a name that the second parent has.
fn entry_of_both<K: Kind>(
    alloc: Global,
    kind: &K,
    dir: Option<&RepoPath>,
    name: &Name,
    first: Option<K::Entry>,
    second: K::Entry,
    made: &MadeDirs,
    nodes: &mut Vec<Node>,
) -> Result<Option<K::Entry>, AllocError>
    ensures entry { IfOk result (λ entry. option_map K.seen entry ≡ joined_by (K.joined kind.now (dir_of dir.entry) name.now (made_at (made_in K.made made.now) (dir_of dir.entry ++ name.now ∷ []))) (option_map K.seen first, Some (K.seen second))) }
    ensures nodes { OnOk result (nodes.new.items ≡ nodes.old.items ++ nodes_where (K.own_joined kind.now (dir_of dir.entry) name.now) (option_map K.seen first) (K.seen second)) }
{
    match first {
        None => Ok(Some(second)),
        Some(first) => kind.join(alloc, dir, name, (first, second), made, nodes),
    }
}

/// The entry of a directory that was made.
pub(crate) fn entry_made<K: Kind>(made: &MadeDirs, dir: &RepoPath) -> Option<K::Entry>
    ensures { option_map K.seen result ≡ made_in K.made made.now dir.now }
{
    match made.get(dir) {
        Some(made) => Some(K::made(made)),
        None => None,
    }
}

/// The directory of a name, if it was made.
pub(crate) fn made_in_dir<'a>(
    alloc: Global,
    dir: Option<&RepoPath>,
    name: &Name,
    made: &'a MadeDirs,
) -> Result<Option<&'a Made>, AllocError>
    ensures { IfOk result (λ there. option_map (λ m. m.now) there ≡ made_at (get path_cmp made.now) (dir_of dir.entry ++ name.now ∷ [])) }
{
    match child_in(alloc, dir, name)? {
        Some(path) => Ok(made.get(&path)),
        None => Ok(None),
    }
}

// The entries by rising names.
fn children_of<K: Kind>(entries: Merge<K::Entry>) -> Result<Vec<Child<K::Entry>>, AllocError>
    requires { IsMerge K.is_kept (children_seen K.seen entries.done.items) (children_seen K.seen entries.left.items) }
    ensures entries { IfOk result (λ children. (n : List ℕ) → entry_among K.seen children.items n ≡ entry_in K.seen entries n) }
    ensures rising { IfOk result (λ children. are_entries (children_seen K.seen children.items) ≡ true) }
    ensures fields { IfOk result (λ children. list_all (λ e. K.is_kept e.1) (children_seen K.seen children.items) ≡ true) }
{
    counted::<K>(finished::<K>(entries)?)
}

// So many entries that their number doesn't fit its field don't fit the memory either.
fn counted<K: Kind>(children: Vec<Child<K::Entry>>) -> Result<Vec<Child<K::Entry>>, AllocError>
    requires sorted { is_sorted (slice_cmp nat_cmp) (children_seen K.seen children.items) ≡ true }
    requires named { list_all (λ e. is_element e.0) (children_seen K.seen children.items) ≡ true }
    ensures same { IfOk result (λ counted. counted.items ≡ children.items) }
    ensures rising { IfOk result (λ counted. are_entries (children_seen K.seen counted.items) ≡ true) }
{
    if children.len() > u32::MAX as usize {
        return Err(AllocError);
    }
    Ok(children)
}
