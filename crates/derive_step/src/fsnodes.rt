//! The fsnode of a touched directory.
ghost use Rattle.std.specs.Prelude.{◌≡◌, ◌∷◌, ◌++◌, [], ℕ, List, Option, option_map, true, OnOk, IfOk};
ghost use Rattle.std.specs.FinMap.{is_sorted};
ghost use Rattle.std.specs.Ordering.{nat_cmp};
ghost use Rattle.std.specs.Cmp.Lexicographic.{slice_cmp};
ghost use Rattle.bonsai.specs.View.{edits_view};
ghost use Rattle.changeset_model.specs.Path.{path_cmp};
ghost use Rattle.manifest_model.specs.Fsnode.{FsEntry as ModelEntry, are_entries, is_fs_entry, is_summary};
ghost use Rattle.manifest_laws.specs.Summaries.{summary_by};
ghost use Rattle.manifest_laws.specs.Entries.{fs_entry_at};
ghost use Rattle.manifest_laws.specs.EntryEdits.{is_fs_file};
ghost use Rattle.merge_laws.specs.Joined.{fs_same};
ghost use Rattle.node_fields.specs.Children.{children_seen as seen_by};
ghost use Rattle.fsnode.specs.Parts.{entry_seen, children_seen, summary_seen};
ghost use Rattle.fsnode.specs.Views.{fsnode_seen};
ghost use Rattle.tree_fold.specs.View.{file_view};
ghost use Rattle.derive_step.specs.Places.{dir_of};
ghost use Rattle.derive_step.specs.Walk.{both_seen, entry_among, made_in};
ghost use Rattle.derive_step.specs.Join.{joined_by, made_at};
ghost use Rattle.derive_step.specs.Steps.{fs_after, fs_before, fs_join, fs_made_in, fs_set, fsnodes_before, is_dir_id};

use crate::join::made_in_dir;
use crate::kind::Kind;
use crate::made::{Made, MadeDirs};
use crate::summing::summary_of;
use crate::walk::children_after;
use bonsai::Edit;
use fsnode::{FsChild, FsEntry, Fsnode};
use node_fields::Name;
use node_table::Node;
use object_id::Id;
use repo_path::RepoPath;
use std::alloc::{AllocError, Global};
use tree_fold::File;

/// Fsnodes. A file has no node of its own.
#[derive(Clone, Copy)]
pub(crate) struct Fsnodes;

impl Kind for Fsnodes {
    type Entry = FsEntry;

    ghost Seen = { ModelEntry };

    ghost seen = { entry_seen };

    ghost is_kept = { is_fs_entry };

    ghost is_file = { is_fs_file };

    ghost made = { λ m. entry_seen m.fsnode };

    ghost set = { λ _. fs_set };

    ghost own = { λ _ _ _ _. [] };

    ghost joined = { λ _ _ _. fs_join };

    ghost own_joined = { λ _ _ _ _ _. [] };

    fn set(
        &self,
        _alloc: Global,
        _path: &RepoPath,
        file: File,
        _before: (Option<FsEntry>, Option<FsEntry>),
        _nodes: &mut Vec<Node>,
    ) -> Result<FsEntry, AllocError>
        ensures entry { IfOk result (λ entry. entry_seen entry ≡ fs_set _path.now (both_seen entry_seen _before) (file_view file)) }
        ensures nodes { OnOk result (_nodes.new.items ≡ _nodes.old.items ++ []) }
    {
        let File {
            content,
            kind,
            size,
        } = file;
        Ok(FsEntry::File {
            content,
            kind,
            size,
        })
    }

    fn join(
        &self,
        alloc: Global,
        dir: Option<&RepoPath>,
        name: &Name,
        both: (FsEntry, FsEntry),
        made_dirs: &MadeDirs,
        _nodes: &mut Vec<Node>,
    ) -> Result<Option<FsEntry>, AllocError>
        ensures entry { IfOk result (λ entry. option_map entry_seen entry ≡ fs_join (made_at (fs_made_in made_dirs.now) (dir_of dir.entry ++ name.now ∷ [])) (entry_seen both.0) (entry_seen both.1)) }
        ensures nodes { OnOk result (_nodes.new.items ≡ _nodes.old.items ++ []) }
    {
        let (first, second) = both;
        if are_same(&first, &second) {
            return Ok(Some(first));
        }
        match made_in_dir(alloc, dir, name, made_dirs)? {
            Some(made) => Ok(Some(made.fsnode)),
            None => Ok(None),
        }
    }

    fn is_file(entry: &FsEntry) -> bool {
        is_file_entry(entry)
    }

    fn made(dir: &Made) -> FsEntry {
        dir.fsnode
    }

    fn keep_the_rules(entry: &FsEntry) {
        match entry {
            FsEntry::File { content, size, .. } => {
                let _size = *size;
                let _bytes = content.as_bytes();
            }
            FsEntry::Directory { id, summary } => {
                let _bytes = id.as_bytes();
                let _numbers = summary.numbers();
            }
        }
    }
}

// Whether both parents have the same at a path: files that no edit decides are, and directories where their ids are.
fn are_same(first: &FsEntry, second: &FsEntry) -> bool
    ensures { result ≡ fs_same (entry_seen first.now) (entry_seen second.now) }
{
    match first {
        FsEntry::File { .. } => is_file_entry(second),
        FsEntry::Directory { id, .. } => is_dir_of(second, id),
    }
}

fn is_file_entry(entry: &FsEntry) -> bool
    ensures { result ≡ is_fs_file (entry_seen entry.now) }
{
    match entry {
        FsEntry::File { .. } => true,
        FsEntry::Directory { .. } => false,
    }
}

// Whether it is the directory whose fsnode has this id.
fn is_dir_of(entry: &FsEntry, id: &Id) -> bool
    ensures { result ≡ is_dir_id id.now (entry_seen entry.now) }
{
    match entry {
        FsEntry::File { .. } => false,
        FsEntry::Directory { id: other, .. } => *id == *other,
    }
}

/// The fsnode of a directory, or of the root, after the edits of a changeset, from those of its parents. No node is put to
/// the nodes.
pub(crate) fn fsnode_in(
    alloc: Global,
    first: Option<Fsnode>,
    second: Option<Fsnode>,
    edits: &[Edit],
    dir: Option<&RepoPath>,
    made: &MadeDirs,
    nodes: &mut Vec<Node>,
) -> Result<Fsnode, AllocError>
    requires { is_sorted path_cmp (edits_view edits.now) ≡ true }
    ensures entries { IfOk result (λ node. (n : List ℕ) → fs_entry_at (fsnode_seen node) n ≡ joined_by (fs_join (made_at (fs_made_in made.now) (dir_of dir.entry ++ n ∷ []))) (fs_after made.now (dir_of dir.entry) (edits_view edits.now) (fsnodes_before (option_map fsnode_seen first) (option_map fsnode_seen second)) n)) }
    ensures summary { IfOk result (λ node. is_summary (summary_by (children_seen node.entries.items)) ≡ true → summary_seen node.summary ≡ summary_by (children_seen node.entries.items)) }
    ensures rising { IfOk result (λ node. are_entries (children_seen node.entries.items) ≡ true) }
    ensures nodes { OnOk result (nodes.new.items ≡ nodes.old.items) }
{
    let first = children_before(alloc, first);
    let second = children_before(alloc, second);
    let entries = children_after(alloc, &Fsnodes, first, second, edits, dir, made, nodes)?;
    let summary = summary_of(&entries);
    Ok(Fsnode { summary, entries })
}

// The entries of the node before, or none.
fn children_before(alloc: Global, before: Option<Fsnode>) -> Vec<FsChild>
    ensures found { (n : List ℕ) → entry_among entry_seen result.items n ≡ fs_before (option_map fsnode_seen before) n }
    ensures sorted { is_sorted (slice_cmp nat_cmp) (seen_by entry_seen result.items) ≡ true }
{
    match before {
        Some(node) => node.entries,
        None => Vec::new(alloc),
    }
}
