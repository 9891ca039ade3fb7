//! What the edits of a changeset leave in a directory, in nodes of any kind.
ghost use Rattle.std.specs.Prelude.{◌≡◌, ◌∷◌, ◌++◌, [], ℕ, List, Option, true, if◌then◌else◌, option_map, OnOk, IfOk};
ghost use Rattle.std.specs.FinMap.{is_sorted};
ghost use Rattle.std.specs.Ordering.{nat_cmp};
ghost use Rattle.std.specs.Cmp.Lexicographic.{slice_cmp};
ghost use Rattle.std.specs.List.{list_all};
ghost use Rattle.bonsai.specs.View.{change_view, edit_view, edits_view};
ghost use Rattle.std.specs.FinMap.Entries.{below_all};
ghost use Rattle.changeset_model.specs.Path.{Path, is_element, path_cmp};
ghost use Rattle.changeset_model.specs.Changeset.{FileChange};
ghost use Rattle.manifest_model.specs.Fsnode.{are_entries};
ghost use Rattle.node_fields.specs.Children.{children_seen};
ghost use Rattle.derive_step.specs.Places.{dir_of};
ghost use Rattle.derive_step.specs.Slices.{IsChild};
ghost use Rattle.derive_step.specs.Merge.{AreBothAhead, AreMerges, IsMerge, entries_in};
ghost use Rattle.derive_step.specs.Join.{AreJoined, joined_by, made_at};
ghost use Rattle.derive_step.specs.Walk.{after, all_nodes, both_seen, edited as edited_to, entries_among, entry_among, made_in, nodes_by, nodes_of, renewed as renewed_to, without_dir as no_dir, without_file as no_file};

use crate::join::{entry_made, joined};
use crate::kind::Kind;
use crate::made::MadeDirs;
use crate::merge::{Merges, all_left, finished, put_both, take_both};
use crate::place::{Place, dir_before, place_in};
use crate::slices::edits_left;
use bonsai::{Change, Edit};
use node_fields::Child;
use node_table::Node;
use repo_path::RepoPath;
use std::alloc::{AllocError, Global};
use tree_fold::File;

/// The entries of a directory, or of the root, after the edits of a changeset, from those of its parents. The own nodes of
/// the files that it sets in the directory, and of those that are new at it, are put to the nodes.
pub(crate) fn children_after<K: Kind>(
    alloc: Global,
    kind: &K,
    first: Vec<Child<K::Entry>>,
    second: Vec<Child<K::Entry>>,
    edits: &[Edit],
    dir: Option<&RepoPath>,
    made: &MadeDirs,
    nodes: &mut Vec<Node>,
) -> Result<Vec<Child<K::Entry>>, AllocError>
    requires first { is_sorted (slice_cmp nat_cmp) (children_seen K.seen first.items) ≡ true }
    requires second { is_sorted (slice_cmp nat_cmp) (children_seen K.seen second.items) ≡ true }
    requires edits { is_sorted path_cmp (edits_view edits.now) ≡ true }
    ensures entries { IfOk result (λ children. (n : List ℕ) → entry_among K.seen children.items n ≡ joined_by (K.joined kind.now (dir_of dir.entry) n (made_at (made_in K.made made.now) (dir_of dir.entry ++ n ∷ []))) (after (K.set kind.now) (made_in K.made made.now) K.is_file (dir_of dir.entry) (edits_view edits.now) (entries_among K.seen first.items second.items) n)) }
    ensures rising { IfOk result (λ children. are_entries (children_seen K.seen children.items) ≡ true) }
    ensures fields { IfOk result (λ children. list_all (λ e. K.is_kept e.1) (children_seen K.seen children.items) ≡ true) }
    ensures nodes { OnOk result (AreJoined (K.own_joined kind.now (dir_of dir.entry)) (after (K.set kind.now) (made_in K.made made.now) K.is_file (dir_of dir.entry) (edits_view edits.now) (entries_among K.seen first.items second.items)) (nodes.old.items ++ all_nodes (K.set kind.now) (made_in K.made made.now) K.is_file (K.own kind.now) (dir_of dir.entry) (edits_view edits.now) (entries_among K.seen first.items second.items)) nodes.new.items) }
{
    let first_left = all_left(alloc, first);
    let second_left = all_left(alloc, second);
    let mut entries = Merges {
        first: first_left,
        second: second_left,
    };
    put_edits(alloc, kind, &mut entries, edits, dir, made, nodes)?;
    let first_after = finished::<K>(entries.first)?;
    let second_after = finished::<K>(entries.second)?;
    joined(alloc, kind, first_after, second_after, dir, made, nodes)
}

// Puts in what edits leave under the names that they reach, and the own nodes of the files that they set to the nodes.
fn put_edits<K: Kind>(
    alloc: Global,
    kind: &K,
    entries: &mut Merges<K::Entry>,
    edits: &[Edit],
    dir: Option<&RepoPath>,
    made: &MadeDirs,
    nodes: &mut Vec<Node>,
) -> Result<(), AllocError>
    requires merge { AreMerges K.seen K.is_kept entries.old }
    requires ahead { AreBothAhead K.seen (dir_of dir) (edits_view edits.now) entries.old }
    requires edits { is_sorted path_cmp (edits_view edits.now) ≡ true }
    ensures merge { OnOk result (AreMerges K.seen K.is_kept entries.new) }
    ensures entries { OnOk result ((n : List ℕ) → entries_in K.seen entries.new n ≡ after (K.set kind.now) (made_in K.made made.now) K.is_file (dir_of dir.entry) (edits_view edits.now) (entries_in K.seen entries.old) n) }
    ensures nodes { OnOk result (nodes.new.items ≡ nodes.old.items ++ all_nodes (K.set kind.now) (made_in K.made made.now) K.is_file (K.own kind.now) (dir_of dir.entry) (edits_view edits.now) (entries_in K.seen entries.old)) }
{
    let mut left = edits;
    'putting: while let Some((edit, rest)) = left.split_first() {
        let child = put_edit(alloc, kind, entries, edit, dir, made, nodes)?;
        left = edits_left(rest, child);
    }
    Ok(())
}

// Puts in what an edit leaves under the name that it reaches. Where the edit lies under the directory of that name, it gives
// the directory: the edits that follow it there leave the same.
fn put_edit<K: Kind>(
    alloc: Global,
    kind: &K,
    entries: &mut Merges<K::Entry>,
    edit: &Edit,
    dir: Option<&RepoPath>,
    made: &MadeDirs,
    nodes: &mut Vec<Node>,
) -> Result<Option<RepoPath>, AllocError>
    requires merge { AreMerges K.seen K.is_kept entries.old }
    requires ahead { AreBothAhead K.seen (dir_of dir) (edit_view edit.now ∷ []) entries.old }
    ensures merge { OnOk result (AreMerges K.seen K.is_kept entries.new) }
    ensures ahead { OnOk result ((es : List (Path × FileChange)) → below_all path_cmp edit.now.path es ≡ true → AreBothAhead K.seen (dir_of dir.entry) es entries.old → AreBothAhead K.seen (dir_of dir.entry) es entries.new) }
    ensures entries { OnOk result ((n : List ℕ) → entries_in K.seen entries.new n ≡ after (K.set kind.now) (made_in K.made made.now) K.is_file (dir_of dir.entry) (edit_view edit.now ∷ []) (entries_in K.seen entries.old) n) }
    ensures child { IfOk result (λ child. IsChild child (dir_of dir.entry) edit.now.path) }
    ensures nodes { OnOk result (nodes.new.items ≡ nodes.old.items ++ nodes_by (K.own kind.now) (dir_of dir.entry) (entries_in K.seen entries.old) (edit_view edit.now)) }
{
    match place_in(&edit.path, dir) {
        Place::Outside => Ok(None),
        Place::Here(name) => {
            let before = take_both::<K>(entries, name)?;
            let both = edited(alloc, kind, edit, before, nodes)?;
            put_both::<K>(alloc, entries, name, both)?;
            Ok(None)
        }
        Place::Under(name, rest) => {
            let child = dir_before(alloc, &edit.path, rest)?;
            let before = take_both::<K>(entries, name)?;
            let both = renewed::<K>(entry_made::<K>(made, &child), before);
            put_both::<K>(alloc, entries, name, both)?;
            Ok(Some(child))
        }
    }
}

// The entries of a path that an edit sets or deletes. The own nodes of a file that is set are put to the nodes.
fn edited<K: Kind>(
    alloc: Global,
    kind: &K,
    edit: &Edit,
    before: (Option<K::Entry>, Option<K::Entry>),
    nodes: &mut Vec<Node>,
) -> Result<(Option<K::Entry>, Option<K::Entry>), AllocError>
    ensures both { IfOk result (λ both. both_seen K.seen both ≡ edited_to (K.set kind.now edit.now.path) K.is_file (change_view edit.now.change) (both_seen K.seen before)) }
    ensures nodes { OnOk result (nodes.new.items ≡ nodes.old.items ++ nodes_of (K.own kind.now) edit.now.path (both_seen K.seen before) (change_view edit.now.change)) }
{
    match &edit.change {
        Change::Set {
            content,
            kind: file_kind,
            size,
            copied: _,
        } => {
            let file = File {
                content: *content,
                kind: *file_kind,
                size: *size,
            };
            let entry = kind.set(alloc, &edit.path, file, before, nodes)?;
            Ok((Some(entry), None))
        }
        Change::Delete => {
            let (first, second) = before;
            Ok((without_file::<K>(first), without_file::<K>(second)))
        }
    }
}

// The entries of a path under which an edit lies: of the directory that was made there, or else of the file.
fn renewed<K: Kind>(
    there: Option<K::Entry>,
    before: (Option<K::Entry>, Option<K::Entry>),
) -> (Option<K::Entry>, Option<K::Entry>)
    ensures { both_seen K.seen result ≡ renewed_to (option_map K.seen there) K.is_file (both_seen K.seen before) }
{
    let (first, second) = before;
    match there {
        Some(entry) => (Some(entry), Some(entry)),
        None => (without_dir::<K>(first), without_dir::<K>(second)),
    }
}

fn without_file<K: Kind>(entry: Option<K::Entry>) -> Option<K::Entry>
    ensures { option_map K.seen result ≡ no_file K.is_file (option_map K.seen entry) }
{
    match entry {
        Some(entry) if K::is_file(&entry) => None,
        other => other,
    }
}

fn without_dir<K: Kind>(entry: Option<K::Entry>) -> Option<K::Entry>
    ensures { option_map K.seen result ≡ no_dir K.is_file (option_map K.seen entry) }
{
    match entry {
        Some(entry) if !K::is_file(&entry) => None,
        other => other,
    }
}
