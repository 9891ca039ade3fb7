//! The nodes of touched directories, each after those under it.
ghost use Rattle.std.specs.Prelude.{◌≡◌, ◌++◌, ◌∷◌, [], List, None, true, false, if◌then◌else◌, option_map, IfOk, OnOk};
ghost use Rattle.std.specs.Option.{option_to_list};
ghost use Rattle.std.specs.BTreeMap.{get};
ghost use Rattle.std.specs.Ordering.{eq_by_cmp};
ghost use Rattle.changeset_model.specs.Path.{Path, path_cmp};
ghost use Rattle.changeset_model.specs.Changeset.{Changeset, is_changeset, self_conflict};
ghost use Rattle.history_model.specs.History.{Known};
ghost use Rattle.history_model.specs.Past.{Past, At};
ghost use Rattle.manifest_model.specs.Fsnode.{FsDir, fsnode_bytes, fsnode_id};
ghost use Rattle.manifest_model.specs.Unode.{UnodeDir, unode_bytes, unode_id};
ghost use Rattle.manifest_laws.specs.Changes.{is_covered as is_covered_by};
ghost use Rattle.fsnode.specs.Parts.{summary_seen, entry_seen as fs_entry_seen};
ghost use Rattle.fsnode.specs.Views.{fsnode_seen};
ghost use Rattle.unode.specs.Parts.{entry_seen as unode_entry_seen};
ghost use Rattle.unode.specs.Views.{manifest_seen};
ghost use Rattle.derive_step.specs.Covering.{paths_seen, paths_set};
ghost use Rattle.derive_step.specs.Views.{before_seen};
ghost use Rattle.derive_step.specs.Pasts.{is_touched, nodes_of};
ghost use Rattle.derive_step.specs.Renewal.{AreBefore, ArePutFor, AreRenewed, AreTouched, IsDue, IsMadeUnder, IsRenewed, fsnode_part, ids_at, parent_part, unode_part};

use crate::covering::{is_covered, set_paths};
use crate::fsnodes::fsnode_in;
use crate::job::{DirIds, DirNodes};
use crate::made::{Made, MadeDirs};
use crate::nodes::put_node;
use crate::slices::edits_under;
use crate::unodes::{UnodeBefore, Unodes, manifest_in};
use bonsai::Commit;
use fsnode::{FsEntry, Fsnode, Summary};
use node_table::Node;
use repo_path::RepoPath;
use std::alloc::{AllocError, Global};
use std::collections::{BTreeMap, BTreeSet};
use unode::{Unode, UnodeEntry, UnodeManifest};

/// The nodes of directories at a parent.
pub(crate) type Dirs = BTreeMap<RepoPath, DirNodes>;

/// Makes the nodes of touched directories anew, from the last by the order of paths on, so that each has those under it.
/// `first` and `second` are what both parents have of them.
pub(crate) fn renew_dirs(
    alloc: Global,
    commit: &Commit,
    mut first: Dirs,
    mut second: Dirs,
    mut dirs: BTreeSet<RepoPath>,
    made: &mut MadeDirs,
    nodes: &mut Vec<Node>,
) -> Result<(), AllocError>
    ensures { (c : Known) (p q : Past) → IsDue c p q commit.now → AreBefore c p q p first → AreBefore c p q q second → AreTouched c p q dirs → ((d : Path) → get path_cmp made.old d ≡ None) → OnOk result (AreRenewed c p q dirs made.new nodes.old.items nodes.new.items) }
{
    let paths = set_paths(alloc, commit.changeset().edits())?;
    let sets = paths.as_slice();
    while let Some(dir) = dirs.pop_last() {
        let first_there = take_nodes(&mut first, sets, &dir);
        let second_there = take_nodes(&mut second, sets, &dir);
        let before = (first_there, second_there);
        renew_dir(alloc, commit, before, dir, made, nodes)?;
    }
    Ok(())
}

// Takes out the nodes of a directory at a parent. There are none where a file is set there or above.
fn take_nodes(before: &mut Dirs, sets: &[&RepoPath], dir: &RepoPath) -> Option<DirNodes>
    ensures nodes { (c : Changeset) → is_changeset c ≡ true → self_conflict c ≡ None → paths_seen sets.now ≡ paths_set c.changes → option_map before_seen result ≡ (if is_covered_by c dir.now then None else option_map before_seen (get path_cmp before.old dir.now)) }
    ensures others { (p : Path) → eq_by_cmp path_cmp dir.now p ≡ false → get path_cmp before.new p ≡ get path_cmp before.old p }
{
    let nodes = before.remove(dir);
    if is_covered(sets, dir) {
        return None;
    }
    nodes
}

// Makes the nodes of a directory anew, from those of both parents. Where it is empty after the changeset, it isn't there.
fn renew_dir(
    alloc: Global,
    commit: &Commit,
    before: (Option<DirNodes>, Option<DirNodes>),
    dir: RepoPath,
    made: &mut MadeDirs,
    nodes: &mut Vec<Node>,
) -> Result<(), AllocError>
    ensures { (c : Known) (p q : Past) → IsDue c p q commit.now → option_map before_seen before.0 ≡ (if is_covered_by c.changeset dir then None else nodes_of p dir) → option_map before_seen before.1 ≡ (if is_covered_by c.changeset dir then None else nodes_of q dir) → is_touched c p q dir ≡ true → IsMadeUnder c p q made.old dir → get path_cmp made.old dir ≡ None → OnOk result (IsRenewed c p q dir made.old made.new nodes.old.items nodes.new.items) }
{
    let edits = edits_under(commit.changeset().edits(), &dir);
    let (fsnode_first, unode_first) = apart(before.0);
    let (fsnode_second, unode_second) = apart(before.1);
    let fsnode = fsnode_in(
        alloc,
        fsnode_first,
        fsnode_second,
        edits,
        Some(&dir),
        made,
        nodes,
    )?;
    if fsnode.entries.is_empty() {
        return Ok(());
    }
    let link = commit.id();
    let files = fsnode.entries.as_slice();
    let kind = Unodes { link, files };
    let unode = manifest_in(
        alloc,
        unode_first,
        unode_second,
        &kind,
        edits,
        Some(&dir),
        made,
        nodes,
    )?;
    let ids = put_nodes(alloc, &fsnode, unode, nodes)?;
    made.insert(dir, made_of(ids, fsnode.summary))?;
    Ok(())
}

// The two nodes of a directory, if it was there.
fn apart(nodes: Option<DirNodes>) -> (Option<Fsnode>, Option<UnodeBefore>)
    ensures fsnode { option_map fsnode_seen result.0 ≡ fsnode_part (option_map before_seen nodes) }
    ensures unode { option_map (λ b. manifest_seen b.node) result.1 ≡ unode_part (option_map before_seen nodes) }
    ensures id { option_to_list (option_map (λ b. b.id) result.1) ≡ parent_part (option_map before_seen nodes) }
{
    match nodes {
        Some(nodes) => (
            Some(nodes.fsnode),
            Some(UnodeBefore {
                id: nodes.unode_id,
                node: nodes.unode,
            }),
        ),
        None => (None, None),
    }
}

// The entries of a directory in the one above it.
fn made_of(ids: DirIds, summary: Summary) -> Made
    ensures fsnode { fs_entry_seen result.fsnode ≡ FsDir ids.fsnode (summary_seen summary) }
    ensures unode { unode_entry_seen result.unode ≡ UnodeDir ids.unode }
{
    Made {
        fsnode: FsEntry::Directory {
            id: ids.fsnode,
            summary,
        },
        unode: UnodeEntry::Directory(ids.unode),
    }
}

/// Makes the nodes of the root anew, from those of both parents. It is always there.
pub(crate) fn renew_root(
    alloc: Global,
    commit: &Commit,
    before: (Option<DirNodes>, Option<DirNodes>),
    made: &MadeDirs,
    nodes: &mut Vec<Node>,
) -> Result<DirIds, AllocError>
    ensures { (c : Known) (p q : Past) → IsDue c p q commit.now → option_map before_seen before.0 ≡ nodes_of p [] → option_map before_seen before.1 ≡ nodes_of q [] → IsMadeUnder c p q made.now [] → IfOk result (λ ids. (ids ≡ ids_at (At c p q) []) × ArePutFor c p q ([] ∷ []) nodes.old.items nodes.new.items) }
{
    let edits = commit.changeset().edits();
    let (fsnode_first, unode_first) = apart(before.0);
    let (fsnode_second, unode_second) = apart(before.1);
    let fsnode = fsnode_in(alloc, fsnode_first, fsnode_second, edits, None, made, nodes)?;
    let link = commit.id();
    let files = fsnode.entries.as_slice();
    let kind = Unodes { link, files };
    let unode = manifest_in(
        alloc,
        unode_first,
        unode_second,
        &kind,
        edits,
        None,
        made,
        nodes,
    )?;
    put_nodes(alloc, &fsnode, unode, nodes)
}

// Puts the two nodes of a directory to the nodes, and gives their ids.
fn put_nodes(
    alloc: Global,
    fsnode: &Fsnode,
    manifest: UnodeManifest,
    nodes: &mut Vec<Node>,
) -> Result<DirIds, AllocError>
    ensures ids { IfOk result (λ ids. ids ≡ record { fsnode = fsnode_id (fsnode_seen fsnode.now); unode = unode_id (manifest_seen manifest) }) }
    ensures nodes { OnOk result (nodes.new.items ≡ nodes.old.items ++ fsnode_bytes (fsnode_seen fsnode.now) ∷ unode_bytes (manifest_seen manifest) ∷ []) }
{
    let fsnode = put_node(fsnode::encode(alloc, fsnode)?, nodes)?;
    let unode = put_node(unode::encode(alloc, &Unode::Manifest(manifest))?, nodes)?;
    Ok(DirIds { fsnode, unode })
}
