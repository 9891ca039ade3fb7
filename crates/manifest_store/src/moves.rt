//! The files that come and go by edits and by a second parent.
ghost use Rattle.std.specs.Prelude.{◌≡◌, ◌<◌, ◌&&◌, not, List, [], length, IfOk, OnOk, IfSome, IfNone, option_map};
ghost use Rattle.byte_fields.specs.Bytes.{Id as IdBytes};
ghost use Rattle.manifest_model.specs.Unode.{UnodeFile, UnodeDir};
ghost use Rattle.std.specs.List.{list_any};
ghost use Rattle.std.specs.Ordering.{eq_by_cmp};
ghost use Rattle.changeset_model.specs.Path.{path_cmp, is_strict_prefix};
ghost use Rattle.bonsai.specs.View.{edit_view, edits_view};
ghost use Rattle.history_model.specs.Past.{Past};
ghost use Rattle.unode.specs.Parts.{entry_seen};
ghost use Rattle.manifest_store.specs.Deciding.{AreMade};
ghost use Rattle.manifest_store.specs.Moves.{Stands, IsEntryAt, Adds, comes, has_file, takes, takes_at, brings};

use crate::brought::add_brought;
use crate::under::add_files_under;
use crate::walk::{Fsnodes, walk};
use bonsai::{Change, Edit};
use derive_step::text_above;
use node_table::{NodeTable, Roots};
use object_id::Id;
use repo_path::{RepoPath, has_elements, path_of};
use std::alloc::{AllocError, Global};
use unode::UnodeEntry;

/// Paths of files that come and go. One may be there more than once.
#[derive(Drop)]
pub(crate) struct Moved {
    pub(crate) gone: Vec<RepoPath>,
    pub(crate) come: Vec<RepoPath>,
}

/// The files that come and go against the first parent: those that edits add or take away, and those of the second parent
/// that edits leave.
pub(crate) fn moved_by(
    alloc: Global,
    table: &NodeTable,
    parent: &Option<Roots>,
    second: &Option<Roots>,
    edits: &[Edit],
) -> Result<Moved, AllocError>
    requires { AreMade (edits_view edits.now) }
    ensures gone { (past : Past) → Stands table.now.nodes parent.now past → IfOk result (λ moved. Adds (λ p. has_file past p && list_any (λ e. takes e p) (edits_view edits.now)) [] moved.gone.items) }
    ensures come { (past other : Past) → Stands table.now.nodes parent.now past → Stands table.now.nodes second.now other → IfOk result (λ moved. Adds (comes past other (edits_view edits.now)) [] moved.come.items) }
{
    let mut moved = moved_by_edits(alloc, table, parent, edits)?;
    let Some(second) = second else {
        return Ok(moved);
    };
    add_brought(alloc, table, parent, second, edits, &mut moved.come)?;
    Ok(moved)
}

// The files that edits add, and those that they take away.
fn moved_by_edits(
    alloc: Global,
    table: &NodeTable,
    parent: &Option<Roots>,
    edits: &[Edit],
) -> Result<Moved, AllocError>
    ensures gone { (past : Past) → Stands table.now.nodes parent.now past → IfOk result (λ moved. Adds (λ p. has_file past p && list_any (λ e. takes e p) (edits_view edits.now)) [] moved.gone.items) }
    ensures come { (past : Past) → Stands table.now.nodes parent.now past → IfOk result (λ moved. Adds (λ p. not (has_file past p) && list_any (λ e. brings e p) (edits_view edits.now)) [] moved.come.items) }
{
    let mut moved = Moved {
        gone: Vec::new(alloc),
        come: Vec::new(alloc),
    };
    for edit in edits {
        add_edit(alloc, table, parent, edit, &mut moved)?;
    }
    Ok(moved)
}

// What one edit changes. A file that is set where a directory was takes all files under it away, and one that is set under
// a file takes that file away.
fn add_edit(
    alloc: Global,
    table: &NodeTable,
    parent: &Option<Roots>,
    edit: &Edit,
    moved: &mut Moved,
) -> Result<(), AllocError>
    ensures gone { (past : Past) → Stands table.now.nodes parent.now past → OnOk result (Adds (λ p. has_file past p && takes (edit_view edit.now) p) moved.old.gone.items moved.new.gone.items) }
    ensures come { (past : Past) → Stands table.now.nodes parent.now past → OnOk result (Adds (λ p. not (has_file past p) && brings (edit_view edit.now) p) moved.old.come.items moved.new.come.items) }
{
    match &edit.change {
        Change::Set { .. } => add_set(alloc, table, parent, &edit.path, moved),
        Change::Delete => add_delete(alloc, table, parent, &edit.path, &mut moved.gone),
    }
}

fn add_set(
    alloc: Global,
    table: &NodeTable,
    parent: &Option<Roots>,
    path: &RepoPath,
    moved: &mut Moved,
) -> Result<(), AllocError>
    ensures gone { (past : Past) → Stands table.now.nodes parent.now past → OnOk result (Adds (λ p. has_file past p && takes_at path.now p) moved.old.gone.items moved.new.gone.items) }
    ensures come { (past : Past) → Stands table.now.nodes parent.now past → OnOk result (Adds (λ p. not (has_file past p) && eq_by_cmp path_cmp p path.now) moved.old.come.items moved.new.come.items) }
{
    let Some(entry) = entry_before(table, parent, path) else {
        moved.come.push(path.copy(alloc)?)?;
        return add_file_above(alloc, table, parent, path, &mut moved.gone);
    };
    let Some(id) = dir_id(&entry) else {
        return Ok(());
    };
    moved.come.push(path.copy(alloc)?)?;
    add_files_under(alloc, table, path, &id, &mut moved.gone)
}

fn dir_id(entry: &UnodeEntry) -> Option<Id>
    ensures directory { IfSome result (λ id. entry_seen entry.now ≡ UnodeDir id) }
    ensures file { IfNone result ((content : IdBytes) × (entry_seen entry.now ≡ UnodeFile content)) }
{
    match entry {
        UnodeEntry::File(_) => None,
        UnodeEntry::Directory(id) => Some(*id),
    }
}

fn add_delete(
    alloc: Global,
    table: &NodeTable,
    parent: &Option<Roots>,
    path: &RepoPath,
    gone: &mut Vec<RepoPath>,
) -> Result<(), AllocError>
    ensures { (past : Past) → Stands table.now.nodes parent.now past → OnOk result (Adds (λ p. has_file past p && eq_by_cmp path_cmp p path.now) gone.old.items gone.new.items) }
{
    if is_file_before(table, parent, path) {
        gone.push(path.copy(alloc)?)?;
    }
    Ok(())
}

// Adds the file above a path, if there is one.
fn add_file_above(
    alloc: Global,
    table: &NodeTable,
    parent: &Option<Roots>,
    path: &RepoPath,
    gone: &mut Vec<RepoPath>,
) -> Result<(), AllocError>
    ensures { (past : Past) → Stands table.now.nodes parent.now past → OnOk result (Adds (λ p. has_file past p && is_strict_prefix p path.now) gone.old.items gone.new.items) }
{
    let mut text = path.as_str();
    while let Some(above) = text_above(text) {
        let dir = path_of(alloc, above)?;
        if is_file_before(table, parent, &dir) {
            gone.push(dir)?;
            return Ok(());
        }
        text = above;
    }
    Ok(())
}

fn is_file_before(table: &NodeTable, parent: &Option<Roots>, path: &RepoPath) -> bool
    ensures { (past : Past) → Stands table.now.nodes parent.now past → result ≡ has_file past path.now }
{
    matches!(entry_before(table, parent, path), Some(UnodeEntry::File(_)))
}

// What is at a path, by the fsnodes.
fn entry_before(table: &NodeTable, parent: &Option<Roots>, path: &RepoPath) -> Option<UnodeEntry>
    ensures entry { (past : Past) → Stands table.now.nodes parent.now past → IsEntryAt past path.now (option_map entry_seen result) }
    ensures path { 0 < length path.now }
{
    has_elements(path);
    match parent {
        Some(roots) => walk(&Fsnodes { table }, roots.fsnode, Some(path)),
        None => None,
    }
}
