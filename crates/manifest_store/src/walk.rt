//! From the root of a manifest down a path, by the nodes on the path alone.
ghost use Rattle.std.specs.Prelude.{◌≡◌, ℕ, List, Option, option_map};
ghost use Rattle.byte_fields.specs.Bytes.{Id as IdBytes};
ghost use Rattle.manifest_model.specs.Unode.{UnodeEntry as ModelEntry, UnodeDir};
ghost use Rattle.fsnode.specs.Parts.{entry_seen as fs_entry_seen};
ghost use Rattle.unode.specs.Parts.{entry_seen};
ghost use Rattle.deleted_node.specs.Parts.{entry_seen as deleted_entry_seen};
ghost use Rattle.manifest_store.specs.Nodes.{entry_of as entry_of_fs, deleted_entry_under, fs_entry_under, unode_entry_under, walk as walked};
ghost use Rattle.manifest_store.specs.Dirs.{left};
ghost use Rattle.manifest_store.specs.Reads.{dir_of};

use crate::place::parted;
use deleted_node::DeletedEntry;
use fsnode::FsEntry;
use node_table::NodeTable;
use object_id::Id;
use repo_path::RepoPath;
use unode::UnodeEntry;

/// Manifests whose directories tell what they have under a name: a file or a directory, by the id of its node or, for a
/// file of an fsnode, of its content.
pub(crate) trait Tree {
    ghost look: { Self → IdBytes → List ℕ → Option ModelEntry };

    fn entry(&self, dir: &Id, name: &str) -> Option<UnodeEntry>
        ensures { option_map entry_seen result ≡ look self.now dir.now name.now };
}

/// The fsnodes of a table.
#[derive(Clone, Copy)]
pub(crate) struct Fsnodes<'a> {
    pub(crate) table: &'a NodeTable,
}

/// The unodes of a table.
#[derive(Clone, Copy)]
pub(crate) struct Unodes<'a> {
    pub(crate) table: &'a NodeTable,
}

impl<'a> Tree for Fsnodes<'a> {
    ghost look = { λ t x n. fs_entry_under t.table.now.nodes x n };

    fn entry(&self, dir: &Id, name: &str) -> Option<UnodeEntry> {
        entry_of_fsnode(self.table.fs_entry(dir, name))
    }
}

impl<'a> Tree for Unodes<'a> {
    ghost look = { λ t x n. unode_entry_under t.table.now.nodes x n };

    fn entry(&self, dir: &Id, name: &str) -> Option<UnodeEntry> {
        self.table.unode_entry(dir, name)
    }
}

/// The deleted nodes of a table. Each has its entries, as a directory.
#[derive(Clone, Copy)]
pub(crate) struct DeletedNodes<'a> {
    pub(crate) table: &'a NodeTable,
}

impl<'a> Tree for DeletedNodes<'a> {
    ghost look = { λ t x n. deleted_entry_under t.table.now.nodes x n };

    fn entry(&self, dir: &Id, name: &str) -> Option<UnodeEntry> {
        entry_of_deleted(self.table.deleted_entry(dir, name))
    }
}

fn entry_of_deleted(entry: Option<DeletedEntry>) -> Option<UnodeEntry>
    ensures { option_map entry_seen result ≡ option_map UnodeDir (option_map deleted_entry_seen entry) }
{
    match entry {
        Some(entry) => Some(UnodeEntry::Directory(entry.id)),
        None => None,
    }
}

fn entry_of_fsnode(entry: Option<FsEntry>) -> Option<UnodeEntry>
    ensures { option_map entry_seen result ≡ option_map entry_of_fs (option_map fs_entry_seen entry) }
{
    match entry {
        Some(entry) => Some(entry_of(entry)),
        None => None,
    }
}

fn entry_of(entry: FsEntry) -> UnodeEntry
    ensures { entry_seen result ≡ entry_of_fs (fs_entry_seen entry) }
{
    match entry {
        FsEntry::File { content, .. } => UnodeEntry::File(content),
        FsEntry::Directory { id, .. } => UnodeEntry::Directory(id),
    }
}

/// The entry of a path, from the root on.
pub(crate) fn walk<T: Tree>(tree: &T, root: Id, path: Option<&RepoPath>) -> Option<UnodeEntry>
    ensures { option_map entry_seen result ≡ walked (T.look tree.now) (UnodeDir root) (dir_of path.entry) }
{
    let mut at = UnodeEntry::Directory(root);
    let mut rest = text_of(path);
    while let Some(text) = rest {
        let UnodeEntry::Directory(dir) = at else {
            return None;
        };
        let (name, after) = parted(text);
        let Some(entry) = tree.entry(&dir, name) else {
            return None;
        };
        at = entry;
        rest = after;
    }
    Some(at)
}

// The text of a path, if it isn't the root.
fn text_of<'a>(path: Option<&'a RepoPath>) -> Option<&'a str>
    ensures { left result ≡ dir_of path.entry }
{
    match path {
        Some(path) => Some(path.as_str()),
        None => None,
    }
}
