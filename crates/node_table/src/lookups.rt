//! What is read of nodes in a table without memory.
ghost use Rattle.std.specs.Prelude.{◌≡◌, option_map};
ghost use Rattle.fsnode.specs.Parts.{entry_seen as fs_entry_seen};
ghost use Rattle.unode.specs.Parts.{entry_seen, file_seen};
ghost use Rattle.deleted_node.specs.Parts.{entry_seen as deleted_entry_seen};
ghost use Rattle.node_table.specs.Reads.{deleted_entry_in, deleted_link_in, file_unode_in, fs_entry_in, unode_entry_in};

use crate::table::NodeTable;
use deleted_node::DeletedEntry;
use fsnode::FsEntry;
use object_id::Id;
use unode::{FileUnode, UnodeEntry};

impl NodeTable {
    /// The entry of a name in the fsnode of an id.
    pub fn fs_entry(&self, id: &Id, name: &str) -> Option<FsEntry>
        ensures { option_map fs_entry_seen result ≡ fs_entry_in self.now.nodes id.now name.now }
    {
        self.store.stored(id)?.fs_entry(name)
    }

    /// The entry of a name in the unode of an id.
    pub fn unode_entry(&self, id: &Id, name: &str) -> Option<UnodeEntry>
        ensures { option_map entry_seen result ≡ unode_entry_in self.now.nodes id.now name.now }
    {
        self.store.stored(id)?.unode_entry(name)
    }

    /// The entry of a name in the deleted node of an id.
    pub fn deleted_entry(&self, id: &Id, name: &str) -> Option<DeletedEntry>
        ensures { option_map deleted_entry_seen result ≡ deleted_entry_in self.now.nodes id.now name.now }
    {
        self.store.stored(id)?.deleted_entry(name)
    }

    /// The link in the deleted node of an id.
    pub fn deleted_link(&self, id: &Id) -> Option<Id>
        ensures { result ≡ deleted_link_in self.now.nodes id.now }
    {
        self.store.stored(id)?.deleted_link()
    }

    /// The unode of a file that stands under an id.
    pub fn file_unode(&self, id: &Id) -> Option<FileUnode>
        ensures { option_map file_seen result ≡ file_unode_in self.now.nodes id.now }
    {
        self.store.stored(id)?.file_unode()
    }
}
