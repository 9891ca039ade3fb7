//! A node, as it is kept.
ghost use Rattle.std.specs.Prelude.{◌≡◌, IfOk, IfSome, bytes_eq, option_map};
ghost use Rattle.manifest_model.specs.NodeReading.{unode_of};
ghost use Rattle.fsnode.specs.Lookup.{entry_named as fs_named};
ghost use Rattle.fsnode.specs.Parts.{entry_seen as fs_entry_seen};
ghost use Rattle.unode.specs.Lookup.{entry_named as unode_named};
ghost use Rattle.unode.specs.Parts.{entry_seen, file_seen};
ghost use Rattle.unode.specs.Views.{file_in};
ghost use Rattle.deleted_node.specs.Lookup.{entry_named as deleted_named, link_in as link_of};
ghost use Rattle.deleted_node.specs.Parts.{entry_seen as deleted_entry_seen};
ghost use Rattle.node_table.specs.Reads.{bytes_seen};

use crate::bytes::NodeBytes;
use deleted_node::DeletedEntry;
use fsnode::FsEntry;
use object_id::Id;
use std::alloc::{AllocError, Global};
use std::marker::Model;
use unode::{FileUnode, UnodeEntry};
use wide_node::WideNode;

/// How a node is kept: its bytes, or the parts of a wide one.
#[derive(Debug, Drop)]
enum Form {
    Whole(Vec<u8>),
    Wide(Box<WideNode>),
}

/// A node. Contracts see the list of its bytes.
#[derive(Debug, Drop)]
pub struct Stored {
    form: Form,
}

impl Model for Stored {
    ghost use Rattle.std.specs.Prelude.{ℕ, List};
    ghost use Rattle.std.specs.Coded.{coded_ℕ, coded_list};

    ghost Value = { List ℕ };

    ghost coded = { coded_list coded_ℕ };

    ghost use Rattle.node_table.specs.Parts.{form_bytes};

    ghost view = { λ s. form_bytes s.form };
}

impl Stored {
    /// A node by its bytes.
    pub fn whole(bytes: Vec<u8>) -> Stored
        ensures { result ≡ bytes.items }
    {
        Stored {
            form: Form::Whole(bytes),
        }
    }

    /// A wide node.
    pub fn wide(alloc: Global, node: WideNode) -> Result<Stored, AllocError>
        ensures { IfOk result (λ stored. stored ≡ node) }
    {
        let node = Box::new(alloc, node)?;
        Ok(Stored {
            form: Form::Wide(node),
        })
    }

    /// The bytes, if they are kept as one.
    pub fn as_whole(&self) -> Option<&[u8]>
        ensures { IfSome result (λ bytes. bytes.now ≡ self.now) }
    {
        match &self.form {
            Form::Whole(bytes) => Some(bytes.as_slice()),
            Form::Wide(_) => None,
        }
    }

    /// The bytes, copied where they are kept in parts.
    pub fn bytes(&self, alloc: Global) -> Result<NodeBytes<'_>, AllocError>
        ensures { IfOk result (λ bytes. bytes_seen bytes ≡ self.now) }
    {
        match &self.form {
            Form::Whole(bytes) => Ok(NodeBytes::Lent(bytes.as_slice())),
            Form::Wide(node) => Ok(NodeBytes::Joined(node.to_vec(alloc)?)),
        }
    }

    /// Whether these are its bytes.
    pub fn is_same(&self, bytes: &[u8]) -> bool
        ensures { result ≡ bytes_eq self.now bytes.now }
    {
        match &self.form {
            Form::Whole(found) => found.as_slice() == bytes,
            Form::Wide(node) => node.is_same(bytes),
        }
    }

    /// The entry of a name in it as an fsnode.
    pub fn fs_entry(&self, name: &str) -> Option<FsEntry>
        ensures { option_map fs_entry_seen result ≡ fs_named self.now name.now }
    {
        match &self.form {
            Form::Whole(bytes) => fsnode::entry_in(bytes, name),
            Form::Wide(node) => node.fs_entry(name),
        }
    }

    /// The entry of a name in it as a unode.
    pub fn unode_entry(&self, name: &str) -> Option<UnodeEntry>
        ensures { option_map entry_seen result ≡ unode_named self.now name.now }
    {
        match &self.form {
            Form::Whole(bytes) => unode::entry_in(bytes, name),
            Form::Wide(node) => node.unode_entry(name),
        }
    }

    /// The entry of a name in it as a deleted node.
    pub fn deleted_entry(&self, name: &str) -> Option<DeletedEntry>
        ensures { option_map deleted_entry_seen result ≡ deleted_named self.now name.now }
    {
        match &self.form {
            Form::Whole(bytes) => deleted_node::entry_in(bytes, name),
            Form::Wide(node) => node.deleted_entry(name),
        }
    }

    /// The link in it as a deleted node.
    pub fn deleted_link(&self) -> Option<Id>
        ensures { result ≡ link_of self.now }
    {
        match &self.form {
            Form::Whole(bytes) => deleted_node::link_in(bytes),
            Form::Wide(node) => node.deleted_link(),
        }
    }

    /// It as the unode of a file.
    pub fn file_unode(&self) -> Option<FileUnode>
        ensures { option_map file_seen result ≡ file_in (unode_of self.now) }
    {
        match &self.form {
            Form::Whole(bytes) => unode::decode_file(bytes),
            Form::Wide(node) => node.file_unode(),
        }
    }
}
