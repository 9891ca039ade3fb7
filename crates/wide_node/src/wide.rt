//! A wide node, and what is read of it.
ghost use Rattle.std.specs.Prelude.{◌≡◌, ◌↔◌, IsTrue, IfOk, option_map};
ghost use Rattle.manifest_model.specs.NodeReading.{unode_of};
ghost use Rattle.fsnode.specs.Lookup.{entry_named as fs_named};
ghost use Rattle.fsnode.specs.Parts.{entry_seen as fs_entry_seen};
ghost use Rattle.unode.specs.Lookup.{entry_named as unode_named};
ghost use Rattle.unode.specs.Parts.{entry_seen, file_seen};
ghost use Rattle.unode.specs.Views.{file_in};
ghost use Rattle.deleted_node.specs.Lookup.{entry_named as deleted_named, link_in as link_of};
ghost use Rattle.deleted_node.specs.Parts.{entry_seen as deleted_entry_seen};

use crate::kind::Kind;
use deleted_node::{DeletedEntry, link_in};
use fsnode::FsEntry;
use node_parts::{Part, entry_in_parts, parts_are, parts_len, write_parts};
use object_id::Id;
use std::alloc::{AllocError, Global};
use std::marker::Model;
use unode::{FileUnode, UnodeEntry};

/// The node of a wide directory: what stands before its entries, and the entries in parts. Contracts see the list of its
/// bytes.
#[derive(Debug, Drop)]
pub struct WideNode {
    pub(crate) kind: Kind,
    pub(crate) count: u32,
    pub(crate) front: Vec<u8>,
    pub(crate) parts: Vec<Part>,
}

impl Model for WideNode {
    ghost use Rattle.std.specs.Prelude.{ℕ, List, ◌++◌};
    ghost use Rattle.std.specs.Coded.{coded_ℕ, coded_list};
    ghost use Rattle.node_parts.specs.Parts.{joined};
    ghost use Rattle.wide_node.specs.Wide.{IsWide};

    ghost Value = { List ℕ };

    ghost coded = { coded_list coded_ℕ };

    ghost view = { λ n. n.front.items ++ joined n.parts.items };

    ghost invariant = { λ n. IsWide n.kind n.count n.front.items n.parts.items };
}

impl WideNode {
    /// The bytes, copied once into a list of their length.
    pub fn to_vec(&self, alloc: Global) -> Result<Vec<u8>, AllocError>
        ensures { IfOk result (λ bytes. bytes.items ≡ self.now) }
    {
        let len = self.front.len().saturating_add(parts_len(&self.parts));
        let mut bytes = Vec::with_capacity(alloc, len)?;
        bytes.extend_from_slice(&self.front)?;
        write_parts(&self.parts, &mut bytes)?;
        Ok(bytes)
    }

    /// Whether these are its bytes.
    pub fn is_same(&self, bytes: &[u8]) -> bool
        ensures { IsTrue result ↔ (self.now ≡ bytes.now) }
    {
        let front = self.front.as_slice();
        if bytes.len() < front.len() {
            return false;
        }
        let (here, rest) = bytes.split_at(front.len());
        here == front && parts_are(&self.parts, rest)
    }

    /// The entry of a name, where it is an fsnode.
    pub fn fs_entry(&self, name: &str) -> Option<FsEntry>
        ensures { option_map fs_entry_seen result ≡ fs_named self.now name.now }
    {
        match self.kind {
            Kind::Fsnode => entry_in_parts(&self.parts, self.count, name.as_bytes()),
            Kind::Unode | Kind::Deleted => None,
        }
    }

    /// The entry of a name, where it is a unode.
    pub fn unode_entry(&self, name: &str) -> Option<UnodeEntry>
        ensures { option_map entry_seen result ≡ unode_named self.now name.now }
    {
        match self.kind {
            Kind::Unode => entry_in_parts(&self.parts, self.count, name.as_bytes()),
            Kind::Fsnode | Kind::Deleted => None,
        }
    }

    /// The entry of a name, where it is a deleted node.
    pub fn deleted_entry(&self, name: &str) -> Option<DeletedEntry>
        ensures { option_map deleted_entry_seen result ≡ deleted_named self.now name.now }
    {
        match self.kind {
            Kind::Deleted => entry_in_parts(&self.parts, self.count, name.as_bytes()),
            Kind::Fsnode | Kind::Unode => None,
        }
    }

    /// The link, where it is a deleted node. It stands before the entries.
    pub fn deleted_link(&self) -> Option<Id>
        ensures { result ≡ link_of self.now }
    {
        match self.kind {
            Kind::Deleted => link_in(&self.front),
            Kind::Fsnode | Kind::Unode => None,
        }
    }

    /// The unode of a file, which a directory's node isn't.
    pub fn file_unode(&self) -> Option<FileUnode>
        ensures { option_map file_seen result ≡ file_in (unode_of self.now) }
    {
        match self.kind {
            Kind::Fsnode | Kind::Unode | Kind::Deleted => None,
        }
    }
}
