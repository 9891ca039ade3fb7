//! A node with its id.
ghost use Rattle.std.specs.Prelude.{◌≡◌};
ghost use Rattle.sha2.specs.Sha256.{sha256};

use object_id::Id;
use std::marker::Model;

/// The bytes of a node, with their SHA-256 (FIPS 180-4). They are hashed once, when the node is made. Contracts see the
/// list of the bytes.
#[derive(Debug, Drop)]
pub struct Node {
    id: Id,
    bytes: Vec<u8>,
}

impl Model for Node {
    ghost use Rattle.std.specs.Prelude.{◌≡◌, ℕ, List};
    ghost use Rattle.std.specs.Coded.{coded_ℕ, coded_list};
    ghost use Rattle.sha2.specs.Sha256.{sha256};

    ghost Value = { List ℕ };

    ghost coded = { coded_list coded_ℕ };

    ghost view = { λ n. n.bytes.items };

    ghost invariant = { λ n. n.id ≡ sha256 n.bytes.items };
}

impl Node {
    /// The node with these bytes.
    pub fn of(bytes: Vec<u8>) -> Node
        ensures { result ≡ bytes.items }
    {
        let id = Id::of(&bytes);
        Node { id, bytes }
    }

    /// The id of the node.
    pub fn id(&self) -> Id
        ensures { result ≡ sha256 self.now }
    {
        self.id
    }

    /// The bytes of the node.
    pub fn bytes(&self) -> &[u8]
        ensures { result.now ≡ self.now }
    {
        self.bytes.as_slice()
    }

    /// The bytes alone.
    pub fn into_bytes(self) -> Vec<u8>
        ensures { result.items ≡ self }
    {
        self.bytes
    }
}
