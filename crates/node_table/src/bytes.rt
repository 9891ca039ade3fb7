//! The bytes of a node that was read.
ghost use Rattle.std.specs.Prelude.{◌≡◌, IfOk};
ghost use Rattle.node_table.specs.Reads.{bytes_seen};

use std::alloc::{AllocError, Global};

/// The bytes of a node: the table's own, or a copy where it keeps them in parts.
#[derive(Debug, Drop)]
pub enum NodeBytes<'a> {
    Lent(&'a [u8]),
    Joined(Vec<u8>),
}

impl<'a> NodeBytes<'a> {
    /// The bytes.
    pub fn as_slice(&self) -> &[u8]
        ensures { result.now ≡ bytes_seen self.now }
    {
        match self {
            NodeBytes::Lent(bytes) => bytes,
            NodeBytes::Joined(bytes) => bytes.as_slice(),
        }
    }

    /// A list of the bytes. They are copied once at most: where the table keeps them in parts, they are copied already.
    pub fn into_vec(self, alloc: Global) -> Result<Vec<u8>, AllocError>
        ensures { IfOk result (λ bytes. bytes.items ≡ bytes_seen self.entry) }
    {
        match self {
            NodeBytes::Lent(bytes) => Vec::from_slice(alloc, bytes),
            NodeBytes::Joined(bytes) => Ok(bytes),
        }
    }
}
