//! Where deleted nodes are read.
ghost use Rattle.std.specs.Prelude.{◌≡◌, ℕ, List, Option};
ghost use Rattle.std.specs.Option.{option_copied};
ghost use Rattle.byte_fields.specs.Bytes.{Id as IdBytes};

use object_id::Id;

/// Nodes by their ids.
pub trait Nodes {
    // The bytes of the node of each id that has one.
    ghost contents: { Self → IdBytes → Option (List ℕ) };

    /// The bytes of a node.
    fn node(&self, id: &Id) -> Option<&[u8]>
        ensures { option_copied result ≡ contents self.now id.now };
}
