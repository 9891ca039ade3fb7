//! New nodes.
ghost use Rattle.std.specs.Prelude.{◌≡◌, ◌++◌, ◌∷◌, [], IfOk, OnOk};
ghost use Rattle.sha2.specs.Sha256.{sha256};

use node_table::Node;
use object_id::Id;
use std::alloc::AllocError;

/// Puts a node to the nodes, and gives its id.
pub(crate) fn put_node(bytes: Vec<u8>, nodes: &mut Vec<Node>) -> Result<Id, AllocError>
    ensures id { IfOk result (λ id. id ≡ sha256 bytes.items) }
    ensures nodes { OnOk result (nodes.new.items ≡ nodes.old.items ++ bytes.items ∷ []) }
{
    let node = Node::of(bytes);
    let id = node.id();
    nodes.push(node)?;
    Ok(id)
}
