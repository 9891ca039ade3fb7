//! What was derived.

use node_table::Node;
use object_id::Id;

/// The deleted nodes of a changeset: the root's id, and the nodes that are new. All others are the first parent's.
#[derive(Debug, Drop)]
pub struct Done {
    pub root: Id,
    /// Each in its one spelling, with its id.
    pub nodes: Vec<Node>,
}
