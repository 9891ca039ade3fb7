//! The roots of a changeset's manifests.

use object_id::Id;

/// The ids of a changeset's root nodes: of the fsnode, of the unode, and of the deleted node.
#[derive(Clone, Copy, Debug, PartialEq, Eq)]
pub struct Roots {
    pub fsnode: Id,
    pub unode: Id,
    pub deleted: Id,
}
