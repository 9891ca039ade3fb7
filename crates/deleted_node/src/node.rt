//! Deleted nodes.
ghost use Rattle.std.specs.Prelude.{◌≡◌, true};
ghost use Rattle.manifest_model.specs.Deleted.{is_deleted};
ghost use Rattle.deleted_node.specs.Parts.{node_of_parts};

use crate::entry::DeletedChild;
use object_id::Id;

/// What was deleted at a path and under it. Its entries stand by rising names, and each fits its field.
#[derive(Debug, Drop)]
pub struct DeletedNode {
    /// The changeset that took the file at the path away, if there was one and none is there now.
    pub link: Option<Id>,
    pub entries: Vec<DeletedChild>,
    pub ghost valid: { is_deleted (node_of_parts link entries) ≡ true },
}
