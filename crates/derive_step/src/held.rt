//! Deleted nodes that a job holds.
ghost use Rattle.std.specs.Prelude.{◌≡◌, [], None, OnOk};
ghost use Rattle.std.specs.Option.{option_copied};
ghost use Rattle.std.specs.Ordering.{nat_cmp};
ghost use Rattle.std.specs.Cmp.Lexicographic.{slice_cmp};
ghost use Rattle.std.specs.BTreeMap.{get};

use deleted_step::Nodes;
use node_table::Node;
use object_id::Id;
use std::collections::BTreeMap;

/// Nodes by their ids.
#[derive(Debug, Drop)]
pub struct HeldNodes {
    pub nodes: BTreeMap<Id, Node>,
}

impl Nodes for HeldNodes {
    ghost contents = { λ h id. get (slice_cmp nat_cmp) h.nodes id };

    fn node(&self, id: &Id) -> Option<&[u8]> {
        match self.nodes.get(id) {
            Some(node) => Some(node.bytes()),
            None => None,
        }
    }
}
