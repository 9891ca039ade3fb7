//! Directories by the fsnodes in a table.
ghost use Rattle.std.specs.Prelude.{◌≡◌, IfOk};
ghost use Rattle.fsnode.specs.Parts.{children_seen};
ghost use Rattle.merge_walk.specs.Table.{entries_spelled, entries_under, entries_rise};

use crate::directories::Directories;
use fsnode::{FsChild, decode};
use node_fields::NodeFault;
use node_table::NodeTable;
use object_id::Id;
use std::alloc::{AllocError, Global};

/// The directories whose fsnodes stand in a table. What is no fsnode there has no entries.
#[derive(Clone, Copy)]
pub struct Fsnodes<'a> {
    pub table: &'a NodeTable,
}

impl<'a> Directories for Fsnodes<'a> {
    ghost listed = { λ dirs x. entries_under dirs.table.now.nodes x };

    fn entries(&self, alloc: Global, dir: &Id) -> Result<Vec<FsChild>, AllocError> {
        match self.table.get(alloc, dir)? {
            Some(bytes) => entries_of(alloc, bytes.as_slice()),
            None => Ok(Vec::new(alloc)),
        }
    }

    ghost rising = { λ dirs x. entries_rise dirs.table.now.nodes x };
}

fn entries_of(alloc: Global, bytes: &[u8]) -> Result<Vec<FsChild>, AllocError>
    ensures { IfOk result (λ entries. children_seen entries.items ≡ entries_spelled bytes.now) }
{
    match decode(alloc, bytes) {
        Ok(node) => Ok(node.entries),
        Err(NodeFault::BadNode { at: _ }) => Ok(Vec::new(alloc)),
        Err(NodeFault::Memory) => Err(AllocError),
    }
}
