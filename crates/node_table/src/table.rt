//! The table of nodes.
ghost use Rattle.std.specs.Prelude.{◌≡◌, ◌↔◌, ◌++◌, ◌∷◌, [], ℕ, List, true, false, Some, None, IsSome, IsOk, is_some, nat_eq, OnOk, OnErr, IfOk, IfErr, IfSome, option_map};
ghost use Rattle.std.specs.List.{IsDistinct};
ghost use Rattle.std.specs.FinMap as map;
ghost use Rattle.sha2.specs.Sha256.{sha256};
ghost use Rattle.node_table.specs.Table.{AreApart, AreDigests, Has, IsAmong, empty_table, first_collision, is_settled, settled_with, with_node};
ghost use Rattle.node_table.specs.Faults.{FaultOf, OfTwo};
ghost use Rattle.node_table.specs.Reads.{bytes_seen};

use crate::bytes::NodeBytes;
use crate::fault::TableFault;
use crate::node::Node;
use crate::root_table::RootTable;
use crate::roots::Roots;
use crate::store::Store;
use object_id::Id;
use std::alloc::{AllocError, Global};
use std::marker::Model;

/// Nodes by their ids, no two different ones under one id, and the roots of the settled changesets.
#[derive(Debug, Drop)]
pub struct NodeTable {
    pub(crate) store: Store,
    roots: RootTable,
    settled: Vec<u32>,
}

impl Model for NodeTable {
    ghost use Rattle.node_table.specs.Table.{IsTable, Table, coded_table};

    ghost Value = { Table };

    ghost coded = { coded_table };

    ghost view = { λ t. record { nodes = t.store; roots = t.roots; settled = t.settled.items } };

    ghost invariant = { λ t. IsTable (record { nodes = t.store; roots = t.roots; settled = t.settled.items }) };
}

impl NodeTable {
    /// A table with nothing in it.
    pub fn new(alloc: Global) -> NodeTable
        ensures { result ≡ empty_table }
    {
        NodeTable {
            store: Store::new(alloc),
            roots: RootTable::new(alloc),
            settled: Vec::new(alloc),
        }
    }

    /// The node of an id. It takes memory only where the node is kept in parts.
    pub fn get(&self, alloc: Global, id: &Id) -> Result<Option<NodeBytes<'_>>, AllocError>
        ensures found { IfOk result (λ node. option_map bytes_seen node ≡ map.get self.now.nodes id.now) }
        ensures digest { IfOk result (λ node. IfSome node (λ bytes. sha256 (bytes_seen bytes) ≡ id.now)) }
        ensures digests { AreDigests self.now.nodes }
    {
        self.store.get(alloc, id)
    }

    /// The roots of a settled changeset. No other has any.
    pub fn roots(&self, number: u32) -> Option<Roots>
        ensures value { result ≡ map.get self.now.roots number }
        ensures settled { is_some result ≡ is_settled self.now number }
    {
        self.roots.get(number)
    }

    /// The numbers of the settled changesets in the order of settling, each once.
    pub fn settled(&self) -> &[u32]
        ensures value { result.now ≡ self.now.settled }
        ensures once { IsDistinct nat_eq result.now }
    {
        self.settled.as_slice()
    }

    /// Puts a node in, and answers its id.
    pub fn insert(&mut self, bytes: Vec<u8>) -> Result<Id, TableFault>
        ensures id { IfOk result (λ id. id ≡ sha256 bytes.items) }
        ensures ok { OnOk result (self.new ≡ record self.old { nodes = with_node self.old.nodes bytes.items }) }
        ensures err { OnErr result (self.new ≡ self.old) }
        ensures nodes { OnOk result ((n : List ℕ) → Has self.new.nodes n ↔ IsAmong self.old.nodes (bytes.items ∷ []) n) }
        ensures apart { OnOk result (AreApart self.old.nodes (bytes.items ∷ [])) }
        ensures fault { IfErr result (λ fault. FaultOf fault (first_collision self.old.nodes (bytes.items ∷ []))) }
        ensures two { IfErr result (λ fault. OfTwo fault self.old.nodes (bytes.items ∷ [])) }
    {
        self.store.insert(bytes)
    }

    /// Puts in all nodes of a changeset with its roots, or nothing. A settled changeset stays as it is.
    pub fn settle(
        &mut self,
        alloc: Global,
        number: u32,
        roots: Roots,
        nodes: Vec<Node>,
    ) -> Result<(), TableFault>
        ensures ok { OnOk result (self.new ≡ settled_with self.old number roots nodes.items) }
        ensures err { OnErr result (self.new ≡ self.old) }
        ensures settled { is_settled self.old number ≡ true → IsOk result × (self.new ≡ self.old) }
        ensures nodes { OnOk result (is_settled self.old number ≡ false → (n : List ℕ) → Has self.new.nodes n ↔ IsAmong self.old.nodes nodes.items n) }
        ensures apart { OnOk result (is_settled self.old number ≡ false → AreApart self.old.nodes nodes.items) }
        ensures fault { IfErr result (λ fault. FaultOf fault (first_collision self.old.nodes nodes.items)) }
        ensures two { IfErr result (λ fault. OfTwo fault self.old.nodes nodes.items) }
    {
        if self.roots.get(number).is_some() {
            return Ok(());
        }
        let mut noted = Vec::new(alloc);
        if let Err(fault) = self.store.insert_all(nodes, &mut noted) {
            self.store.undo(noted);
            return Err(fault);
        }
        if self.note(number, roots).is_err() {
            self.store.undo(noted);
            return Err(TableFault::Memory);
        }
        self.cut_new(alloc, &noted);
        Ok(())
    }

    // Puts those of new nodes into parts that are wide.
    fn cut_new(&mut self, alloc: Global, ids: &[Id])
        ensures { self.new ≡ self.old }
    {
        self.store.cut_all(alloc, ids);
    }

    // Adds a number that isn't settled and its roots, or nothing.
    fn note(&mut self, number: u32, roots: Roots) -> Result<(), AllocError>
        requires { is_settled self.old number ≡ false }
        ensures ok { OnOk result (self.new ≡ record self.old { roots = map.insert self.old.roots number roots; settled = self.old.settled ++ number ∷ [] }) }
        ensures err { OnErr result (self.new ≡ self.old) }
    {
        self.settled.push(number)?;
        if self.roots.insert(number, roots).is_err() {
            let _ = self.settled.pop();
            return Err(AllocError);
        }
        Ok(())
    }
}
