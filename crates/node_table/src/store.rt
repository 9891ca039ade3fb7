//! Nodes by their ids.
ghost use Rattle.std.specs.Prelude.{◌≡◌, ◌∷◌, [], Some, None, OnOk, OnErr, IfOk, IfErr, IfSome, option_map};
ghost use Rattle.std.specs.Option.{option_copied};
ghost use Rattle.std.specs.Ordering.{nat_cmp};
ghost use Rattle.std.specs.Cmp.Lexicographic.{slice_cmp};
ghost use Rattle.std.specs.BTreeMap.{get as get_entry};
ghost use Rattle.std.specs.FinMap as map;
ghost use Rattle.sha2.specs.Sha256.{sha256};
ghost use Rattle.node_table.specs.Table.{AreDigests, collides, first_collision, with_node, with_nodes, without};
ghost use Rattle.node_table.specs.Faults.{FaultOf, IsHeld};
ghost use Rattle.node_table.specs.Parts.{nodes_of_entries};
ghost use Rattle.node_table.specs.Reads.{bytes_seen};

use crate::bytes::NodeBytes;
use crate::fault::TableFault;
use crate::node::Node;
use crate::stored::Stored;
use node_parts::PartPool;
use object_id::Id;
use std::alloc::{AllocError, Global};
use std::collections::BTreeMap;
use std::marker::Model;
use wide_node::WideNode;

/// What stands under the id of a node.
pub enum Held {
    Nothing,
    Same,
    Other,
}

/// Nodes, each under the SHA-256 (FIPS 180-4) of its bytes. The parts of wide ones are shared.
#[derive(Debug, Drop)]
pub struct Store {
    nodes: BTreeMap<Id, Stored>,
    pool: PartPool,
}

impl Model for Store {
    ghost use Rattle.std.specs.FinMap as map;
    ghost use Rattle.std.specs.Coded.{coded_ℕ, coded_list};
    ghost use Rattle.node_table.specs.Table.{Nodes, AreDigests};
    ghost use Rattle.node_table.specs.Parts.{nodes_of_entries};

    ghost Value = { Nodes };

    ghost coded = { map.code (coded_list coded_ℕ) (coded_list coded_ℕ) };

    ghost view = { λ s. nodes_of_entries s.nodes.entries };

    ghost invariant = { λ s. AreDigests (nodes_of_entries s.nodes.entries) };
}

impl Store {
    pub fn new(alloc: Global) -> Store
        ensures { result ≡ map.empty }
    {
        Store {
            nodes: BTreeMap::new(alloc),
            pool: PartPool::new(alloc),
        }
    }

    /// The node of an id, as it is kept.
    pub fn stored(&self, id: &Id) -> Option<&Stored>
        ensures found { option_copied result ≡ map.get self.now id.now }
        ensures digest { IfSome result (λ node. sha256 node.now ≡ id.now) }
        ensures digests { AreDigests self.now }
    {
        self.nodes.get(id)
    }

    /// The bytes of the node of an id.
    pub fn get(&self, alloc: Global, id: &Id) -> Result<Option<NodeBytes<'_>>, AllocError>
        ensures found { IfOk result (λ node. option_map bytes_seen node ≡ map.get self.now id.now) }
        ensures digest { IfOk result (λ node. IfSome node (λ bytes. sha256 (bytes_seen bytes) ≡ id.now)) }
        ensures digests { AreDigests self.now }
    {
        match self.stored(id) {
            Some(node) => Ok(Some(node.bytes(alloc)?)),
            None => Ok(None),
        }
    }

    fn put(&mut self, node: Node) -> Result<(), AllocError>
        ensures ok { OnOk result (self.new ≡ with_node self.old node) }
        ensures err { OnErr result (self.new ≡ self.old) }
    {
        let id = node.id();
        self.nodes.insert(id, Stored::whole(node.into_bytes()))?;
        Ok(())
    }

    fn remove(&mut self, id: &Id)
        ensures { self.new ≡ map.remove self.old id.now }
    {
        let _ = self.nodes.remove(id);
    }

    // What stands under the id of a node.
    fn held(&self, node: &Node) -> Held
        ensures { IsHeld result node.now (map.get self.now (sha256 node.now)) }
    {
        match self.stored(&node.id()) {
            None => Held::Nothing,
            Some(found) if found.is_same(node.bytes()) => Held::Same,
            Some(_) => Held::Other,
        }
    }

    /// Puts a node in.
    pub fn insert(&mut self, bytes: Vec<u8>) -> Result<Id, TableFault>
        ensures id { IfOk result (λ id. id ≡ sha256 bytes.items) }
        ensures ok { OnOk result (self.new ≡ with_node self.old bytes.items) }
        ensures err { OnErr result (self.new ≡ self.old) }
        ensures apart { OnOk result (first_collision self.old (bytes.items ∷ []) ≡ None) }
        ensures fault { IfErr result (λ fault. FaultOf fault (first_collision self.old (bytes.items ∷ []))) }
    {
        let node = Node::of(bytes);
        let id = node.id();
        match self.held(&node) {
            Held::Nothing => {
                self.put(node)?;
                Ok(id)
            }
            Held::Same => Ok(id),
            Held::Other => Err(TableFault::Collision { id }),
        }
    }

    // Puts a node in, and notes its id first if nothing stands there.
    fn insert_noted(&mut self, node: Node, noted: &mut Vec<Id>) -> Result<(), TableFault>
        ensures ok { OnOk result (self.new ≡ with_node self.old node) }
        ensures undo { without noted.new.items self.new ≡ without noted.old.items self.old }
        ensures apart { OnOk result (first_collision self.old (node ∷ []) ≡ None) }
        ensures fault { IfErr result (λ fault. FaultOf fault (first_collision self.old (node ∷ []))) }
    {
        let id = node.id();
        match self.held(&node) {
            Held::Nothing => {
                noted.push(id)?;
                self.put(node)?;
                Ok(())
            }
            Held::Same => Ok(()),
            Held::Other => Err(TableFault::Collision { id }),
        }
    }

    /// Puts nodes in, and notes the ids under which nothing stood: without these the nodes are as they were.
    pub fn insert_all(&mut self, nodes: Vec<Node>, noted: &mut Vec<Id>) -> Result<(), TableFault>
        ensures ok { OnOk result (self.new ≡ with_nodes self.old nodes.items) }
        ensures undo { without noted.new.items self.new ≡ without noted.old.items self.old }
        ensures apart { OnOk result (first_collision self.old nodes.items ≡ None) }
        ensures fault { IfErr result (λ fault. FaultOf fault (first_collision self.old nodes.items)) }
    {
        let mut rest = nodes.into_iter();
        while let Some(node) = rest.next() {
            self.insert_noted(node, noted)?;
        }
        Ok(())
    }

    /// Takes the nodes of these ids out.
    pub fn undo(&mut self, mut noted: Vec<Id>)
        ensures { self.new ≡ without noted.items self.old }
    {
        while let Some(id) = noted.pop() {
            self.remove(&id);
        }
    }

    /// Puts those of the nodes of these ids into parts that are wide. One for whose parts there is no memory stays whole.
    pub fn cut_all(&mut self, alloc: Global, ids: &[Id])
        ensures { self.new ≡ self.old }
    {
        for id in ids {
            let _ = self.cut(alloc, id);
        }
    }

    fn cut(&mut self, alloc: Global, id: &Id) -> Result<(), AllocError>
        ensures { self.new ≡ self.old }
    {
        cut_under(alloc, &mut self.nodes, id, &mut self.pool)
    }
}

// Puts the node of an id into parts if it is wide.
fn cut_under(
    alloc: Global,
    nodes: &mut BTreeMap<Id, Stored>,
    id: &Id,
    pool: &mut PartPool,
) -> Result<(), AllocError>
    ensures { nodes_of_entries nodes.new.entries ≡ nodes_of_entries nodes.old.entries }
{
    let Some(node) = wide_under(alloc, nodes, id, pool)? else {
        return Ok(());
    };
    nodes.insert(*id, Stored::wide(alloc, node)?)?;
    Ok(())
}

// The node of an id in parts, if it is kept whole and is wide.
fn wide_under(
    alloc: Global,
    nodes: &BTreeMap<Id, Stored>,
    id: &Id,
    pool: &mut PartPool,
) -> Result<Option<WideNode>, AllocError>
    ensures { IfOk result (λ node. IfSome node (λ n. get_entry (slice_cmp nat_cmp) nodes.now id.now ≡ Some n)) }
{
    let Some(stored) = nodes.get(id) else {
        return Ok(None);
    };
    match stored.as_whole() {
        Some(bytes) => WideNode::of(alloc, bytes, pool),
        None => Ok(None),
    }
}
