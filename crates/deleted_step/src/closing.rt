//! A node once it has changed.
ghost use Rattle.std.specs.Prelude.{◌≡◌, ◌++◌, ◌∷◌, [], true, None, Some, if◌then◌else◌, OnOk, IfOk};
ghost use Rattle.std.specs.List.{list_all};
ghost use Rattle.std.specs.Option.{option_to_list};
ghost use Rattle.std.specs.FinMap.{is_sorted};
ghost use Rattle.std.specs.Ordering.{nat_cmp};
ghost use Rattle.std.specs.Cmp.Lexicographic.{slice_cmp};
ghost use Rattle.byte_fields.specs.Bytes.{is_bytes};
ghost use Rattle.changeset_model.specs.Path.{is_element};
ghost use Rattle.manifest_model.specs.Deleted.{DeletedNode as ModelNode, deleted_bytes, deleted_id, is_deleted};
ghost use Rattle.manifest_model.specs.Fsnode.{are_entries};
ghost use Rattle.deleted_node.specs.Parts.{child_seen, children_seen};
ghost use Rattle.deleted_node.specs.Views.{deleted_seen};
ghost use Rattle.deleted_step.specs.Opened.{IsOf, among_seen, is_there};

use crate::opened::{Entries, Opened};
use deleted_node::{DeletedChild, DeletedNode, encode};
use node_table::Node;
use object_id::Id;
use std::alloc::{AllocError, Global};

/// The node as it is after it changed.
pub(crate) fn closed(alloc: Global, opened: Opened) -> Result<DeletedNode, AllocError>
    ensures { (n : ModelNode) → is_sorted (slice_cmp nat_cmp) n.entries ≡ true → IsOf opened n → IfOk result (λ node. deleted_seen node ≡ n) }
{
    let Opened { link, entries } = opened;
    let entries = by_rising_names(alloc, entries)?;
    Ok(node_with(link, entries))
}

// Entries by rising names. So many that their number doesn't fit its field don't fit the memory either.
fn by_rising_names(alloc: Global, entries: Entries) -> Result<Vec<DeletedChild>, AllocError>
    ensures entries { IfOk result (λ children. children_seen children.items ≡ among_seen entries.entries) }
    ensures rising { IfOk result (λ children. are_entries (children_seen children.items) ≡ true) }
    ensures ids { IfOk result (λ children. list_all (λ e. is_bytes 32 e.1) (children_seen children.items) ≡ true) }
{
    let children = listed(alloc, entries)?;
    if children.len() > u32::MAX as usize {
        return Err(AllocError);
    }
    Ok(children)
}

// The entries, the least name first.
fn listed(alloc: Global, mut entries: Entries) -> Result<Vec<DeletedChild>, AllocError>
    ensures entries { IfOk result (λ children. children_seen children.items ≡ among_seen entries.entries) }
    ensures rising { IfOk result (λ children. is_sorted (slice_cmp nat_cmp) (children_seen children.items) ≡ true) }
    ensures named { IfOk result (λ children. list_all (λ e. is_element e.0) (children_seen children.items) ≡ true) }
    ensures ids { IfOk result (λ children. list_all (λ e. is_bytes 32 e.1) (children_seen children.items) ≡ true) }
{
    let mut children = Vec::with_capacity(alloc, entries.len())?;
    while let Some((name, entry)) = entries.pop_first() {
        push_child(&mut children, DeletedChild { name, entry })?;
    }
    Ok(children)
}

// Appends an entry. Its name and its id keep their rules.
fn push_child(children: &mut Vec<DeletedChild>, child: DeletedChild) -> Result<(), AllocError>
    ensures pushed { OnOk result (children_seen children.new.items ≡ children_seen children.old.items ++ child_seen child ∷ []) }
    ensures element { is_element child.name ≡ true }
    ensures id { is_bytes 32 child.entry.id ≡ true }
{
    let _element = child.name.as_bytes();
    let _id = child.entry.id.as_bytes();
    children.push(child)?;
    Ok(())
}

// A node by its parts, of which each id has 32 bytes.
fn node_with(link: Option<Id>, entries: Vec<DeletedChild>) -> DeletedNode
    requires rising { are_entries (children_seen entries.items) ≡ true }
    requires ids { list_all (λ e. is_bytes 32 e.1) (children_seen entries.items) ≡ true }
    ensures { (result.link ≡ link) × (result.entries ≡ entries) }
{
    let link = whole_link(link);
    DeletedNode { link, entries }
}

// No link, or one with 32 bytes.
fn whole_link(link: Option<Id>) -> Option<Id>
    ensures same { result ≡ link }
    ensures rule { list_all (is_bytes 32) (option_to_list result) ≡ true }
{
    match link {
        Some(id) => Some(whole_id(id)),
        None => None,
    }
}

// An id has 32 bytes.
fn whole_id(id: Id) -> Id
    ensures same { result ≡ id }
    ensures rule { is_bytes 32 result ≡ true }
{
    let _bytes = id.as_bytes();
    id
}

/// Puts a node that has a link or an entry to the nodes, and gives its id.
pub(crate) fn put_there(
    alloc: Global,
    node: &DeletedNode,
    nodes: &mut Vec<Node>,
) -> Result<Option<Id>, AllocError>
    ensures id { IfOk result (λ id. id ≡ (if is_there (deleted_seen node.now) then Some (deleted_id (deleted_seen node.now)) else None)) }
    ensures nodes { OnOk result (nodes.new.items ≡ nodes.old.items ++ (if is_there (deleted_seen node.now) then deleted_bytes (deleted_seen node.now) ∷ [] else [])) }
    ensures valid { OnOk result (is_there (deleted_seen node.now) ≡ true → is_deleted (deleted_seen node.now) ≡ true) }
{
    if node.link.is_none() && node.entries.is_empty() {
        return Ok(None);
    }
    let id = put(alloc, node, nodes)?;
    Ok(Some(id))
}

/// Puts a node to the nodes, and gives its id.
pub(crate) fn put(
    alloc: Global,
    node: &DeletedNode,
    nodes: &mut Vec<Node>,
) -> Result<Id, AllocError>
    ensures id { IfOk result (λ id. id ≡ deleted_id (deleted_seen node.now)) }
    ensures nodes { OnOk result (nodes.new.items ≡ nodes.old.items ++ deleted_bytes (deleted_seen node.now) ∷ []) }
    ensures valid { OnOk result (is_deleted (deleted_seen node.now) ≡ true) }
{
    let made = Node::of(encode(alloc, node)?);
    let id = made.id();
    nodes.push(made)?;
    Ok(id)
}
