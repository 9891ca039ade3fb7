//! The nodes of the first parent, read from the root down.
ghost use Rattle.std.specs.Prelude.{◌≡◌, ◌++◌, ◌∷◌, [], true, None, Some, IsErrOf, MatchResult};
ghost use Rattle.byte_fields.specs.Bytes.{Id as IdBytes};
ghost use Rattle.changeset_model.specs.Path.{is_element};
ghost use Rattle.history_model.specs.Past.{Past};
ghost use Rattle.manifest_model.specs.Deleted.{DeletedNode as ModelNode, deleted_bytes, is_deleted};
ghost use Rattle.deleted_step.specs.declared.fault.StepFault.TheVariants.{NoNode, Memory};
ghost use Rattle.deleted_step.specs.Texts.{dir_of};
ghost use Rattle.deleted_step.specs.Opened.{IsOf};
ghost use Rattle.deleted_step.specs.Unfolded.{IsUnfolded, Links};
ghost use Rattle.deleted_step.specs.Steps.{AreHeldAt, IsLedTo, IsNoNode};

use crate::fault::StepFault;
use crate::nodes::Nodes;
use crate::opened::{Opened, nothing, opened_of};
use crate::path_text::{front_of, parted};
use crate::unfolded::{Unfolded, entry_under};
use deleted_node::decode;
use node_fields::NodeFault;
use object_id::Id;
use repo_path::{RepoPath, path_of};
use std::alloc::Global;

/// The node of an id that was found, or else one with nothing in it.
pub(crate) fn opened_at<N: Nodes>(
    alloc: Global,
    nodes: &N,
    id: Option<Id>,
) -> Result<Opened, StepFault>
    ensures read { (n : ModelNode) → IsLedTo (N.contents nodes.now) id n → MatchResult result (λ o. IsOf o n) (λ fault. fault ≡ Memory) }
    ensures no_node { (other : IdBytes) → IsErrOf result (NoNode other) → IsNoNode (N.contents nodes.now) other }
{
    match id {
        None => Ok(nothing(alloc)),
        Some(id) => node_opened(alloc, nodes, &id),
    }
}

// The node of an id.
fn node_opened<N: Nodes>(alloc: Global, nodes: &N, id: &Id) -> Result<Opened, StepFault>
    ensures read { (n : ModelNode) → N.contents nodes.now id.now ≡ Some (deleted_bytes n) → is_deleted n ≡ true → MatchResult result (λ o. IsOf o n) (λ fault. fault ≡ Memory) }
    ensures no_node { (other : IdBytes) → IsErrOf result (NoNode other) → IsNoNode (N.contents nodes.now) other }
{
    let Some(bytes) = nodes.node(id) else {
        return Err(StepFault::NoNode { id: *id });
    };
    match decode(alloc, bytes) {
        Ok(node) => Ok(opened_of(alloc, node)?),
        Err(NodeFault::BadNode { .. }) => Err(StepFault::NoNode { id: *id }),
        Err(NodeFault::Memory) => Err(StepFault::Memory),
    }
}

/// Unfolds the nodes of a path and of the directories above it, down from the root.
pub(crate) fn unfold_way<N: Nodes>(
    alloc: Global,
    nodes: &N,
    unfolded: &mut Unfolded,
    path: &RepoPath,
) -> Result<(), StepFault>
    ensures unfolded { (first : Past) (ls : Links) → AreHeldAt (N.contents nodes.now) first (path.now ∷ []) → IsUnfolded first ls [] unfolded.old → MatchResult result (λ _. IsUnfolded first ls path.now unfolded.new) (λ fault. fault ≡ Memory) }
    ensures no_node { (id : IdBytes) → IsErrOf result (NoNode id) → IsNoNode (N.contents nodes.now) id }
{
    let mut above = None;
    let mut rest = Some(path.as_str());
    while let Some(text) = rest {
        let (name, after) = parted(text);
        let here = path_of(alloc, front_of(path.as_str(), after))?;
        if let Err(fault) = unfold(alloc, nodes, unfolded, above.as_ref(), name, &here) {
            return Err(fault);
        }
        above = Some(here);
        rest = after;
    }
    Ok(())
}

// Unfolds the node of a path, below that of the directory above it.
fn unfold<N: Nodes>(
    alloc: Global,
    nodes: &N,
    unfolded: &mut Unfolded,
    above: Option<&RepoPath>,
    name: &str,
    here: &RepoPath,
) -> Result<(), StepFault>
    requires name { is_element name.now ≡ true }
    requires here { here.now ≡ dir_of above ++ name.now ∷ [] }
    ensures unfolded { (first : Past) (ls : Links) → AreHeldAt (N.contents nodes.now) first (here.now ∷ []) → IsUnfolded first ls (dir_of above.entry) unfolded.old → MatchResult result (λ _. IsUnfolded first ls here.now unfolded.new) (λ fault. fault ≡ Memory) }
    ensures no_node { (id : IdBytes) → IsErrOf result (NoNode id) → IsNoNode (N.contents nodes.now) id }
{
    if unfolded.places.contains_key(here) {
        return Ok(());
    }
    let id = entry_under(alloc, unfolded, above, name)?;
    let opened = match opened_at(alloc, nodes, id) {
        Ok(opened) => opened,
        Err(fault) => return Err(fault),
    };
    unfolded.places.insert(here.copy(alloc)?, opened)?;
    Ok(())
}
