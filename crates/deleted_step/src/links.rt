//! The links that a changeset sets.
ghost use Rattle.std.specs.Prelude.{◌≡◌, ◌++◌, ◌∷◌, [], map, IsErrOf, MatchResult};
ghost use Rattle.byte_fields.specs.Bytes.{Id as IdBytes};
ghost use Rattle.history_model.specs.Past.{Past};
ghost use Rattle.deleted_step.specs.declared.fault.StepFault.TheVariants.{NoNode, Memory};
ghost use Rattle.deleted_step.specs.Unfolded.{IsUnfolded, Links};
ghost use Rattle.deleted_step.specs.Steps.{AreHeldAt, IsNoNode};

use crate::fault::StepFault;
use crate::nodes::Nodes;
use crate::unfolded::{Unfolded, set_link};
use crate::way::unfold_way;
use object_id::Id;
use repo_path::RepoPath;
use std::alloc::Global;

/// Sets the links of paths.
pub(crate) fn set_links<N: Nodes>(
    alloc: Global,
    nodes: &N,
    unfolded: &mut Unfolded,
    paths: &[RepoPath],
    link: &Option<Id>,
) -> Result<(), StepFault>
    ensures set { (first : Past) (ls : Links) → AreHeldAt (N.contents nodes.now) first paths.now → IsUnfolded first ls [] unfolded.old → MatchResult result (λ _. IsUnfolded first (ls ++ map (λ p. (p, link.now)) paths.now) [] unfolded.new) (λ fault. fault ≡ Memory) }
    ensures no_node { (id : IdBytes) → IsErrOf result (NoNode id) → IsNoNode (N.contents nodes.now) id }
{
    for path in paths {
        if let Err(fault) = set_one(alloc, nodes, unfolded, path, link) {
            return Err(fault);
        }
    }
    Ok(())
}

fn set_one<N: Nodes>(
    alloc: Global,
    nodes: &N,
    unfolded: &mut Unfolded,
    path: &RepoPath,
    link: &Option<Id>,
) -> Result<(), StepFault>
    ensures set { (first : Past) (ls : Links) → AreHeldAt (N.contents nodes.now) first (path.now ∷ []) → IsUnfolded first ls [] unfolded.old → MatchResult result (λ _. IsUnfolded first (ls ++ (path.now, link.now) ∷ []) [] unfolded.new) (λ fault. fault ≡ Memory) }
    ensures no_node { (id : IdBytes) → IsErrOf result (NoNode id) → IsNoNode (N.contents nodes.now) id }
{
    if let Err(fault) = unfold_way(alloc, nodes, unfolded, path) {
        return Err(fault);
    }
    set_link(alloc, unfolded, path, *link)?;
    Ok(())
}
