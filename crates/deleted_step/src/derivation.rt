//! Derivation from the first parent's deleted nodes.
ghost use Rattle.std.specs.Prelude.{◌≡◌, ◌++◌, [], IsErrOf, MatchResult};
ghost use Rattle.byte_fields.specs.Bytes.{Id as IdBytes};
ghost use Rattle.history_model.specs.History.{Known};
ghost use Rattle.history_model.specs.Past.{Past, At};
ghost use Rattle.deleted_step.specs.declared.fault.StepFault.TheVariants.{NoNode, Memory};
ghost use Rattle.deleted_step.specs.Unfolded.{IsUnfolded};
ghost use Rattle.deleted_step.specs.Steps.{AreGiven, AreHeldAt, IsDoneOf, IsNoNode, are_set, root_on};

use crate::done::Done;
use crate::fault::StepFault;
use crate::links::set_links;
use crate::nodes::Nodes;
use crate::renewal::renewed;
use crate::unfolded::Unfolded;
use crate::way::opened_at;
use object_id::Id;
use repo_path::RepoPath;
use std::alloc::Global;
use std::collections::BTreeMap;

/// The deleted nodes of the changeset `id`: those that are new, and all others are the first parent's. `root` is the root
/// of these, `None` where there is no parent. `gone` are the paths of the files that the first parent has and the changeset
/// hasn't, and `come` those that the changeset has and the first parent hasn't, both in any order. What a second parent has
/// doesn't matter.
///
/// Of the first parent's nodes those of these paths and of the directories above them are read, and there are at most as
/// many new ones.
pub fn derive_deleted<N: Nodes>(
    alloc: Global,
    nodes: &N,
    root: Option<Id>,
    id: Id,
    gone: &[RepoPath],
    come: &[RepoPath],
) -> Result<Done, StepFault>
    ensures done { (c : Known) (first second : Past) → AreGiven (N.contents nodes.now) root c first second id gone.now come.now → MatchResult result (λ done. IsDoneOf first (At c first second) (gone.now ++ come.now) done) (λ fault. fault ≡ Memory) }
    // A node that isn't there is told only where it isn't there.
    ensures no_node { (other : IdBytes) → IsErrOf result (NoNode other) → IsNoNode (N.contents nodes.now) other }
{
    match linked(alloc, nodes, root, id, gone, come) {
        Ok(unfolded) => Ok(renewed(alloc, unfolded)?),
        Err(fault) => Err(fault),
    }
}

// The first parent's nodes at the paths and above them, once the links are set.
fn linked<N: Nodes>(
    alloc: Global,
    nodes: &N,
    root: Option<Id>,
    id: Id,
    gone: &[RepoPath],
    come: &[RepoPath],
) -> Result<Unfolded, StepFault>
    ensures linked { (first : Past) → root ≡ root_on first → AreHeldAt (N.contents nodes.now) first (gone.now ++ come.now) → MatchResult result (λ u. IsUnfolded first (are_set id gone.now come.now) [] u) (λ fault. fault ≡ Memory) }
    ensures no_node { (other : IdBytes) → IsErrOf result (NoNode other) → IsNoNode (N.contents nodes.now) other }
{
    let root = match opened_at(alloc, nodes, root) {
        Ok(root) => root,
        Err(fault) => return Err(fault),
    };
    let places = BTreeMap::new(alloc);
    let mut unfolded = Unfolded { root, places };
    if let Err(fault) = set_links(alloc, nodes, &mut unfolded, gone, &Some(id)) {
        return Err(fault);
    }
    if let Err(fault) = set_links(alloc, nodes, &mut unfolded, come, &None) {
        return Err(fault);
    }
    Ok(unfolded)
}
