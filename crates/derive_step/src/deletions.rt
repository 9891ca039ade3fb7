//! The deleted nodes of a changeset.
ghost use Rattle.std.specs.Prelude.{◌≡◌, ◌++◌, IfOk, IfErr, IsErrOf, option_map};
ghost use Rattle.byte_fields.specs.Bytes.{Id as IdBytes};
ghost use Rattle.changeset_model.specs.Changeset.{id_of};
ghost use Rattle.history_model.specs.History.{Known};
ghost use Rattle.history_model.specs.Past.{Past};
ghost use Rattle.deleted_step.specs.declared.fault.StepFault.TheVariants.{NoNode, Memory};
ghost use Rattle.deleted_step.specs.Steps.{AreGiven, IsNoNode};
ghost use Rattle.derive_step.specs.Put.{ArePut};
ghost use Rattle.derive_step.specs.Views.{held_in};

use crate::job::Deletions;
use bonsai::Commit;
use deleted_step::{Done, StepFault, derive_deleted};
use node_table::{Node, Roots};
use object_id::Id;
use std::alloc::Global;

/// Puts the deleted nodes that are new to the nodes, and gives the id of the root's. `roots` are those of the
/// first parent.
pub(crate) fn put_deleted(
    alloc: Global,
    commit: &Commit,
    roots: &Option<Roots>,
    deletions: &Deletions,
    nodes: &mut Vec<Node>,
) -> Result<Id, StepFault>
    ensures made { (c : Known) (first second : Past) → AreGiven (held_in deletions.now.nodes) (option_map (λ r. r.deleted) roots.now) c first second (id_of commit.now) deletions.now.gone.items deletions.now.come.items → IfOk result (λ root. ArePut c first second (deletions.now.gone.items ++ deletions.now.come.items) root nodes.old.items nodes.new.items) }
    ensures memory { (c : Known) (first second : Past) → AreGiven (held_in deletions.now.nodes) (option_map (λ r. r.deleted) roots.now) c first second (id_of commit.now) deletions.now.gone.items deletions.now.come.items → IfErr result (λ fault. fault ≡ Memory) }
    ensures no_node { (id : IdBytes) → IsErrOf result (NoNode id) → IsNoNode (held_in deletions.now.nodes) id }
{
    let top = deleted_root(roots);
    let done = derive_deleted(
        alloc,
        &deletions.nodes,
        top,
        commit.id(),
        &deletions.gone,
        &deletions.come,
    )?;
    let Done {
        root,
        nodes: mut more,
    } = done;
    nodes.append(&mut more)?;
    Ok(root)
}

fn deleted_root(roots: &Option<Roots>) -> Option<Id>
    ensures { result ≡ option_map (λ r. r.deleted) roots.now }
{
    match roots {
        Some(roots) => Some(roots.deleted),
        None => None,
    }
}
