//! Derivation from the touched directories, and of the deleted nodes.
ghost use Rattle.std.specs.Prelude.{◌≡◌, ◌∷◌, [], ℕ, List, option_map, IfOk, IfErr, IsErrOf};
ghost use Rattle.std.specs.BTreeMap.{get};
ghost use Rattle.byte_fields.specs.Bytes.{Id as IdBytes};
ghost use Rattle.changeset_model.specs.Path.{Path, path_cmp};
ghost use Rattle.history_model.specs.History.{Known};
ghost use Rattle.history_model.specs.Past.{Past};
ghost use Rattle.deleted_step.specs.declared.fault.StepFault.TheVariants.{NoNode, Memory};
ghost use Rattle.deleted_step.specs.Steps.{IsNoNode};
ghost use Rattle.derive_step.specs.Jobs.{IsJobOf, IsDoneOf};
ghost use Rattle.derive_step.specs.Pasts.{IsJobAt, IsDoneAt};
ghost use Rattle.derive_step.specs.Views.{before_seen, first_of, second_of, held_in, nodes_before, roots_before};

use crate::deletions::put_deleted;
use crate::done::Done;
use crate::job::{DirIds, DirNodes, Job, Parent, Parents};
use crate::renewal::{Dirs, renew_dirs, renew_root};
use crate::touched::{add_differing, touched_dirs};
use deleted_step::StepFault;
use node_table::Roots;
use object_id::Id;
use std::alloc::Global;
use std::collections::BTreeMap;

/// The manifests of a job's changeset, for whatever history the job is of: the nodes that are new, and all others are the
/// parents'. Directories are made anew from the deepest up, so that each has those under it.
pub fn derive(alloc: Global, job: Job) -> Result<Done, StepFault>
    ensures past { (c : Known) (first second : Past) → IsJobAt c first second job → IfOk result (λ done. IsDoneAt c first second job done) }
    ensures past_memory { (c : Known) (first second : Past) → IsJobAt c first second job → IfErr result (λ fault. fault ≡ Memory) }
    // The same where no changeset of the history has two parents.
    ensures done { (c : Known) (older : List Known) → IsJobOf c older job → IfOk result (λ done. IsDoneOf c older job done) }
    ensures memory { (c : Known) (older : List Known) → IsJobOf c older job → IfErr result (λ fault. fault ≡ Memory) }
    // A node that isn't there is told only where the job lacks it.
    ensures no_node { (id : IdBytes) → IsErrOf result (NoNode id) → IsNoNode (held_in job.deletions.nodes) id }
{
    let Job {
        number,
        commit,
        parents,
        deletions,
    } = job;
    let (first, second) = first_and_second(parents);
    let first_roots = roots_of(&first);
    let second_roots = roots_of(&second);
    let (first_root, first_dirs) = dirs_of(alloc, first);
    let (second_root, second_dirs) = dirs_of(alloc, second);
    let mut touched = touched_dirs(alloc, commit.changeset().edits())?;
    add_differing(alloc, &first_dirs, &second_dirs, &mut touched)?;
    let mut made = BTreeMap::new(alloc);
    let mut nodes = Vec::with_capacity(alloc, touched.len())?;
    renew_dirs(
        alloc,
        &commit,
        first_dirs,
        second_dirs,
        touched,
        &mut made,
        &mut nodes,
    )?;
    let root = (first_root, second_root);
    let ids = renew_root(alloc, &commit, root, &made, &mut nodes)?;
    let deleted = match put_deleted(alloc, &commit, &first_roots, &deletions, &mut nodes) {
        Ok(id) => id,
        Err(fault) => return Err(fault),
    };
    let roots = roots_with(ids, deleted);
    Ok(Done {
        number,
        first: first_roots,
        second: second_roots,
        roots,
        nodes,
    })
}

// The first parent, and the second.
fn first_and_second(parents: Parents) -> (Option<Parent>, Option<Parent>)
    ensures first { result.0 ≡ first_of parents }
    ensures second { result.1 ≡ second_of parents }
{
    match parents {
        Parents::Absent => (None, None),
        Parents::One(parent) => (Some(parent), None),
        Parents::Two(first, second) => (Some(first), Some(second)),
    }
}

// The roots of the parent, if there is one.
fn roots_of(parent: &Option<Parent>) -> Option<Roots>
    ensures { result ≡ roots_before parent.now }
{
    match parent {
        Some(parent) => Some(parent.roots),
        None => None,
    }
}

fn roots_with(ids: DirIds, deleted: Id) -> Roots
    ensures { result ≡ record { fsnode = ids.fsnode; unode = ids.unode; deleted = deleted } }
{
    Roots {
        fsnode: ids.fsnode,
        unode: ids.unode,
        deleted,
    }
}

// The nodes of the parent, if there is one: of the root, and of other directories.
fn dirs_of(alloc: Global, parent: Option<Parent>) -> (Option<DirNodes>, Dirs)
    ensures root { option_map before_seen result.0 ≡ nodes_before parent [] }
    ensures dirs { (n : List ℕ) (d : Path) → option_map before_seen (get path_cmp result.1 (n ∷ d)) ≡ nodes_before parent (n ∷ d) }
{
    match parent {
        Some(parent) => (Some(parent.root), parent.dirs),
        None => (None, BTreeMap::new(alloc)),
    }
}
