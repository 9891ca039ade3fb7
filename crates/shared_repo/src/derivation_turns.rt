//! What a derivation does in its turns.
ghost use Rattle.std.specs.Prelude.{◌≡◌, IfOk, IfErr, OnOk};
ghost use Rattle.history_model.specs.History.{known};
ghost use Rattle.manifest_store.specs.Jobs.{settled_by};
ghost use Rattle.manifest_store.specs.Settling.{IsCollision};
ghost use Rattle.reply_model.specs.After.{Answers, Derives, nothing};
ghost use Rattle.repo_calls.specs.Asking.{fault_answer};
ghost use Rattle.repo_state.specs.State.{reach};
ghost use Rattle.shared_repo.specs.Derivation.{IsNextAt, WasDerived};
ghost use Rattle.shared_repo.specs.Front.{IsFront};

use blob_disk::Disk;
use derive_step::{Done, Job};
use node_table::{Roots, TableFault};
use object_id::Id;
use repo_calls::AskFault;
use repo_state::RepoState;
use std::alloc::Global;

/// What comes next in the derivation of a changeset.
#[derive(Drop)]
pub(crate) enum Next {
    /// A job of its chain.
    Job(Job),
    /// Its roots, since its chain lacks nothing.
    Roots(Roots),
}

// The next job of a changeset's chain, for which the nodes of the parent above the change paths are
// read, or its roots.
#[tactic(auto, using(repo_state::proofs::Reading::none_is_settled))]
pub(crate) fn next_in<D: Disk>(
    state: &mut RepoState<D>,
    alloc: Global,
    id: Id,
) -> Result<Next, AskFault>
    ensures same { state.new.history ≡ state.old.history }
    ensures opening { state.new.opening ≡ state.old.opening }
    ensures sealed { state.new.sealed ≡ state.old.sealed }
    ensures disk { state.new.disk ≡ state.old.disk }
    ensures reaches { reach state.new ≡ reach state.old }
    ensures ok { IfOk result (IsNextAt state.old.opening.header state.old.history state.old.table id) }
    ensures err { IfErr result (λ fault. Answers state.old.opening.header state.old.history (Derives id) (fault_answer fault) nothing) }
    ensures front { IsFront state.new.opening state.new.history }
{
    // It keeps its rules.
    let _ = state.history_length();
    if let Some(job) = state.next_job(alloc, id)? {
        return Ok(Next::Job(job));
    }
    let Some(roots) = state.roots(id) else {
        unreachable!()
    };
    Ok(Next::Roots(roots))
}

// Puts in what was derived of a changeset, unless it is settled by now.
#[tactic(auto, using(crate::proofs::Derivations::still_done))]
pub(crate) fn settle_in<D: Disk>(
    state: &mut RepoState<D>,
    alloc: Global,
    done: Done,
) -> Result<(), TableFault>
    requires derived { WasDerived state.old.history done }
    ensures same { state.new.history ≡ state.old.history }
    ensures opening { state.new.opening ≡ state.old.opening }
    ensures sealed { state.new.sealed ≡ state.old.sealed }
    ensures disk { state.new.disk ≡ state.old.disk }
    ensures reaches { reach state.new ≡ reach state.old }
    ensures ok { OnOk result (state.new.table ≡ settled_by (known state.old.history) state.old.table done) }
    ensures err { IfErr result (λ fault. IsCollision (known state.new.history) fault) }
    ensures front { IsFront state.new.opening state.new.history }
{
    // It keeps its rules.
    let _ = state.history_length();
    state.settle(alloc, done)
}
