//! A lead that joins the seats of all clients, and what they came to.
ghost use Rattle.std.specs.Prelude.{◌≡◌, ℕ, ◌<◌, All, IfErr, OnOk, Ok, Err, length, slice_index_or};
ghost use Rattle.run_gen.specs.Joining.{IsOf, TakesIn, seats_of};

use crate::LoadFault;
use crate::crew::Finished;
use blob_disk::Disk;
use shared_repo::{Repo, RepoSeat};

/// The lead joins the seats of all of them, and has seen all their entries then.
pub(crate) fn join_all<D: Disk>(repo: &Repo<D>, lead: &mut RepoSeat, all: Vec<Finished>)
    requires place { lead.old.lock ≡ repo.now }
    requires leads { lead.old.number ≡ 0 }
    requires places { All (IsOf repo.now) all.items }
    ensures { TakesIn lead.old lead.new (seats_of all.items) }
{
    for finished in all {
        let Finished { seat, outcome: _ } = finished;
        repo.join(lead, seat);
    }
}

/// Whether all have landed all of their stacks; else why the first that has not stopped.
pub(crate) fn outcome_of(all: &[Finished]) -> Result<(), LoadFault>
    ensures ok { OnOk result (All (λ finished. finished.outcome ≡ Ok tt) all.now) }
    ensures err { IfErr result (λ fault. (k : ℕ) × (k < length all.now) × ((d : _) → (slice_index_or all.now k d).outcome ≡ Err fault)) }
{
    for finished in all {
        finished.outcome?;
    }
    Ok(())
}
