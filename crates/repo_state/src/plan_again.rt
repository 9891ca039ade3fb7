//! Plans of landings that are made again.
ghost use Rattle.std.specs.Prelude.{◌≡◌, ℕ, ◌+◌, ◌*◌, ◌^◌, ◌<◌, ◌≤◌, [], false, length, Some, IfOk, IfErr, OnOk};
ghost use Rattle.byte_fields.specs.Bytes.{Id as ModelId};
ghost use Rattle.history_model.specs.Bookmark.{head as head_of};
ghost use Rattle.history_model.specs.History.{is_down, known};
ghost use Rattle.repo_machine.specs.Again.{WasPlan, since, GoesOn};
ghost use Rattle.repo_machine.specs.Clashes.{edited_paths};
ghost use Rattle.repo_machine.specs.Landings.{IsLandingRefusal};
ghost use Rattle.repo_machine.specs.Plans.{IsAllowed, IsPlan};

use crate::state::RepoState;
use ancestry::Steps;
use blob_disk::Disk;
use repo_calls::Refusal;
use repo_machine::Plan;
use std::alloc::Global;
use std::sync::ledger::Ledger;

impl<D: Disk> RepoState<D> {
    /// Plans a landing again, as it would be planned now, by `Machine::plan_again`. The disk isn't asked.
    pub fn plan_again<L: Ledger>(
        &self,
        alloc: Global,
        plan: Plan,
        steps: &mut Steps<L>,
    ) -> Result<Plan, Refusal>
        requires { WasPlan self.now.history plan }
        ensures ok { IfOk result (IsPlan self.now.history plan.caller plan.name plan.draft) }
        ensures allowed { IfOk result (λ again. IsAllowed self.now.history plan.caller again.touched) }
        ensures up { OnOk result (is_down self.now.history ≡ false) }
        ensures err { IfErr result (IsLandingRefusal self.now.header self.now.history plan.caller plan.name plan.draft) }
        ensures counted { steps.old ≤ steps.new }
        // At most three more than the binary digits of the number of the stack's paths, for each new edit.
        ensures only_new { (new : ModelId) (digits : ℕ) → head_of self.now.history plan.name ≡ Some new → GoesOn (known self.now.history) plan new →
            length plan.touched < 2 ^ digits → steps.new ≤ steps.old + (digits + 3) * length (edited_paths (since (known self.now.history) plan.old new)) }
        ensures nothing_new { (new : ModelId) → head_of self.now.history plan.name ≡ Some new → GoesOn (known self.now.history) plan new →
            edited_paths (since (known self.now.history) plan.old new) ≡ [] → steps.new ≡ steps.old }
    {
        self.machine.plan_again(alloc, plan, steps)
    }
}
