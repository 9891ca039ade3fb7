//! Plans of landings that are made again, once the bookmark has another head.
ghost use Rattle.std.specs.Prelude.{◌≡◌, ℕ, ◌+◌, ◌*◌, ◌^◌, ◌<◌, ◌≤◌, [], true, false, length, find, Some, option_map, IfOk, IfErr, IfSome, IfNone, OnOk};
ghost use Rattle.byte_fields.specs.Bytes.{Id as ModelId};
ghost use Rattle.changeset_model.specs.Path.{IsRising};
ghost use Rattle.changeset_model.specs.Changeset.{id_of};
ghost use Rattle.changeset_store.specs.Store.{number_in, known_at};
ghost use Rattle.changeset_store.specs.Fork.{IsAncestor, IsFork, following_at, fork_between};
ghost use Rattle.history_model.specs.Bookmark.{head as head_of};
ghost use Rattle.history_model.specs.History.{is_known, is_down, known};
ghost use Rattle.history_model.specs.Pushrebase.{fork as parting};
ghost use Rattle.reply_model.specs.Legal.{IsLegal};
ghost use Rattle.reply_model.specs.Reply.{MergeInRange, is_merge, refuse_some};
ghost use Rattle.repo_machine.specs.Again.{WasPlan, since, GoesOn, IsPlannedHead};
ghost use Rattle.repo_machine.specs.Clashes.{edited_paths, apart_checked};
ghost use Rattle.repo_calls.specs.Refusing.{Gives};
ghost use Rattle.repo_machine.specs.Landings.{IsLandingRefusal};
ghost use Rattle.repo_machine.specs.Plans.{IsPlan, IsAllowed};
ghost use Rattle.repo_machine.specs.Touches.{Covers};

use crate::clashes::{borrowed, check_apart};
use crate::machine::Machine;
use crate::plan::{Plan, check_lengths, fork_from};
use ancestry::Steps;
use changeset_store::{ChangesetStore, Fork};
use held_policy::check_landing;
use object_id::Id;
use repo_calls::Refusal;
use std::alloc::Global;
use std::sync::ledger::Ledger;
use touch_index::TouchIndex;

impl Machine {
    /// Plans a landing again, as it would be planned now. Where the bookmark's head went on from the planned one, and the
    /// draft's chain parts from it where it did, only what the new changesets touch is compared with the stack's paths.
    /// Else all is planned anew. A step is a comparison of two paths.
    pub fn plan_again<L: Ledger>(
        &self,
        alloc: Global,
        plan: Plan,
        steps: &mut Steps<L>,
    ) -> Result<Plan, Refusal>
        requires { WasPlan self.now.history plan }
        ensures ok { IfOk result (IsPlan self.now.history plan.caller plan.name plan.draft) }
        ensures allowed { IfOk result (λ again. IsAllowed self.now.history plan.caller again.touched) }
        ensures up { OnOk result (is_down self.now.history ≡ false) }
        ensures err { IfErr result (IsLandingRefusal self.now.header self.now.history plan.caller plan.name plan.draft) }
        ensures legal { IsLegal self.now.header self.now.history }
        ensures counted { steps.old ≤ steps.new }
        // At most three more than the binary digits of the number of the stack's paths, for each new edit.
        ensures only_new { (new : ModelId) (digits : ℕ) → head_of self.now.history plan.name ≡ Some new → GoesOn (known self.now.history) plan new →
            length plan.touched < 2 ^ digits → steps.new ≤ steps.old + (digits + 3) * length (edited_paths (since (known self.now.history) plan.old new)) }
        ensures nothing_new { (new : ModelId) → head_of self.now.history plan.name ≡ Some new → GoesOn (known self.now.history) plan new →
            edited_paths (since (known self.now.history) plan.old new) ≡ [] → steps.new ≡ steps.old }
    {
        self.check_up()?;
        let Some(head) = self.head(&plan.name) else {
            return Err(Refusal::NoBookmark);
        };
        let fork = fork_from(&self.changesets, &head, &plan.draft)?;
        let Some(planned) = planned_head(&self.changesets, &plan, &fork) else {
            return self.plan_counted(alloc, &plan.caller, &plan.name, plan.draft, steps);
        };
        check_lengths(&self.changesets, &fork)?;
        check_new_merges(&self.changesets, planned, fork.head)?;
        check_landing(self.rules(), alloc, &plan.caller, plan.touched.as_slice())?;
        check_new(
            &self.changesets,
            &self.touches,
            alloc,
            &plan,
            planned,
            fork.head,
            steps,
        )?;
        Ok(plan.on(head))
    }
}

// The number of the planned head, if the head of a fork goes on from it and the root is the same.
fn planned_head(store: &ChangesetStore, plan: &Plan, fork: &Fork) -> Option<u32>
    requires old { is_known store.now.known plan.now.old ≡ true }
    requires draft { is_known store.now.known plan.now.draft ≡ true }
    requires is_fork { IsFork store.now.known fork.now }
    requires of_draft { (known_at store.now.known fork.now.draft).id ≡ plan.now.draft }
    requires of_root { number_in store.now.known (known_at store.now.known fork.now.root).id ≡ Some fork.now.root }
    requires forks { parting store.now.known (known_at store.now.known fork.now.head).id plan.now.draft ≡ Some (fork_between store.now.known fork.now) }
    ensures planned { IfSome result (IsPlannedHead store.now.known plan.now fork.now) }
    ensures goes_on { IfNone result (GoesOn store.now.known plan.now (known_at store.now.known fork.now.head).id → ⊥) }
{
    let planned = store.fork(&plan.old, &plan.draft)?;
    if planned.root != fork.root {
        return None;
    }
    if !store.is_ancestor(planned.head, fork.head) {
        return None;
    }
    Some(planned.head)
}

// Refuses a merge among the changesets that follow the planned head. There was none before it, and none in the stack.
fn check_new_merges(store: &ChangesetStore, planned: u32, head: u32) -> Result<(), Refusal>
    requires { IsAncestor store.now.known planned head }
    ensures { Gives (λ done. done) (refuse_some (option_map id_of (find is_merge (following_at store.now.known planned head))) MergeInRange) result }
{
    match store.oldest_merge(planned, head) {
        Some(id) => Err(Refusal::MergeInRange { id }),
        None => Ok(()),
    }
}

// Refuses a plan of which a path clashes with one that the changesets touch which follow the planned head.
fn check_new<L: Ledger>(
    store: &ChangesetStore,
    touches: &TouchIndex,
    alloc: Global,
    plan: &Plan,
    planned: u32,
    head: u32,
    steps: &mut Steps<L>,
) -> Result<(), Refusal>
    requires covers { Covers touches.now store.now.known }
    requires rising { IsRising plan.now.touched }
    requires ancestor { IsAncestor store.now.known planned head }
    ensures apart { Gives (λ done. done) (apart_checked plan.now.touched (following_at store.now.known planned head)) result }
    ensures counted { steps.old ≤ steps.new }
    ensures cost { (digits : ℕ) → length plan.now.touched < 2 ^ digits →
        steps.new ≤ steps.old + (digits + 3) * length (edited_paths (following_at store.now.known planned head)) }
{
    let paths = borrowed(alloc, plan.touched.as_slice())?;
    check_apart(
        store,
        touches,
        alloc,
        paths.as_slice(),
        planned,
        head,
        steps,
    )
}

impl Plan {
    // The same plan on another head.
    fn on(self, head: Id) -> Plan
        ensures { result ≡ record self { old = head } }
    {
        let Plan {
            caller,
            name,
            draft,
            old: _,
            stack,
            touched,
        } = self;
        Plan {
            caller,
            name,
            draft,
            old: head,
            stack,
            touched,
        }
    }
}
