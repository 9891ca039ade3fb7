//! Plans of landings: a draft is looked at against a bookmark's head, and nothing is changed.
ghost use Rattle.std.specs.Prelude.{◌≡◌, ℕ, ◌+◌, ◌*◌, ◌^◌, ◌<◌, ◌≤◌, true, false, length, Some, IfOk, IfErr, OnOk};
ghost use Rattle.byte_fields.specs.Bytes.{Id as ModelId};
ghost use Rattle.changeset_model.specs.Changeset.{touched_paths};
ghost use Rattle.changeset_store.specs.Store.{number_in, known_at};
ghost use Rattle.changeset_store.specs.Fork.{IsFork, fork_between};
ghost use Rattle.history_model.specs.Bookmark.{head as head_of};
ghost use Rattle.history_model.specs.History.{is_known, is_down, known};
ghost use Rattle.history_model.specs.Pushrebase.{Fork as Parted, fork as parting};
ghost use Rattle.reply_model.specs.Legal.{IsLegal};
ghost use Rattle.repo_machine.specs.Clashes.{edited_paths};
ghost use Rattle.repo_calls.specs.Refusing.{Gives};
ghost use Rattle.repo_machine.specs.Landings.{IsLandingRefusal, forking, lengths_checked, merges_checked};
ghost use Rattle.repo_machine.specs.Plans.{IsPlan, IsAllowed};

use crate::clashes::{check_touched, touched_paths_of};
use crate::machine::Machine;
use ancestry::Steps;
use bonsai::Commit;
use changeset_store::{ChangesetStore, Fork};
use held_policy::check_landing;
use object_id::Id;
use repo_calls::Refusal;
use repo_events::MOST_STACK;
use repo_path::{BookName, RepoPath};
use std::alloc::Global;
use std::marker::{Brand, Model};
use std::sync::Arc;
use std::sync::ledger::{Blank, Ledger};

/// The most changesets of a head's chain since the root.
const MOST_RANGE: u32 = 10_000;

/// A landing as it was planned at some history: the head on which the draft's stack is to be put, the stack, whose
/// changesets it shares with the machine, and the paths that the stack touches.
#[derive(Drop)]
pub struct Plan {
    pub(crate) caller: BookName,
    pub(crate) name: BookName,
    pub(crate) draft: Id,
    pub(crate) old: Id,
    pub(crate) stack: Vec<Arc<Commit>>,
    pub(crate) touched: Arc<Vec<RepoPath>>,
}

impl Model for Plan {
    ghost use Rattle.std.specs.Prelude.{◌≤◌, length};
    ghost use Rattle.std.specs.Arc.{arc_value};
    ghost use Rattle.reply_model.specs.Reply.{most_stack};
    ghost use Rattle.bonsai.specs.Making.{KeepOnParents};
    ghost use Rattle.changeset_store.specs.Shared.{values};
    ghost use Rattle.repo_machine.specs.Plans.{PlannedLanding, coded_planned};

    ghost Value = { PlannedLanding };

    ghost coded = { coded_planned };

    ghost view = { λ p. record { caller = p.caller; name = p.name; draft = p.draft; old = p.old; stack = values p.stack.items; touched = (arc_value p.touched).items } };

    ghost invariant = { λ p. (length (values p.stack.items) ≤ most_stack) × KeepOnParents (values p.stack.items) };
}

impl Machine {
    /// Plans to land a draft on a bookmark: what follows the root in the draft's chain is to be put onto the bookmark's
    /// head, if the policy that is held allows the caller each path that it touches, and none clashes with one touched since.
    /// At most 100 changesets are landed, over at most 10,000 since the root.
    pub fn plan(
        &self,
        alloc: Global,
        caller: &BookName,
        name: &BookName,
        draft: Id,
    ) -> Result<Plan, Refusal>
        ensures ok { IfOk result (IsPlan self.now.history caller.now name.now draft) }
        ensures allowed { IfOk result (λ plan. IsAllowed self.now.history caller.now plan.touched) }
        ensures up { OnOk result (is_down self.now.history ≡ false) }
        ensures err { IfErr result (IsLandingRefusal self.now.header self.now.history caller.now name.now draft) }
        ensures legal { IsLegal self.now.header self.now.history }
    {
        on_own_count::<Brand>(self, alloc, caller, name, draft, Blank::new(1))
    }

    /// The same, with a count of steps, of which each is a comparison of two paths. There are at most three more than the
    /// binary digits of the number of paths that the stack touches for each edit that the range makes.
    pub fn plan_counted<L: Ledger>(
        &self,
        alloc: Global,
        caller: &BookName,
        name: &BookName,
        draft: Id,
        steps: &mut Steps<L>,
    ) -> Result<Plan, Refusal>
        ensures ok { IfOk result (IsPlan self.now.history caller.now name.now draft) }
        ensures allowed { IfOk result (λ plan. IsAllowed self.now.history caller.now plan.touched) }
        ensures up { OnOk result (is_down self.now.history ≡ false) }
        ensures err { IfErr result (IsLandingRefusal self.now.header self.now.history caller.now name.now draft) }
        ensures legal { IsLegal self.now.header self.now.history }
        ensures counted { steps.old ≤ steps.new }
        ensures cost { (old : ModelId) (f : Parted) (digits : ℕ) → head_of self.now.history name.now ≡ Some old → parting (known self.now.history) old draft ≡ Some f →
            length (touched_paths f.stack) < 2 ^ digits → steps.new ≤ steps.old + (digits + 3) * length (edited_paths f.range) }
    {
        self.check_up()?;
        let Some(old) = self.head(name) else {
            return Err(Refusal::NoBookmark);
        };
        let fork = fork_from(&self.changesets, &old, &draft)?;
        check_lengths(&self.changesets, &fork)?;
        check_merges(&self.changesets, &fork)?;
        let touched = touched_paths_of(&self.changesets, alloc, &fork)?;
        check_landing(self.rules(), alloc, caller, touched.as_slice())?;
        check_touched(
            &self.changesets,
            &self.touches,
            alloc,
            touched.as_slice(),
            &fork,
            steps,
        )?;
        let stack = self.changesets.shared_stack(alloc, &fork)?;
        let touched = Arc::new(alloc, touched)?;
        let caller = caller.copy(alloc)?;
        let name = name.copy(alloc)?;
        Ok(Plan {
            caller,
            name,
            draft,
            old,
            stack,
            touched,
        })
    }
}

// The plan, where nobody reads the count of steps.
fn on_own_count<L: Ledger>(
    machine: &Machine,
    alloc: Global,
    caller: &BookName,
    name: &BookName,
    draft: Id,
    blank: Blank,
) -> Result<Plan, Refusal>
    requires name { blank.name ≡ L.name }
    requires parts { blank.parts ≡ L.parts }
    requires some { 0 < blank.parts }
    ensures ok { IfOk result (IsPlan machine.now.history caller.now name.now draft) }
    ensures allowed { IfOk result (λ plan. IsAllowed machine.now.history caller.now plan.touched) }
    ensures up { OnOk result (is_down machine.now.history ≡ false) }
    ensures err { IfErr result (IsLandingRefusal machine.now.header machine.now.history caller.now name.now draft) }
    ensures legal { IsLegal machine.now.header machine.now.history }
{
    let mut steps = Steps::<L>::new(blank);
    machine.plan_counted(alloc, caller, name, draft, &mut steps)
}

// Where the draft's chain parts from that of the head.
pub(crate) fn fork_from(store: &ChangesetStore, old: &Id, draft: &Id) -> Result<Fork, Refusal>
    requires { is_known store.now.known old.now ≡ true }
    ensures steps { Gives (fork_between store.now.known) (forking store.now.known old.now draft.now) result }
    ensures is_fork { IfOk result (IsFork store.now.known) }
    ensures of_head { IfOk result (λ f. (known_at store.now.known f.head).id ≡ old.now) }
    ensures of_draft { IfOk result (λ f. (known_at store.now.known f.draft).id ≡ draft.now) }
    ensures of_root { IfOk result (λ f. number_in store.now.known (known_at store.now.known f.root).id ≡ Some f.root) }
{
    if !store.is_known(draft) {
        return Err(Refusal::NoChangeset { id: *draft });
    }
    match store.fork(old, draft) {
        Some(fork) => Ok(fork),
        None => Err(Refusal::NoRoot),
    }
}

pub(crate) fn check_lengths(store: &ChangesetStore, fork: &Fork) -> Result<(), Refusal>
    requires { IsFork store.now.known fork.now }
    ensures { Gives (λ done. done) (lengths_checked (fork_between store.now.known fork.now)) result }
{
    let distance = store.range_length(fork);
    if distance > MOST_RANGE {
        return Err(Refusal::TooFarBehind { distance });
    }
    let count = store.stack_length(fork);
    if count == 0 {
        return Err(Refusal::AlreadyIn);
    }
    if count as usize > MOST_STACK {
        return Err(Refusal::StackTooLong { count });
    }
    Ok(())
}

// Refuses a stack, and then a range, in which a changeset has two parents.
fn check_merges(store: &ChangesetStore, fork: &Fork) -> Result<(), Refusal>
    requires { IsFork store.now.known fork.now }
    ensures { Gives (λ done. done) (merges_checked (fork_between store.now.known fork.now)) result }
{
    if let Some(id) = store.merge_in_stack(fork) {
        return Err(Refusal::MergeInStack { id });
    }
    match store.merge_in_range(fork) {
        Some(id) => Err(Refusal::MergeInRange { id }),
        None => Ok(()),
    }
}
