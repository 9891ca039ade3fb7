//! Laws of plans and of merges, each the contract of a function that does nothing.
ghost use Rattle.std.specs.Prelude.{◌≡◌, ℕ, true, false, Option, Some, List};
ghost use Rattle.std.specs.List.{AllByRecursion};
ghost use mathlib.Core.List.{IsPrefix};
ghost use Rattle.byte_fields.specs.Bytes.{Id};
ghost use Rattle.history_model.specs.Bookmark.{head};
ghost use Rattle.changeset_model.specs.Path.{Path};
ghost use Rattle.changeset_model.specs.Changeset.{Changeset};
ghost use Rattle.history_model.specs.History.{Entry, is_down, known, is_known};
ghost use Rattle.history_model.specs.Journal.{Header};
ghost use Rattle.history_model.specs.Pushrebase.{rewrite, moment_of};
ghost use Rattle.reply_model.specs.Reply.{LandDraft, told, judge, enter_landing};
ghost use Rattle.repo_machine.specs.Again.{WasPlan};
ghost use Rattle.repo_machine.specs.Found.{IsLeft};
ghost use Rattle.repo_machine.specs.Plans.{PlannedLanding, RebasedLanding, IsPlan, WasPlanned, if_allowed};

/// A plan is one at each longer history at which the bookmark has the planned head: it has the same fork there, so the
/// same stack and the same range.
pub fn plan_stays_at_its_head()
    ensures { (g h : List Entry) (caller name : List ℕ) (draft : Id) (plan : PlannedLanding) → IsPrefix g h → IsPlan g caller name draft plan → head h name ≡ Some plan.old → IsPlan h caller name draft plan }
{}

/// A plan can be made again at each longer history.
pub fn plan_can_be_made_again()
    ensures { (g h : List Entry) (caller name : List ℕ) (draft : Id) (plan : PlannedLanding) → IsPrefix g h → IsPlan g caller name draft plan → WasPlan h plan }
{}

/// What can be made again stays so as the history grows.
pub fn plan_can_be_made_again_later()
    ensures { (g h : List Entry) (plan : PlannedLanding) → IsPrefix g h → WasPlan g plan → WasPlan h plan }
{}

/// Where no disk failed, to land a planned draft is to decide on its paths once more, by the policy that is held there, and to
/// enter its stack on the planned head, at any moment.
pub fn plan_is_what_is_judged()
    ensures { (header : Header) (h : List Entry) (caller name : List ℕ) (draft : Id) (moment : ℕ) (plan : PlannedLanding) → IsPlan h caller name draft plan → is_down h ≡ false →
        judge header h (LandDraft caller name draft moment) ≡ if_allowed h caller plan.touched (enter_landing header h (told h caller) name plan.old draft (rewrite plan.stack plan.old moment) (moment_of plan.stack moment)) }
{}

/// What was planned stays planned as the history grows.
pub fn planned_as_it_grows()
    ensures { (g h : List Entry) (r : RebasedLanding) → IsPrefix g h → WasPlanned g r → WasPlanned h r }
{}

/// What a changeset leaves unresolved between the trees of its parents stays so as the history grows, once they are known. So it
/// may be found before the turn in which it is judged.
pub fn what_a_merge_leaves_stays()
    ensures { (h g : List Entry) (c : Changeset) (path : Option Path) → IsPrefix h g → AllByRecursion (λ p. is_known (known h) p ≡ true) c.parents → IsLeft h c path → IsLeft g c path }
{}
