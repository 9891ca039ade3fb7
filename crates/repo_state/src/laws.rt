//! Laws of a repository in a file, each the contract of a function that does nothing.
ghost use Rattle.std.specs.Prelude.{◌≡◌, ℕ, ◌≤◌, true, IsTrue, List, length, Option, Some};
ghost use Rattle.std.specs.List.{AllByRecursion};
ghost use mathlib.Core.List.{IsPrefix};
ghost use Rattle.disk_model.specs.Images.{IsImage};
ghost use Rattle.disk_model.specs.Meaning.{Meaning};
ghost use Rattle.history_model.specs.History.{Entry, bodies, known};
ghost use Rattle.history_model.specs.Journal.{Header, Stands};
ghost use Rattle.core_model.specs.Core.{State, Step, after_steps};
ghost use Rattle.landing_core.specs.Steps.{Shows};
ghost use Rattle.landing_core.specs.Settled.{leaves_manifests};
ghost use Rattle.node_table.specs.Table.{Table};
ghost use Rattle.manifest_store.specs.Manifests.{AreManifests};
ghost use Rattle.bookmark_lock.specs.Opening.{Opening};
ghost use Rattle.repo_state.specs.Cores.{CrashesOf, ShowsLeft, ShowsTable, leaves_gate};
ghost use Rattle.repo_state.specs.Images.{sealed_part};
ghost use Rattle.repo_state.specs.State.{IsSound, LeavesAfter};
ghost use Rattle.repo_state.specs.declared.left.Left.{Left};

/// What a crash may leave of the file on an honest disk is what a crash of the repository of many seats leaves: of each state that shows the history and the group that is being sealed or, where a seal failed, left over, with its gate as it may stand then.
pub fn a_crash_of_the_file_is_one_of_the_core()
    ensures { (header : Header) (h : List Entry) (n : ℕ) (pending : List ℕ) (left : Option Left) (m : Meaning) (s : State) → LeavesAfter header h n pending left m → IsTrue m.honest → Shows h n s → ShowsLeft left s → CrashesOf header m s }
{}

/// Steps that seal nothing and are no crash leave the group that is being sealed or left over, with its gate as it was.
pub fn other_steps_leave_the_gate()
    ensures { (header : Header) (left : Option Left) (steps : List Step) (s after : State) → AllByRecursion (λ step. leaves_gate step ≡ true) steps → after_steps header s steps ≡ Some after → ShowsLeft left s → ShowsLeft left after }
{}

/// Steps that neither take nor settle a job leave what is shown of a table, also where more becomes known.
pub fn other_steps_leave_the_table()
    ensures { (header : Header) (t : Table) (steps : List Step) (s after : State) → AreManifests (known s.history) t → AllByRecursion (λ step. leaves_manifests step ≡ true) steps → after_steps header s steps ≡ Some after →
        ShowsTable (known s.history) t s → ShowsTable (known after.history) t after }
{}

/// Each image of the file on an honest disk, in this state of the repository and in each later one, stands for a history that begins with what is sealed now.
pub fn what_is_sealed_outlasts_a_crash()
    ensures { (opening : Opening) (h later : List Entry) (n more reach : ℕ) (m : Meaning) (image : List ℕ) → n ≤ length (bodies h) → IsPrefix h later → n ≤ more → IsSound opening later more reach m → IsTrue m.honest → IsImage m.state image
        → (g : List Entry) × Stands opening.header image g × IsPrefix (sealed_part n h) g }
{}
