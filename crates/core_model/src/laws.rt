//! Laws of the core, each the contract of a function that does nothing.
ghost use Rattle.std.specs.Prelude.{◌≡◌, true, Some, List, slice_get};
ghost use Rattle.history_model.specs.History.{Entry, bodies, known, is_known};
ghost use Rattle.history_model.specs.Journal.{Header};
ghost use Rattle.reply_model.specs.Legal.{IsLegal};
ghost use Rattle.std.specs.List.{AllByRecursion};
ghost use Rattle.manifest_model.specs.Manifests.{manifests_of};
ghost use Rattle.core_model.specs.Core.{State, Step, Once, are_apart, nodes_among, opened, after_steps};

/// Whatever steps are taken, crashes among them: the history stays legal, each acknowledged entry stands at its log number, and no number is acknowledged twice.
pub fn each_run_keeps_what_is_acknowledged()
    ensures { (header : Header) (h : List Entry) (steps : List Step) (s : State) → IsLegal header h → after_steps header (opened h) steps ≡ Some s →
        IsLegal header s.history × AllByRecursion (λ a. slice_get (bodies s.history) a.0 ≡ Some a.1) s.acknowledged × Once s.acknowledged }
{}

/// Whatever steps are taken, crashes among them: what is in the table of a settled changeset are the manifests that the definitions give of it from scratch, as it is known, and no two different nodes have one digest.
pub fn each_run_keeps_true_manifests()
    ensures scratch { (header : Header) (h : List Entry) (steps : List Step) (s : State) → IsLegal header h → after_steps header (opened h) steps ≡ Some s →
        AllByRecursion (λ m. (is_known (known s.history) m.id ≡ true) × (m ≡ manifests_of (known s.history) m.id)) s.table }
    ensures apart { (header : Header) (h : List Entry) (steps : List Step) (s : State) → IsLegal header h → after_steps header (opened h) steps ≡ Some s → are_apart (nodes_among s.table) ≡ true }
{}
