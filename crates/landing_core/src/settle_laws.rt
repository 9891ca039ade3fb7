//! Laws of jobs and of what is settled, each the contract of a function that does nothing.
ghost use Rattle.std.specs.Prelude.{◌≡◌, ◌⊎◌, ℕ, Bool, true, false, [], ◌∷◌, List, Some, is_some};
ghost use Rattle.std.specs.List.{AllByRecursion};
ghost use Rattle.byte_fields.specs.Bytes.{Id};
ghost use Rattle.core_model.specs.Core.{State, Step, TakeJob, Settle, opened, after_steps, settled_in};
ghost use Rattle.history_model.specs.History.{Entry, Known, known};
ghost use Rattle.history_model.specs.Journal.{Header};
ghost use Rattle.reply_model.specs.Legal.{IsLegal};
ghost use Rattle.landing_core.specs.Settled.{AreApartWith, CollideWith, HasJob, IsReady, ShowsSettled, leaves_manifests, with_settled};
ghost use Rattle.landing_core.specs.Steps.{Goes, Shows};

/// A job can be taken of a known changeset that isn't settled and whose parent is, if it has one. It is there then, and nothing else is settled.
pub fn a_job_is_taken()
    ensures { (header : Header) (h : List Entry) (n : ℕ) (settled : Id → Bool) (x : Id) (s : State) → IsLegal header h → IsReady (known h) settled x → Shows h n s → ShowsSettled (known h) settled s →
        Goes header s (TakeJob x ∷ []) (λ t. Shows h n t × ShowsSettled (known h) settled t × HasJob t x) }
{}

/// A changeset of which a job was taken is ready, unless it is settled by now.
pub fn what_has_a_job_is_ready()
    ensures { (ks : List Known) (settled : Id → Bool) (x : Id) (s : State) → ShowsSettled ks settled s → HasJob s x → settled x ≡ false → IsReady ks settled x }
{}

/// What a job derives is settled, and nothing else, where no two different nodes of the settled changesets and of this one have one digest.
pub fn what_is_derived_is_settled()
    ensures { (header : Header) (h : List Entry) (n : ℕ) (settled : Id → Bool) (x : Id) (s : State) → AreApartWith (known h) settled x → Shows h n s → ShowsSettled (known h) settled s → HasJob s x →
        Goes header s (Settle x ∷ []) (λ t. Shows h n t × ShowsSettled (known h) (with_settled settled x) t) }
{}

/// Nothing is settled where the changeset is settled already, or where two different nodes of the settled changesets and of this one have one digest.
pub fn nothing_is_settled()
    ensures { (header : Header) (h : List Entry) (n : ℕ) (settled : Id → Bool) (x : Id) (s : State) → (settled x ≡ true) ⊎ CollideWith (known h) settled x → Shows h n s → ShowsSettled (known h) settled s → HasJob s x →
        Goes header s (Settle x ∷ []) (λ t. Shows h n t × ShowsSettled (known h) settled t) }
{}

/// Whatever steps are taken, crashes among them: the state's manifests and jobs are the definitions', and no job was taken before its parent was settled.
pub fn each_run_shows_what_is_settled()
    ensures { (header : Header) (h : List Entry) (steps : List Step) (s : State) → IsLegal header h → after_steps header (opened h) steps ≡ Some s → ShowsSettled (known s.history) (λ x. is_some (settled_in s.table x)) s }
{}

/// Other steps leave what is settled, and the jobs that were taken.
pub fn other_steps_leave_what_is_settled()
    ensures settled { (header : Header) (settled : Id → Bool) (steps : List Step) (s t : State) → AllByRecursion (λ step. leaves_manifests step ≡ true) steps → after_steps header s steps ≡ Some t → ShowsSettled (known s.history) settled s → ShowsSettled (known t.history) settled t }
    ensures jobs { (header : Header) (x : Id) (steps : List Step) (s t : State) → AllByRecursion (λ step. leaves_manifests step ≡ true) steps → after_steps header s steps ≡ Some t → HasJob s x → HasJob t x }
{}
