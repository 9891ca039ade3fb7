//! Laws of the core, each the contract of a function that does nothing.
ghost use Rattle.std.specs.Prelude.{◌≡◌, ◌⊎◌, ◌<◌, ℕ, Bool, true, false, IsTrue, Some, Contains, List, [], ◌∷◌, ◌++◌};
ghost use Rattle.std.specs.List.{AllByRecursion};
ghost use mathlib.Core.List.{IsPrefix};
ghost use Rattle.history_model.specs.History.{Body, Entry, bodies, stored};
ghost use Rattle.history_model.specs.Journal.{Header};
ghost use Rattle.core_model.specs.Core.{State, Step, Crash, group_of, may_be_kept, opened, after_step, after_steps};
ghost use Rattle.landing_core.specs.Gained.{StandsAt, IsSealedAt, MadeAt, sealed_log, gain_of, gains_of, is_crash};
ghost use Rattle.landing_core.specs.Whole.{Keeps};
ghost use Rattle.reply_model.specs.Legal.{IsLegal};

/// Whatever steps are taken after any from a history as it was opened, crashes among them: the sealed entries before are a prefix of those after.
pub fn sealed_entries_stay()
    ensures { (header : Header) (h : List Entry) (steps later : List Step) (s t : State) → after_steps header (opened h) steps ≡ Some s → after_steps header s later ≡ Some t → IsPrefix (sealed_log s) (sealed_log t) }
{}

/// As long as no crash comes, nothing of the history is taken away or moved, with the seats' numbers and the faults.
pub fn the_history_grows_until_a_crash()
    ensures { (header : Header) (s t : State) (steps : List Step) → AllByRecursion (λ step. is_crash step ≡ false) steps → after_steps header s steps ≡ Some t → IsPrefix s.history t.history }
{}

/// Whatever steps are taken from any state, crashes among them: what is acknowledged stays so, in its order.
pub fn what_is_acknowledged_stays()
    ensures { (header : Header) (s t : State) (steps : List Step) → after_steps header s steps ≡ Some t → IsPrefix s.acknowledged t.acknowledged }
{}

/// Whatever steps are taken after any from a history as it was opened, crashes among them: each sealed entry keeps its log number, and stays sealed.
pub fn sealed_entries_keep_their_numbers()
    ensures { (header : Header) (h : List Entry) (steps later : List Step) (s t : State) (number : ℕ) (body : Body) → IsSealedAt s number body → after_steps header (opened h) steps ≡ Some s → after_steps header s later ≡ Some t → IsSealedAt t number body × StandsAt t.history number body }
{}

/// Whatever steps are taken, crashes among them: each stored entry of the first history stands at its log number.
pub fn the_first_history_stands()
    ensures { (header : Header) (h : List Entry) (steps : List Step) (s : State) (number : ℕ) (body : Body) → after_steps header (opened h) steps ≡ Some s → StandsAt h number body → StandsAt s.history number body }
{}

/// After any steps from a history as it was opened, a further step seals the group that is being sealed where it is a seal that is done or a crash that keeps the group, and else nothing. It takes nothing away of what is sealed.
pub fn each_step_seals_the_group_or_nothing()
    ensures { (header : Header) (h : List Entry) (steps : List Step) (s t : State) (step : Step) → after_steps header (opened h) steps ≡ Some s → after_step header s step ≡ Some t → sealed_log t ≡ sealed_log s ++ gain_of step s }
{}

/// Whatever steps are taken, crashes among them: what is sealed are the stored entries of the first history and then the groups that the steps sealed, in their order, and nothing else.
pub fn the_sealed_log_is_what_was_sealed()
    ensures { (header : Header) (h : List Entry) (steps : List Step) (s : State) → after_steps header (opened h) steps ≡ Some s → sealed_log s ≡ bodies h ++ gains_of header (opened h) steps }
{}

/// After any steps from a history as it was opened, a crash leaves the sealed entries, or these and the group, where its gate was to be opened, and nothing of what was entered behind it. All that it leaves is sealed, and no entry has a seat's number then. What is acknowledged stays acknowledged.
pub fn a_crash_leaves_the_group_or_nothing_of_it()
    ensures log { (header : Header) (h : List Entry) (steps : List Step) (s t : State) (kept : Bool) → after_steps header (opened h) steps ≡ Some s → after_step header s (Crash kept) ≡ Some t →
        (bodies t.history ≡ sealed_log s) ⊎ (IsTrue (may_be_kept s.sealing) × (bodies t.history ≡ sealed_log s ++ group_of s)) }
    ensures reopened { (header : Header) (s t : State) (kept : Bool) → after_step header s (Crash kept) ≡ Some t →
        (t.history ≡ stored t.history) × (sealed_log t ≡ bodies t.history) × (t.acknowledged ≡ s.acknowledged) }
{}

/// After any steps from a history as it was opened, what a seat waits for is an entry that it made. Once that is sealed, it stands at its number also after all later steps, crashes among them.
pub fn what_is_waited_for_stands()
    ensures made { (header : Header) (h : List Entry) (steps : List Step) (s : State) (who number : ℕ) → after_steps header (opened h) steps ≡ Some s → Contains (s.waiting who) number → (body : Body) × MadeAt s.history number who body }
    ensures stands { (header : Header) (h : List Entry) (steps later : List Step) (s t : State) (who number : ℕ) → after_steps header (opened h) steps ≡ Some s → Contains (s.waiting who) number → number < s.sealed →
        after_steps header s later ≡ Some t → (body : Body) × MadeAt s.history number who body × StandsAt t.history number body }
{}

/// The core's law, whole. After any steps from a legal history as it was opened: the history is legal. Each acknowledged entry is sealed and stands at its log number, and no number is acknowledged twice. Each crash among the steps left all that was sealed then, of the first history, sealed since, answered or not, or left by an earlier crash, each at its number, and the whole group that was being sealed or nothing of it. What is in the table are the manifests from scratch.
pub fn the_core_keeps_its_law()
    ensures { (header : Header) (h : List Entry) (steps : List Step) (s : State) → IsLegal header h → after_steps header (opened h) steps ≡ Some s → Keeps header h steps s }
{}
