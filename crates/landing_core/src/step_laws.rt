//! Laws of steps, each the contract of a function that does nothing.
ghost use Rattle.std.specs.Prelude.{◌≡◌, ◌≢◌, ◌<◌, ◌≤◌, ℕ, true, false, List, [], ◌∷◌, ◌++◌, length, map, take, Option, None};
ghost use Rattle.std.specs.Option.{option_map_or};
ghost use Rattle.core_model.specs.Core.{State, Sealing, Step, Written, Opened, LeftOver, LayContent, WriteGroup, SyncGroup, OpenGate, Seal, Crash, group_end, may_be_kept, opened};
ghost use Rattle.history_model.specs.History.{Fault, Entry, bodies, is_down, unnumbered};
ghost use Rattle.history_model.specs.Journal.{Header};
ghost use Rattle.reply_model.specs.After.{Answer, Asks, DiskFault, Replies};
ghost use Rattle.reply_model.specs.Reply.{Ask};
ghost use Rattle.landing_core.specs.Steps.{AreSteps, AreStepsWithSeal, Cut, Goes, IsMadeFirst, MayAsk, Rests, Shows, ShowsAt, all_calls, asking, calls_to, group_to, left_open, sealed_then};

/// As a repository begins that was opened with this history: all of it is sealed, and no group is being sealed.
pub fn an_opened_history_shows()
    ensures { (h : List Entry) → is_down h ≡ false → Rests h (length (bodies h)) (opened h) }
{}

/// A change that is answered as the repository of one thread answers it, without a fault of the disk, is steps of the core, from each state that shows the history: those that ask it. What it makes waits to be sealed.
pub fn a_change_is_its_steps()
    ensures { (header : Header) (h : List Entry) (n who : ℕ) (ask : Ask) (answer : Answer) (new : List Entry) (s : State) → answer ≢ DiskFault → Replies header h who (Asks ask) answer new → Shows h n s → MayAsk s who ask → (steps : List Step) × AreSteps (asking who ask) answer steps × Goes header s steps (Shows new n) }
{}

/// Where something waits and no group is being sealed, the device calls seal all of it, or those up to one that failed leave a breaking fault of the seat that sealed.
pub fn a_seal_is_its_calls()
    ensures done { (header : Header) (h : List Entry) (n who : ℕ) (s : State) → is_down h ≡ false → n < length (bodies h) → Rests h n s → Goes header s (all_calls who) (Rests h (length (bodies h))) }
    ensures failed { (header : Header) (h : List Entry) (n who : ℕ) (s : State) (cut : Cut) → is_down h ≡ false → n < length (bodies h) → Rests h n s → Goes header s (calls_to who cut) (Rests (h ++ record { who = who; body = Fault true } ∷ []) n) }
{}

/// The first turn of a seal. Where something waits and no group is being sealed, all of it is the group that is written. Where that fails, a group is left over whose gate is closed.
pub fn a_group_is_written()
    ensures done { (header : Header) (h : List Entry) (n who : ℕ) (s : State) → is_down h ≡ false → n < length (bodies h) → ShowsAt h n None s → Goes header s (WriteGroup who true ∷ []) (ShowsAt h n (group_to (length (bodies h)) Written)) }
    ensures failed { (header : Header) (h : List Entry) (n who : ℕ) (s : State) → is_down h ≡ false → n < length (bodies h) → ShowsAt h n None s →
        Goes header s (WriteGroup who false ∷ []) (ShowsAt (h ++ record { who = who; body = Fault true } ∷ []) n (group_to (length (bodies h)) (LeftOver false))) }
{}

/// The second turn, by any seat, whatever was entered since: the group that was written is synced, and its gate opened. Where the sync fails, the gate is closed; where the opening fails, it may stand open.
pub fn a_gate_is_opened()
    ensures done { (header : Header) (h : List Entry) (n who upto : ℕ) (s : State) → ShowsAt h n (group_to upto Written) s → Goes header s (SyncGroup who true ∷ OpenGate who true ∷ []) (ShowsAt h n (group_to upto Opened)) }
    ensures sync { (header : Header) (h : List Entry) (n who upto : ℕ) (s : State) → ShowsAt h n (group_to upto Written) s → Goes header s (SyncGroup who false ∷ []) (ShowsAt (h ++ record { who = who; body = Fault true } ∷ []) n (group_to upto (LeftOver false))) }
    ensures failed { (header : Header) (h : List Entry) (n who upto : ℕ) (s : State) → ShowsAt h n (group_to upto Written) s →
        Goes header s (SyncGroup who true ∷ OpenGate who false ∷ []) (ShowsAt (h ++ record { who = who; body = Fault true } ∷ []) n (group_to upto (LeftOver true))) }
{}

/// The third turn, by any seat, whatever was entered since: what is sealed ends where the group does, and what stands behind it waits. Where the last sync fails, the gate may stand open.
pub fn a_group_is_sealed()
    ensures done { (header : Header) (h : List Entry) (n who upto : ℕ) (s : State) → ShowsAt h n (group_to upto Opened) s → Goes header s (Seal who true ∷ []) (ShowsAt h upto None) }
    ensures failed { (header : Header) (h : List Entry) (n who upto : ℕ) (s : State) → ShowsAt h n (group_to upto Opened) s → Goes header s (Seal who false ∷ []) (ShowsAt (h ++ record { who = who; body = Fault true } ∷ []) n (group_to upto (LeftOver true))) }
{}

/// The bytes of a content that are written beside the journal change nothing of the history, of what is sealed and of the group. Where that fails, a breaking fault is held, and a group is left over, whose gate may stand open only where it was to be opened.
pub fn a_content_is_laid()
    ensures done { (header : Header) (h : List Entry) (n who : ℕ) (group : Option Sealing) (s : State) → is_down h ≡ false → ShowsAt h n group s → Goes header s (LayContent who true ∷ []) (ShowsAt h n group) }
    ensures failed { (header : Header) (h : List Entry) (n who : ℕ) (group : Option Sealing) (s : State) → is_down h ≡ false → ShowsAt h n group s →
        Goes header s (LayContent who false ∷ []) (ShowsAt (h ++ record { who = who; body = Fault true } ∷ []) n (group_to (option_map_or (λ r. r.upto) group n) (LeftOver (may_be_kept group)))) }
{}

/// Where all is sealed and no group is in the making between calls, as in a repository that is served alone, until the disk fails: a change that is answered as the repository of one thread answers it is steps of the core, from each state that shows the history. They ask it and, where it made an entry, seal that by the device calls, all of them or up to one that failed. The disk fails no change whose entry wasn't made first.
pub fn a_change_and_its_seal_are_their_steps()
    ensures { (header : Header) (h : List Entry) (n who : ℕ) (ask : Ask) (answer : Answer) (new : List Entry) (s : State) → Replies header h who (Asks ask) answer new → IsMadeFirst h answer new →
        (is_down h ≡ false → n ≡ length (bodies h)) → Rests h n s → MayAsk s who ask → (steps : List Step) × AreStepsWithSeal who (asking who ask) answer steps × Goes header s steps (Rests new (sealed_then n answer new)) }
{}

/// A crash that keeps nothing is a step, and leaves the sealed entries. Where a breaking fault is held, the state with a group left over that ends anywhere, the gate perhaps open, shows the history too, and a crash of it that keeps the group leaves the stored entries up to its end. So does a crash of any state whose group's gate was to be opened.
pub fn a_crash_is_a_step()
    ensures nothing { (header : Header) (h : List Entry) (n : ℕ) (s : State) → n ≤ length (bodies h) → Shows h n s → Goes header s (Crash false ∷ []) (Rests (map unnumbered (take n (bodies h))) n) }
    ensures left { (h : List Entry) (n upto : ℕ) (s : State) → is_down h ≡ true → Shows h n s → Shows h n (left_open upto s) }
    ensures group { (header : Header) (h : List Entry) (n upto : ℕ) (s : State) → upto ≤ length (bodies h) → Shows h n s → Goes header (left_open upto s) (Crash true ∷ []) (Rests (map unnumbered (take upto (bodies h))) upto) }
    ensures kept { (header : Header) (h : List Entry) (n : ℕ) (s : State) → may_be_kept s.sealing ≡ true → group_end s ≤ length (bodies h) → Shows h n s → Goes header s (Crash true ∷ []) (Rests (map unnumbered (take (group_end s) (bodies h))) (group_end s)) }
{}
