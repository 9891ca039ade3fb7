//! Laws of what a crash may leave of a file where the last entries wait to be sealed together, each the contract of a
//! function that does nothing.
ghost use Rattle.std.specs.Prelude.{◌≡◌, ◌+◌, ◌≤◌, ℕ, IsTrue, List, [], ◌∷◌, ◌++◌, length, drop, true};
ghost use Rattle.disk_model.specs.Images.{IsImage};
ghost use Rattle.disk_model.specs.Meaning.{Meaning};
ghost use Rattle.disk_model.specs.Calls.{Kept, LeavesOnly};
ghost use Rattle.history_model.specs.History.{Fault, Entry, bodies, is_stored};
ghost use Rattle.history_model.specs.Journal.{Header, IsPayload, framed, size};
ghost use Rattle.reply_model.specs.Legal.{IsLegal};
ghost use Rattle.repo_journal.specs.Payloads.{ArePayloads};
ghost use Rattle.repo_journal.specs.Groups.{group, grown, AppendsGroup, GroupHolds, IsWith};
ghost use Rattle.repo_state.specs.Images.{sealed_part, IsPending, Leaves, StandsFor};

/// What waits to be sealed: nothing at first, one record more with each entry, and the file and it have the size of the history.
pub fn what_waits()
    ensures none { (h : List Entry) → IsPending h (length (bodies h)) [] }
    ensures more { (h : List Entry) (n : ℕ) (bytes payload : List ℕ) (entry : Entry) → IsTrue (is_stored entry.body) → IsPayload entry.body payload → IsPending h n bytes → IsPending (h ++ entry ∷ []) n (grown bytes (framed payload)) }
    ensures sizes { (h : List Entry) (n : ℕ) (bytes : List ℕ) → IsPending h n bytes → size h ≡ size (sealed_part n h) + length bytes }
{}

/// What a crash may leave is kept over an entry that waits, over calls that leave the gate closed, over a group that is sealed, and over one
/// whose sealing fails. What the file and the group have of the parts of its wholes must have their ids.
pub fn a_group_keeps_what_a_crash_leaves()
    ensures entered { (header : Header) (k moment : ℕ) (h : List Entry) (n reach : ℕ) (e : Entry) (first m : Meaning) → n ≤ length (bodies h) → reach ≤ length (bodies h) → Leaves header k moment h n reach first m → Leaves header k moment (h ++ e ∷ []) n reach first m }
    ensures laid { (header : Header) (k moment : ℕ) (h g : List Entry) (n : ℕ) (first m new : Meaning) → moment ≤ first.moment → Kept first m → k ≤ n → bodies h ≡ bodies g
        → ((image : List ℕ) → IsImage new.state image → StandsFor header h n image) → LeavesOnly (IsImage new.state) m new
        → Leaves header k moment h n n first m → Leaves header k moment g n n first new }
    ensures sealed { (header : Header) (k moment : ℕ) (h : List Entry) (n : ℕ) (payload : List ℕ) (payloads : List (List ℕ)) (first m new : Meaning) → moment ≤ first.moment → Kept first m → k ≤ n → n ≤ length (bodies h)
        → IsLegal header h → ArePayloads (drop n (bodies h)) (payload ∷ payloads)
        → GroupHolds m.state (size (sealed_part n h)) (group (payload ∷ payloads)) (bodies h) (drop n (bodies h))
        → AppendsGroup (size (sealed_part n h)) (group (payload ∷ payloads)) m new → ((image : List ℕ) → IsImage new.state image → IsWith m.state (size (sealed_part n h)) (group (payload ∷ payloads)) image)
        → Leaves header k moment h n n first m → Leaves header k moment h (length (bodies h)) (length (bodies h)) first new }
    ensures failed { (header : Header) (k moment : ℕ) (h : List Entry) (n who : ℕ) (payload : List ℕ) (payloads : List (List ℕ)) (first m new : Meaning) → moment ≤ first.moment → Kept first m → k ≤ n → n ≤ length (bodies h)
        → IsLegal header h → ArePayloads (drop n (bodies h)) (payload ∷ payloads)
        → GroupHolds m.state (size (sealed_part n h)) (group (payload ∷ payloads)) (bodies h) (drop n (bodies h))
        → AppendsGroup (size (sealed_part n h)) (group (payload ∷ payloads)) m new
        → Leaves header k moment h n n first m → Leaves header k moment (h ++ record { who = who; body = Fault true } ∷ []) n (length (bodies h)) first new }
{}
