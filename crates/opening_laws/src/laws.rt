//! Laws of opening, each the contract of a function that does nothing.
ghost use Rattle.std.specs.Prelude.{◌≡◌, ◌≤◌, ◌+◌, ◌↔◌, ℕ, true, None, Some, Ok, Err, IsTrue, List, [], ◌∷◌, ◌++◌, length, take, drop, Contains, flat_map, Option};
ghost use Rattle.std.specs.List.{AllByRecursion};
ghost use Rattle.sha2.specs.Sha256.{sha256};
ghost use Rattle.byte_fields.specs.Bytes.{Id, IsBytes, IsContent};
ghost use Rattle.changeset_model.specs.Path.{Path};
ghost use Rattle.changeset_model.specs.Changeset.{Changeset, id_of, touched_paths, is_changeset, self_conflict, spelling, most_encoded};
ghost use Rattle.history_model.specs.History.{Body, Content, Change, Book, Land, Policy, Move, Landing, Entry, Known, is_stored, stored, known, changesets_in, policy_of};
ghost use Rattle.policy_model.specs.Rules.{Rule, is_allowed, decide, IsLeastDenied, bookmark_place, policy_place};
ghost use Rattle.history_model.specs.Bookmark.{head};
ghost use Rattle.history_model.specs.Pushrebase.{Fork, fork};
ghost use Rattle.policy_model.specs.Grammar.{parse};
ghost use Rattle.policy_model.specs.Held.{rules_in};
ghost use Rattle.history_model.specs.Journal.{Header, IsPayload, Stands, size};
ghost use Rattle.history_model.specs.Payload.{payload_body};
ghost use Rattle.reply_model.specs.Reply.{PutContent, SetBookmark, LandDraft, SetPolicy, Denied, unresolved_of, judge};
ghost use Rattle.reply_model.specs.Legal.{MayFollow, IsLegal};
ghost use Rattle.reply_model.specs.Opening.{opens};

/// A content stands at its place in a file that stands for the history: behind the gate, the length and the mark of its record are its bytes.
pub fn content_stands_at_its_place()
    ensures { (header : Header) (bytes : List ℕ) (h g : List Entry) (who : ℕ) (x : Id) (n : ℕ) → Stands header bytes (h ++ record { who = who; body = Content x n } ∷ g) → IsContent x n (take n (drop (size h + 5) bytes)) }
{}

/// The known changesets of a legal history keep the rules of a changeset and what an upload must keep: no self-conflict, and a spelling that isn't too long. Each is known by its id.
pub fn known_changesets_keep_the_rules()
    ensures { (header : Header) (h : List Entry) (k : Known) → IsLegal header h → Contains (known h) k →
        (k.id ≡ id_of k.changeset) × IsTrue (is_changeset k.changeset) × (self_conflict k.changeset ≡ None) × (length (spelling k.changeset) ≤ most_encoded) }
{}

/// All changesets of a legal history's entries keep the rules of a changeset, and set no path under another.
pub fn changesets_of_entries_keep_the_rules()
    ensures rules { (header : Header) (h : List Entry) → IsLegal header h → AllByRecursion (λ c. is_changeset c ≡ true) (flat_map (λ e. changesets_in e.body) h) }
    ensures clear { (header : Header) (h : List Entry) → IsLegal header h → AllByRecursion (λ c. self_conflict c ≡ None) (flat_map (λ e. changesets_in e.body) h) }
{}

/// The file of a legal history is within its capacity, where this has room for that of no entry.
pub fn legal_histories_fit()
    ensures { (header : Header) (h : List Entry) → size [] ≤ header.capacity → IsLegal header h → size h ≤ header.capacity }
{}

/// Each payload of an entry that some change makes at a legal history is read as this entry. Of a content these are any bytes of its digest and length.
pub fn payloads_are_read()
    ensures { (header : Header) (h : List Entry) (body : Body) (payload : List ℕ) → IsLegal header h → MayFollow header h body → is_stored body ≡ true → IsPayload body payload → payload_body payload ≡ Ok body }
{}

/// The judge of an upload of a content looks at its digest and length alone: other bytes that have both are granted, make or are refused the same.
pub fn contents_are_judged_by_digest_and_length()
    ensures { (header : Header) (h : List Entry) (bytes other : List ℕ) → sha256 bytes ≡ sha256 other → length bytes ≡ length other → judge header h (PutContent bytes) ≡ judge header h (PutContent other) }
{}

/// A file that stands for a history whose stored entries are legal opens as these: it is never damaged. The contents in it may be other bytes of the digests and lengths than those that were uploaded.
pub fn what_stands_opens()
    ensures { (header : Header) (bytes : List ℕ) (h : List Entry) → IsBytes bytes → Stands header bytes h → IsLegal header (stored h) → opens bytes ≡ Ok (stored h) }
{}

/// A file opens as a history exactly where it stands for it, and it is a legal one of stored entries.
pub fn opens_exactly_what_stands()
    ensures { (bytes : List ℕ) (h : List Entry) → IsBytes bytes → ((opens bytes ≡ Ok h) ↔ ((header : Header) × Stands header bytes h × IsLegal header h × (h ≡ stored h))) }
{}

/// A file stands for histories of one capacity and version at most, and for the stored entries of one legal history at most.
pub fn a_file_stands_for_one_history()
    ensures header { (header other : Header) (bytes : List ℕ) (h g : List Entry) → Stands header bytes h → Stands other bytes g → header ≡ other }
    ensures history { (header other : Header) (bytes : List ℕ) (h g : List Entry) → IsBytes bytes → Stands header bytes h → IsLegal header (stored h) → Stands other bytes g → IsLegal other (stored g) → stored h ≡ stored g }
{}

/// Where a policy is held, each entry that may come next and lands, moves a bookmark or sets a policy is one that the policy allows, and tells whom: a landing on each path that it touches, a move on the place of its bookmark, a policy on that of policies. The text of a policy keeps the grammar.
pub fn what_a_policy_allows()
    ensures landings { (header : Header) (h : List Entry) (landing : Landing) (text : List ℕ) → policy_of h ≡ Some text → MayFollow header h (Land landing) →
        (caller : List ℕ) × (landing.caller ≡ Some caller) × ((p : Path) → Contains (touched_paths landing.new) p → is_allowed (rules_in text) caller p ≡ true) }
    ensures moves { (header : Header) (h : List Entry) (move : Move) (text : List ℕ) → policy_of h ≡ Some text → MayFollow header h (Book move) →
        (caller : List ℕ) × (move.caller ≡ Some caller) × (is_allowed (rules_in text) caller (bookmark_place move.name) ≡ true) }
    ensures policies { (header : Header) (h : List Entry) (caller new text : List ℕ) → policy_of h ≡ Some text → MayFollow header h (Policy caller new) → is_allowed (rules_in text) caller policy_place ≡ true }
    ensures read { (header : Header) (h : List Entry) (caller text : List ℕ) → MayFollow header h (Policy caller text) → (rules : List Rule) × (parse text ≡ Ok rules) }
{}

/// Where no policy is held, no entry that may come next tells its caller, and moves and landings are judged alike whoever asks.
pub fn callers_matter_under_a_policy_alone()
    ensures untold_landing { (header : Header) (h : List Entry) (landing : Landing) → policy_of h ≡ None → MayFollow header h (Land landing) → landing.caller ≡ None }
    ensures untold_move { (header : Header) (h : List Entry) (move : Move) → policy_of h ≡ None → MayFollow header h (Book move) → move.caller ≡ None }
    ensures moves { (header : Header) (h : List Entry) (caller other name : List ℕ) (from to : Option Id) → policy_of h ≡ None → judge header h (SetBookmark caller name from to) ≡ judge header h (SetBookmark other name from to) }
    ensures landings { (header : Header) (h : List Entry) (caller other name : List ℕ) (draft : Id) (moment : ℕ) → policy_of h ≡ None → judge header h (LandDraft caller name draft moment) ≡ judge header h (LandDraft other name draft moment) }
{}

/// What is denied is, of the paths that a landing's stack touches, of the place of a bookmark or of that of policies, the least that the policy that is held doesn't allow the caller, with the number of the rule that decides there.
pub fn denials_name_the_least_path()
    ensures landings { (header : Header) (h : List Entry) (caller name : List ℕ) (draft : Id) (moment : ℕ) (p : Path) (rule : Option ℕ) → judge header h (LandDraft caller name draft moment) ≡ Err (Denied p rule) →
        (old : Id) × (f : Fork) × (head h name ≡ Some old) × (fork (known h) old draft ≡ Some f) ×
        (text : List ℕ) × (policy_of h ≡ Some text) × IsLeastDenied (rules_in text) caller (touched_paths f.stack) p × (rule ≡ decide (rules_in text) caller p) }
    ensures moves { (header : Header) (h : List Entry) (caller name : List ℕ) (from to : Option Id) (p : Path) (rule : Option ℕ) → judge header h (SetBookmark caller name from to) ≡ Err (Denied p rule) →
        (text : List ℕ) × (policy_of h ≡ Some text) × IsLeastDenied (rules_in text) caller (bookmark_place name ∷ []) p × (rule ≡ decide (rules_in text) caller p) }
    ensures policies { (header : Header) (h : List Entry) (caller new : List ℕ) (p : Path) (rule : Option ℕ) → judge header h (SetPolicy caller new) ≡ Err (Denied p rule) →
        (text : List ℕ) × (policy_of h ≡ Some text) × IsLeastDenied (rules_in text) caller (policy_place ∷ []) p × (rule ≡ decide (rules_in text) caller p) }
{}

/// A changeset of two parents that may come next leaves no path unresolved between their trees. So does each of a legal history, by the trees that they have there, however far it has gone on.
pub fn merges_are_resolved()
    ensures next { (header : Header) (h : List Entry) (c : Changeset) → MayFollow header h (Change c) → unresolved_of (known h) c c.parents ≡ None }
    ensures known { (header : Header) (h : List Entry) (k : Known) → IsLegal header h → Contains (known h) k → unresolved_of (known h) k.changeset k.changeset.parents ≡ None }
{}
