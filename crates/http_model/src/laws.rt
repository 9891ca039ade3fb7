//! Laws of streams, each the contract of a function that does nothing.
ghost use Rattle.std.specs.Prelude.{◌≡◌, ◌<◌, ◌≤◌, ℕ, true, false, List, [], ◌∷◌, ◌++◌, length};
ghost use Rattle.http_model.specs.declared.head_refusal.HeadRefusal.{HeadRefusal};
ghost use Rattle.http_model.specs.Refusals.{status_of};
ghost use Rattle.http_model.specs.Stream.{Request, Next, Whole, Partial, Refuses, skip_blank, Begins};
ghost use Rattle.http_model.specs.Session.{End, Ended, Closed, Cut, Refused, Spent, Takes, Requests, most_read};

/// One thing stands first on a stream, and empty lines before it change nothing.
pub fn one_thing_stands_first()
    ensures unique { (bytes : List ℕ) (next other : Next) → Begins bytes next → Begins bytes other → next ≡ other }
    ensures skipped { (bytes : List ℕ) (next : Next) → Begins bytes next → Begins (skip_blank bytes) next }
    ensures before_skip { (bytes : List ℕ) (next : Next) → Begins (skip_blank bytes) next → Begins bytes next }
{}

/// A message that is whole and a refusal stay the same whatever bytes follow.
pub fn first_stays_whatever_follows()
    ensures whole { (bytes more : List ℕ) (request : Request) (rest : List ℕ) → Begins bytes (Whole request rest) → Begins (bytes ++ more) (Whole request (rest ++ more)) }
    ensures refused { (bytes more : List ℕ) (refusal : HeadRefusal) → Begins bytes (Refuses refusal) → Begins (bytes ++ more) (Refuses refusal) }
{}

/// The requests that were taken stay the same as more bytes come, as empty lines are dropped, and as one more is taken.
pub fn requests_are_taken_one_by_one()
    ensures none { (bytes : List ℕ) → Takes bytes [] bytes }
    ensures more { (bytes : List ℕ) (requests : List Request) (rest more : List ℕ) → Takes bytes requests rest → Takes (bytes ++ more) requests (rest ++ more) }
    ensures skipped { (bytes : List ℕ) (requests : List Request) (rest : List ℕ) → Takes bytes requests rest → Takes bytes requests (skip_blank rest) }
    ensures one { (bytes : List ℕ) (requests : List Request) (rest : List ℕ) (request : Request) (after : List ℕ)
        → Takes bytes requests rest → Begins rest (Whole request after) → request.close ≡ false → Takes bytes (requests ++ request ∷ []) after }
{}

/// How a session ends, from the requests that were taken and what stands after them.
pub fn sessions_end_by_what_is_left()
    ensures ended { (bytes : List ℕ) (requests : List Request) (rest : List ℕ) → Takes bytes requests rest → Begins rest (Partial 0) → length bytes < most_read → Requests bytes requests Ended }
    ensures closed { (bytes : List ℕ) (requests : List Request) (rest : List ℕ) (last : Request) (after : List ℕ)
        → Takes bytes requests rest → Begins rest (Whole last after) → last.close ≡ true → length bytes ≤ most_read → Requests bytes (requests ++ last ∷ []) Closed }
    ensures cut { (bytes : List ℕ) (requests : List Request) (rest : List ℕ) (read : ℕ) → Takes bytes requests rest → Begins rest (Partial read) → 0 < read → length bytes < most_read → Requests bytes requests (Cut read) }
    ensures refused { (bytes : List ℕ) (requests : List Request) (rest : List ℕ) (refusal : HeadRefusal) → Takes bytes requests rest → Begins rest (Refuses refusal) → length bytes ≤ most_read → Requests bytes requests (Refused (status_of refusal)) }
    ensures spent { (bytes : List ℕ) (requests : List Request) (rest : List ℕ) (read : ℕ) → Takes bytes requests rest → Begins rest (Partial read) → length bytes ≡ most_read → Requests bytes requests Spent }
{}

/// No session reads more bytes than it may, however it ends.
pub fn no_more_is_read()
    ensures { (bytes : List ℕ) (requests : List Request) (end : End) → Requests bytes requests end → length bytes ≤ most_read }
{}

/// The bytes alone say which requests a session takes and how it ends, however they were cut.
pub fn bytes_decide_the_session()
    ensures { (bytes : List ℕ) (requests others : List Request) (end other : End) → Requests bytes requests end → Requests bytes others other → (requests ≡ others) × (end ≡ other) }
{}
