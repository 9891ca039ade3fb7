//! Laws of granted landings, each the contract of a function that does nothing.
ghost use Rattle.std.specs.Prelude.{ℕ, List};
ghost use mathlib.Core.List.{IsPrefix};
ghost use Rattle.byte_fields.specs.Bytes.{Id};
ghost use Rattle.history_model.specs.History.{Entry, known};
ghost use Rattle.history_model.specs.Journal.{Header};
ghost use Rattle.reply_model.specs.After.{After, Asks, Grants, Replies};
ghost use Rattle.reply_model.specs.Legal.{IsLegal};
ghost use Rattle.reply_model.specs.Reply.{LandDraft, Landed};
ghost use Rattle.repo_machine.specs.Landings.{IsLanding};

/// Where the repository of one thread grants a landing, and its history is legal then: the new head's tree has what the stack sets, and else what the old head's has, in which no path that the stack touches was changed since the root.
pub fn a_granted_landing_applies_its_stack()
    ensures { (header : Header) (h : List Entry) (who : ℕ) (caller name : List ℕ) (draft : Id) (moment : ℕ) (old : Id) (ids : List Id) (new : List Entry) → IsLegal header new → Replies header h who (Asks (LandDraft caller name draft moment)) (Grants (Landed old ids)) new → IsLanding (known h) (known new) old draft ids }
{}

/// The same where others share the repository, between two histories on the way, of which the landing makes the second. Others may go on from there while it is sealed.
pub fn a_landing_among_others_applies_its_stack()
    ensures { (header : Header) (front : List Entry) (who : ℕ) (caller name : List ℕ) (draft : Id) (moment : ℕ) (old : Id) (ids : List Id) (new : List Entry) → IsLegal header new → After header front who (Asks (LandDraft caller name draft moment)) (Grants (Landed old ids)) new → (before at : List Entry) × IsPrefix front before × IsPrefix before at × IsPrefix at new × IsLanding (known before) (known at) old draft ids }
{}
