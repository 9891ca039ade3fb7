//! What follows of the entries of a client.
ghost use Rattle.std.specs.Prelude.{◌≡◌, ◌++◌, ℕ, List, length, map, Result};
ghost use Rattle.byte_fields.specs.Bytes.{Id as ModelId};
ghost use Rattle.history_model.specs.History.{Entry, entries_by};
ghost use Rattle.history_model.specs.Journal.{Header};
ghost use Rattle.reply_model.specs.Reply.{Ask};
ghost use Rattle.reply_model.specs.After.{calm_by, entry_by};
ghost use Rattle.repo_state.specs.State.{HasNoFault};
ghost use Rattle.run_gen.specs.Answers.{Answered};
ghost use Rattle.run_gen.specs.Calls.{Call, Went, bodies_of, heads_of, landings_in};
ghost use Rattle.run_gen.specs.declared.fault.LoadFault.{LoadFault};

/// However a list of asks was answered, the seat's new entries are those of the calls that were
/// granted, in their order, one each at most. Breaking faults are left aside, which a load whose disk
/// fails no call has none of.
pub fn own_entries()
    ensures calm { (header : Header) (who : ℕ) (from : List Entry) (asks : List Ask) (heads : List ModelId) (outcome : Result (Unit {0}) LoadFault) (to : List Entry)
        → (a : Answered header who from asks heads outcome to) → calm_by who to ≡ calm_by who from ++ map (entry_by who) (bodies_of a.calls) }
    ensures all { (header : Header) (who : ℕ) (from : List Entry) (asks : List Ask) (heads : List ModelId) (outcome : Result (Unit {0}) LoadFault) (to : List Entry)
        → (a : Answered header who from asks heads outcome to) → HasNoFault to → entries_by who to ≡ entries_by who from ++ map (entry_by who) (bodies_of a.calls) }
{}

/// Of the entries that these calls made, as many are landings as they left heads.
pub fn landings_of_calls()
    ensures { (header : Header) (who : ℕ) (from : List Entry) (calls : List Call) (to : List Entry)
        → Went header who from calls to → landings_in (bodies_of calls) ≡ length (heads_of calls) }
{}
