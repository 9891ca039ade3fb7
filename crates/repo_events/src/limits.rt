//! The limits of entries and of their payloads.
ghost use Rattle.std.specs.Prelude.{◌≡◌, ℕ, ◌+◌, List, length};
ghost use Rattle.history_model.specs.History.{Body};
ghost use Rattle.history_model.specs.Journal.{framed, most_payload, payload_len, record_len};

/// The most bytes of a payload.
pub const MOST_PAYLOAD: usize = 16_777_216;

/// The bytes of a record beside its payload: the length of 32 bits before it, and the closed gate behind it.
pub const FRAME: usize = 5;

/// The most changesets of a landing.
pub const MOST_STACK: usize = 100;

/// The limits are those of the definitions.
pub fn limits_are_defined()
    ensures payload { MOST_PAYLOAD ≡ most_payload }
    ensures frame { (payload : List ℕ) → length (framed payload) ≡ FRAME + length payload }
    ensures record { (body : Body) → record_len body ≡ FRAME + payload_len body }
{}
