//! The header of a file.
ghost use Rattle.std.specs.Prelude.{◌≡◌, ◌&&◌, ℕ, [], length, nat_le};
ghost use Rattle.changeset_model.specs.Version.{Version};
ghost use Rattle.history_model.specs.Journal.{Header, header_bytes, is_header, size};

/// The first bytes of a repository's file: `BONSAI` and the first version.
pub const MARK: [u8; 8] = *b"BONSAI\x00\x01";

/// The same of a file of the second version.
pub const SECOND_MARK: [u8; 8] = *b"BONSAI\x00\x02";

/// The least capacity of a file, in bytes.
pub const LEAST_CAPACITY: u64 = 4_096;

/// The greatest capacity of a file, in bytes.
pub const MOST_CAPACITY: u64 = 34_359_738_368;

/// Where the first gate stands, behind the header, in bytes.
pub const FIRST_GATE: u64 = 16;

/// The size of a file without a record, a header and a gate, in bytes.
pub const EMPTY_SIZE: u64 = 17;

/// The limits and the sizes are those of the definitions.
pub fn sizes_are_defined()
    ensures first { (header : Header) → length (header_bytes header) ≡ FIRST_GATE }
    ensures empty { size [] ≡ EMPTY_SIZE }
    ensures capacity { (n : ℕ) (version : Version) → is_header (record { capacity = n; version = version }) ≡ (nat_le LEAST_CAPACITY n && nat_le n MOST_CAPACITY) }
{}
