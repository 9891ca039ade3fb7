//! The limits of changesets.
ghost use Rattle.std.specs.Prelude.{◌≡◌};
ghost use Rattle.changeset_model.specs.Changeset.{most_content, most_encoded, most_size};

/// The most bytes of a changeset's encoding.
pub const LONGEST_ENCODING: usize = 1_048_576;

/// The most bytes of a content that is uploaded by itself.
pub const MOST_CONTENT: u64 = 1_048_576;

/// The greatest size in bytes that a set names: a content may be joined of up to 64 that were uploaded.
pub const MOST_SIZE: u64 = 67_108_864;

/// The most edits of a changeset.
pub const MOST_EDITS: u32 = 4096;

/// The most parents of a changeset.
pub const MOST_PARENTS: usize = 2;

/// The most bytes of an author.
pub const LONGEST_AUTHOR: u16 = 1024;

/// The most bytes of a message.
pub const LONGEST_MESSAGE: u32 = 1_048_576;

/// The limits are those of the definitions.
pub fn limits_are_defined()
    ensures encoded { LONGEST_ENCODING ≡ most_encoded }
    ensures content { MOST_CONTENT ≡ most_content }
    ensures size { MOST_SIZE ≡ most_size }
{}
