//! Changesets: what a commit changes, by rising paths, and the one spelling of each in bytes, whose SHA-256 is its id.
#![tactic(auto)]

pub mod change;
pub mod changeset;
pub mod commit;
mod conflict;
pub mod copy_source;
pub mod decode_fault;
pub mod decoding;
pub mod edit;
mod edit_list;
mod edits;
pub mod encoding;
pub mod fields;
pub mod kind;
pub mod limits;
pub mod making;
mod moment;
mod parts;
mod text;
mod told;
pub mod version;

pub use change::Change;
pub use changeset::Changeset;
pub use commit::Commit;
pub use copy_source::CopySource;
pub use decode_fault::DecodeFault;
pub use decoding::decode;
pub use edit::Edit;
pub use encoding::{encode, encode_into};
pub use fields::Fields;
pub use kind::{FileKind, kind_at};
pub use limits::{
    LONGEST_AUTHOR, LONGEST_ENCODING, LONGEST_MESSAGE, MOST_CONTENT, MOST_EDITS, MOST_PARENTS,
    MOST_SIZE,
};
pub use making::FieldsFault;
pub use version::{Version, version_at};
