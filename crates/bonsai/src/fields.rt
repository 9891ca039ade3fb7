//! A changeset's fields.
ghost use Rattle.std.specs.Prelude.{◌≡◌, IsTrue, option_map};
ghost use Rattle.changeset_model.specs.Changeset as model;
ghost use Rattle.changeset_model.specs.Decoding as decoding;
ghost use Rattle.byte_fields.specs.Reads.{Reads};
ghost use Rattle.bonsai.specs.View.{fields_view};

use crate::conflict::{Conflict, first_conflict};
use crate::edit::Edit;
use crate::edits::edit_list_at;
use crate::parts::{author_at, message_at, parent_list_at};
use crate::version::{Version, version_at};
use byte_fields::FieldFault;
use byte_fields::fields::{exactly_at, i32_at, i64_at};
use object_id::Id;
use std::alloc::Global;

/// The fields of a changeset. Whether they keep its rules is known once they are in a `Changeset`.
#[derive(Debug, Drop)]
pub struct Fields {
    /// That of the encoding. Only the second has copy sources.
    pub version: Version,
    /// The ids of the parents, at most two different ones.
    pub parents: Vec<Id>,
    /// 1 to `LONGEST_AUTHOR` bytes without 00 and 0A.
    pub author: String,
    /// Seconds since 1970-01-01 00:00 UTC.
    pub seconds: i64,
    /// The offset of the author's clock from UTC in seconds.
    pub offset: i32,
    /// At most `LONGEST_MESSAGE` bytes.
    pub message: String,
    /// At most `MOST_EDITS`, by rising paths.
    pub edits: Vec<Edit>,
}

impl Fields {
    /// The first set path under another set path, with the shortest set path above it.
    pub(crate) fn self_conflict(&self) -> Option<Conflict<'_>>
        requires { IsTrue (model.is_changeset (fields_view self.now)) }
        ensures { option_map (λ c. (c.short.now, c.long.now)) result ≡ model.self_conflict (fields_view self.now) }
    {
        first_conflict(self.edits.as_slice())
    }
}

/// The fields at the front of some bytes.
pub(crate) fn fields_at(alloc: Global, bytes: &[u8]) -> Result<(Fields, &[u8]), FieldFault>
    ensures { Reads (λ x. (fields_view x.0, x.1.now)) result (decoding.changeset bytes.now) }
{
    let rest = exactly_at(bytes, b'C')?;
    let (version, rest) = version_at(rest)?;
    let (parents, rest) = parent_list_at(alloc, rest)?;
    let (author, rest) = author_at(alloc, rest)?;
    let (seconds, rest) = i64_at(rest)?;
    let (offset, rest) = i32_at(rest)?;
    let (message, rest) = message_at(alloc, rest)?;
    let (edits, rest) = edit_list_at(alloc, version, parents.len() as u8, rest)?;
    let fields = Fields {
        version,
        parents,
        author,
        seconds,
        offset,
        message,
        edits,
    };
    Ok((fields, rest))
}
