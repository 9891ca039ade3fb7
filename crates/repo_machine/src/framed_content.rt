//! A content in its record.
ghost use Rattle.std.specs.Prelude.{◌≡◌, ◌≤◌, length, IfOk};

use bonsai::MOST_CONTENT;
use object_id::Id;
use repo_events::content_frame;
use std::alloc::AllocError;
use std::marker::Model;

/// A content of at most 1,048,576 bytes with its id, in the record that would store it. Contracts see its bytes.
#[derive(Drop)]
pub struct FramedContent {
    pub(crate) id: Id,
    pub(crate) frame: Vec<u8>,
}

impl Model for FramedContent {
    ghost use Rattle.std.specs.Prelude.{ℕ, List};
    ghost use Rattle.std.specs.Coded.{coded_ℕ, coded_list};
    ghost use Rattle.repo_machine.specs.Prepared.{IsReadyContent, content_in};

    ghost Value = { List ℕ };

    ghost coded = { coded_list coded_ℕ };

    ghost view = { λ c. content_in c.frame.items };

    ghost invariant = { λ c. IsReadyContent (content_in c.frame.items) c.id c.frame.items };
}

impl FramedContent {
    /// Hashes a content and puts it into its record, in the room of its bytes.
    pub fn new(bytes: Vec<u8>) -> Result<FramedContent, AllocError>
        requires { length bytes.items ≤ MOST_CONTENT }
        ensures { IfOk result (λ content. content ≡ bytes.items) }
    {
        let id = Id::of(bytes.as_slice());
        let frame = content_frame(bytes)?;
        Ok(FramedContent { id, frame })
    }
}
