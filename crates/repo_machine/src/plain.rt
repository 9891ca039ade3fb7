//! The same replies by going through the history: slow and plain, for the machine to be held against.
ghost use Rattle.std.specs.Prelude.{◌≡◌, ◌≤◌, ◌<◌, ◌+◌, ◌^◌, true};
ghost use Rattle.changeset_model.specs.Version.{Version, First};
ghost use Rattle.history_model.specs.History.{content_len, length_in};
ghost use Rattle.history_model.specs.Journal.{record_len, is_header};
ghost use Rattle.history_model.specs.Journal as journal;
ghost use Rattle.reply_model.specs.Reply.{PutContent};
ghost use Rattle.reply_model.specs.After.{Asks, Replies};
ghost use Rattle.repo_machine.specs.Plain.{history_of, body_of};
ghost use Rattle.repo_calls.specs.Calls.{content_answer};

use crate::machine::EMPTY_SIZE;
use bonsai::MOST_CONTENT;
use object_id::Id;
use repo_calls::Refusal;
use repo_events::FRAME;

/// A content that was stored: the number of the seat that stored it, its id, and its length in bytes.
#[derive(Clone, Copy, Debug, PartialEq, Eq)]
pub struct StoredContent {
    pub who: u64,
    pub id: Id,
    pub length: u64,
}

// The content's length, if it has this id.
fn length_in(content: &StoredContent, id: &Id) -> Option<u64>
    ensures { result ≡ length_in id.now (body_of content.now) }
{
    (content.id == *id).then_some(content.length)
}

/// The length of the content with this id.
pub fn content_length(contents: &[StoredContent], id: &Id) -> Option<u64>
    ensures { result ≡ content_len (history_of contents.now) id.now }
{
    'contents: for content in contents {
        let found = length_in(content, id);
        if found.is_some() {
            return found;
        }
    }
    None
}

/// The bytes of the journal that would stand for the contents, which are fewer than 2^63.
pub fn journal_size(contents: &[StoredContent]) -> u64
    requires { journal.size (history_of contents.now) < 2 ^ 63 }
    ensures { result ≡ journal.size (history_of contents.now) }
{
    let mut size = EMPTY_SIZE;
    'contents: for content in contents {
        size += FRAME as u64 + 1 + content.length;
    }
    size
}

/// Stores a content for the seat `who`, and answers its id.
pub fn put_content(
    capacity: u64,
    contents: &mut Vec<StoredContent>,
    who: u64,
    bytes: &[u8],
) -> Result<Id, Refusal>
    requires header { is_header (record { capacity = capacity; version = First }) ≡ true }
    requires fits { journal.size (history_of contents.old.items) ≤ capacity }
    ensures reply { (version : Version) → Replies (record { capacity = capacity; version = version }) (history_of contents.old.items) who (Asks (PutContent bytes.now)) (content_answer result) (history_of contents.new.items) }
    ensures fits { journal.size (history_of contents.new.items) ≤ capacity }
{
    if bytes.len() as u64 > MOST_CONTENT {
        return Err(Refusal::TooLong {
            length: bytes.len() as u64,
        });
    }
    let id = Id::of(bytes);
    if content_length(contents.as_slice(), &id).is_some() {
        return Ok(id);
    }
    let size = journal_size(contents.as_slice());
    let length = bytes.len() as u64;
    let payload = 1 + length;
    if size + FRAME as u64 + payload > capacity {
        return Err(Refusal::Full {
            size,
            length: payload,
        });
    }
    contents.push(StoredContent { who, id, length })?;
    Ok(id)
}
