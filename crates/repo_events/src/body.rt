//! What an entry of a history says.
ghost use Rattle.std.specs.Prelude.{◌≡◌, ℕ, ◌<◌, ◌≤◌, ◌+◌, ◌*◌, ◌^◌, ◌&&◌, ◌++◌, length, IsTrue};
ghost use Rattle.std.specs.List.{concat, list_all};
ghost use Rattle.std.specs.Option.{option_copied, option_to_list};
ghost use Rattle.byte_fields.specs.Bytes.{is_bytes};
ghost use Rattle.history_model.specs.Bookmark.{is_name};
ghost use Rattle.history_model.specs.History as model;
ghost use Rattle.history_model.specs.History.{Book, Land, changesets_in};
ghost use Rattle.history_model.specs.Journal.{moment_bytes, optional_id, payload_len};
ghost use Rattle.repo_events.specs.Entries.{caller_bytes, commits_length, move_of, landing_of, body_of};

use crate::spelled::Spelled;
use bonsai::Commit;
use object_id::Id;
use repo_path::BookName;

/// A bookmark's head before and after; `None` where there is no bookmark.
#[derive(Debug, Drop)]
pub struct Move {
    pub name: BookName,
    pub from: Option<Id>,
    pub to: Option<Id>,
    /// Who moved it, told where a policy was held.
    pub caller: Option<BookName>,
}

/// A draft that was landed on a bookmark.
#[derive(Debug, Drop)]
pub struct Landing {
    pub name: BookName,
    /// The head before.
    pub old: Id,
    pub draft: Id,
    /// The rewritten changesets, of which the last is the head after.
    pub new: Vec<Spelled>,
    /// When it was landed, told where one of them is of the second version.
    pub moment: Option<u64>,
    /// Who landed it, told where a policy was held.
    pub caller: Option<BookName>,
}

/// What an entry says.
#[derive(Debug, Drop)]
pub enum Body {
    /// A content of this id and length in bytes was stored.
    Content { id: Id, length: u64 },
    /// A content of this id and length in bytes was made of others, in this order.
    Whole { id: Id, length: u64, parts: Vec<Id> },
    /// A changeset was uploaded.
    Change(Commit),
    /// A bookmark was made, moved or deleted.
    Book(Move),
    /// A stack was landed.
    Land(Landing),
    /// Who may land and move bookmarks from here on was set.
    Policy { caller: BookName, text: Vec<u8> },
}

impl Body {
    /// The length in bytes of the payload that stands for the entry.
    pub fn payload_length(&self) -> u64
        requires fits { payload_len (body_of self.now) < 2 ^ 64 }
        requires counted { length (changesets_in (body_of self.now)) < 2 ^ 16 }
        ensures { result ≡ payload_len (body_of self.now) }
    {
        match self {
            Body::Content { id: _, length } => 1 + *length,
            Body::Change(commit) => commit.encoded_length() as u64,
            Body::Book(movement) => movement.payload_length(),
            Body::Land(landing) => landing.payload_length(),
            Body::Whole {
                id,
                length: _,
                parts,
            } => whole_length(id, parts.as_slice()),
            Body::Policy { caller, text } => {
                3 + caller.as_str().len() as u64 + text.len() as u64
            }
        }
    }
}

impl Move {
    /// The length in bytes of the payload that stands for the move.
    pub fn payload_length(&self) -> u64
        ensures value { result ≡ payload_len (Book (move_of self.now)) }
        ensures short { result < 2 ^ 9 }
        ensures rules { IsTrue (is_name self.now.name && list_all (is_bytes 32) (option_to_list self.now.from ++ option_to_list self.now.to)) }
    {
        let name = self.name.as_str().len() as u64;
        let caller = caller_length(self.caller.as_ref());
        2 + name + optional_length(self.from) + optional_length(self.to) + caller
    }
}

// The length in bytes of an id that may be absent, with its flag.
fn optional_length(id: Option<Id>) -> u64
    ensures value { result ≡ length (optional_id id) }
    ensures short { result < 34 }
    ensures rules { IsTrue (list_all (is_bytes 32) (option_to_list id)) }
{
    match id {
        None => 1,
        Some(id) => 1 + id.as_bytes().as_slice().len() as u64,
    }
}

impl Landing {
    /// The length in bytes of the payload that stands for the landing.
    pub fn payload_length(&self) -> u64
        requires { length self.now.new.items < 2 ^ 16 }
        ensures value { result ≡ payload_len (Land (landing_of self.now)) }
        ensures short { result < 2 ^ 44 }
        ensures rules { IsTrue (is_name self.now.name && is_bytes 32 self.now.old && is_bytes 32 self.now.draft) }
    {
        let name = self.name.as_str().len();
        let ids = self.old.as_bytes().as_slice().len() + self.draft.as_bytes().as_slice().len();
        let fields = 4 + name as u64 + ids as u64 + moment_length(self.moment);
        fields + commits_length(self.new.as_slice()) + caller_length(self.caller.as_ref())
    }
}

// The length in bytes of the encodings, each behind its length.
fn commits_length(commits: &[Spelled]) -> u64
    requires { length commits.now < 2 ^ 16 }
    ensures value { result ≡ commits_length commits.now }
    ensures short { result ≤ 2 ^ 27 * length commits.now }
{
    let mut length = 0;
    'commits: for commit in commits {
        length += 4 + commit.encoded_length() as u64;
    }
    length
}

/// The length in bytes of a caller who is told, with the mark and the length before the name.
pub(crate) fn caller_length(caller: Option<&BookName>) -> u64
    ensures value { result ≡ length (caller_bytes (option_copied caller.entry)) }
    ensures short { result < 2 ^ 8 }
{
    match caller {
        None => 0,
        Some(name) => 2 + name.as_str().len() as u64,
    }
}

/// The length in bytes of a moment that is told.
pub(crate) fn moment_length(moment: Option<u64>) -> u64
    ensures value { result ≡ length (moment_bytes moment) }
    ensures short { result ≤ 8 }
{
    match moment {
        None => 0,
        Some(_) => 8,
    }
}

// The length in bytes of the payload of a whole: a mark, its id and length, and its parts behind their count.
fn whole_length(id: &Id, parts: &[Id]) -> u64
    requires { 11 + length id.now + length (concat parts.now) < 2 ^ 64 }
    ensures { (n : ℕ) → result ≡ payload_len (model.Whole id.now n parts.now) }
{
    let mut length = 11 + id.as_bytes().as_slice().len() as u64;
    'parts: for part in parts {
        length += part.as_bytes().as_slice().len() as u64;
    }
    length
}
