//! The change that makes an entry of which a log tells.
ghost use Rattle.std.specs.Prelude.{◌≡◌, IfOk};
ghost use Rattle.std.specs.List.{concat};
ghost use Rattle.reply_model.specs.Opening.{nobody};
ghost use Rattle.repo_calls.specs.Calls.{call_seen, line_seen};
ghost use Rattle.follower.specs.Making.{call_of, caller_in, parts_in};

use object_id::Id;
use repo_calls::{Ask, LogEntry};
use repo_path::{BookName, NameFault};
use std::alloc::{AllocError, Global};

// Stands for a caller who isn't told.
fn nobody(alloc: Global) -> Result<BookName, AllocError>
    ensures { IfOk result (λ name. name ≡ nobody) }
{
    match BookName::parse(alloc, "anonymous") {
        Ok(name) => Ok(name),
        Err(NameFault::BadName { .. }) => unreachable!(),
        Err(NameFault::Memory) => Err(AllocError),
    }
}

/// Who asks for it. What tells no caller was asked before there was a policy, by anyone.
pub(crate) fn caller_of(alloc: Global, entry: &LogEntry) -> Result<BookName, AllocError>
    ensures { IfOk result (λ name. name ≡ caller_in (line_seen entry.now)) }
{
    match entry {
        LogEntry::Bookmark {
            caller: Some(caller),
            ..
        }
        | LogEntry::Landing {
            caller: Some(caller),
            ..
        }
        | LogEntry::Policy { caller, .. } => caller.copy(alloc),
        _ => nobody(alloc),
    }
}

// The ids, one after another.
fn joined(alloc: Global, ids: &[Id]) -> Result<Vec<u8>, AllocError>
    ensures { IfOk result (λ bytes. bytes.items ≡ concat ids.now) }
{
    let mut bytes = Vec::new(alloc);
    for id in ids {
        bytes.extend_from_slice(id.as_bytes())?;
    }
    Ok(bytes)
}

/// The ids of what is joined for it, one after another.
pub(crate) fn parts_of(alloc: Global, entry: &LogEntry) -> Result<Vec<u8>, AllocError>
    ensures { IfOk result (λ bytes. bytes.items ≡ concat (parts_in (line_seen entry.now))) }
{
    match entry {
        LogEntry::Whole { parts, .. } => joined(alloc, parts.as_slice()),
        _ => Ok(Vec::new(alloc)),
    }
}

/// The change itself, with the bytes that were fetched for it. What is landed without a moment has no date of it, so any
/// moment makes the same.
pub(crate) fn ask_for<'a>(
    entry: &'a LogEntry,
    fetched: &'a [u8],
    caller: &'a BookName,
    parts: &'a [u8],
) -> Ask<'a>
    requires caller { caller.now ≡ caller_in (line_seen entry.now) }
    requires parts { parts.now ≡ concat (parts_in (line_seen entry.now)) }
    ensures { call_seen result ≡ call_of (line_seen entry.now) fetched.now }
{
    match entry {
        LogEntry::Content { .. } => Ask::PutContent(fetched),
        LogEntry::Whole { .. } => Ask::PutWhole(parts),
        LogEntry::Changeset { .. } => Ask::PutChangeset(fetched),
        LogEntry::Bookmark { name, from, to, .. } => Ask::SetBookmark {
            caller,
            name,
            from: *from,
            to: *to,
        },
        LogEntry::Landing {
            name,
            draft,
            moment,
            ..
        } => Ask::Land {
            caller,
            name,
            draft: *draft,
            moment: moment.unwrap_or(0),
        },
        LogEntry::Policy { .. } => Ask::SetPolicy {
            caller,
            text: fetched,
        },
    }
}
