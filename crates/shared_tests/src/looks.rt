//! What a read tells, as text. Ids and bytes are hex digits.
use object_id::Id;
use repo_calls::{AskFault, LogEntry, LogPage, Seen};
use std::alloc::Global;
use std::test::Fail;

/// What a read is answered.
pub(crate) fn tell(alloc: Global, answer: Result<Seen, AskFault>) -> Result<String, Fail> {
    match answer {
        Ok(seen) => tell_seen(alloc, &seen),
        Err(AskFault::NoChangeset { .. }) => Ok(String::from_str(alloc, "no changeset")?),
        Err(AskFault::NoPath) => Ok(String::from_str(alloc, "no path")?),
        Err(_) => Err(Fail::from("a read")),
    }
}

fn tell_seen(alloc: Global, seen: &Seen) -> Result<String, Fail> {
    match seen {
        Seen::Head(head) => tell_id(alloc, *head),
        Seen::Bytes(bytes) => Ok(hex::encode(alloc, bytes.as_slice())?),
        Seen::Log(page) => tell_page(alloc, page),
        Seen::Ids(ids) => tell_ids(alloc, ids.as_slice()),
        Seen::Copies(_) => Err(Fail::from("copies")),
    }
}

// An id, or `-`.
fn tell_id(alloc: Global, id: Option<Id>) -> Result<String, Fail> {
    match id {
        Some(id) => Ok(id.to_hex(alloc)?),
        None => Ok(String::from_str(alloc, "-")?),
    }
}

// How many ids there are, and each.
fn tell_ids(alloc: Global, ids: &[Id]) -> Result<String, Fail> {
    let count = ids.len();
    let mut text = format!(in alloc; "{count}")?;
    for id in ids {
        let digits = id.to_hex(alloc)?;
        write!(&mut text, " {}", digits.as_str())?;
    }
    Ok(text)
}

// How many entries the log has, and those of the page.
fn tell_page(alloc: Global, page: &LogPage) -> Result<String, Fail> {
    let total = page.total;
    let mut text = format!(in alloc; "{total}")?;
    for entry in &page.entries {
        let told = tell_entry(alloc, entry)?;
        write!(&mut text, ", {}", told.as_str())?;
    }
    Ok(text)
}

fn tell_entry(alloc: Global, entry: &LogEntry) -> Result<String, Fail> {
    match entry {
        LogEntry::Content { id, size } => {
            let id = id.to_hex(alloc)?;
            Ok(format!(in alloc; "content {id} {size}")?)
        }
        LogEntry::Whole { .. } => Err(Fail::from("a whole")),
        LogEntry::Changeset { id } => {
            let id = id.to_hex(alloc)?;
            Ok(format!(in alloc; "changeset {id}")?)
        }
        LogEntry::Bookmark { name, from, to, .. } => {
            let from = tell_id(alloc, *from)?;
            let to = tell_id(alloc, *to)?;
            Ok(format!(in alloc; "move {name} {from} {to}")?)
        }
        LogEntry::Landing {
            name,
            old,
            draft,
            ids,
            ..
        } => {
            let (old, draft) = (old.to_hex(alloc)?, draft.to_hex(alloc)?);
            let ids = tell_ids(alloc, ids.as_slice())?;
            Ok(format!(in alloc; "land {name} {old} {draft} {ids}")?)
        }
        LogEntry::Policy { caller, rules } => Ok(format!(in alloc; "policy {caller} {rules}")?),
    }
}
