//! What derivers are told of a page of the log, and what they do with it.
ghost use Rattle.std.specs.Prelude.{[], ⊤};

use derive_pool::feed::send_page;
use derive_pool::{Derives, IdsFrom, derive_ids, ids_channel};
use object_id::Id;
use repo_calls::{AskFault, LogEntry, LogPage};
use repo_path::BookName;
use std::alloc::{AllocError, Global};
use std::sync::Wait;
use std::test::Fail;

/// Keeps the ids that it was asked for. Of three it can't derive the first two.
#[derive(Drop)]
struct Asked {
    ids: Vec<Id>,
}

impl Derives for Asked {
    ghost Home = { ⊤ };

    ghost home = { λ _. tt };

    ghost own = { λ _. [] };

    ghost derives = { λ _ _ _. ⊤ };

    fn derive(&mut self, _alloc: Global, id: Id) -> Result<(), AskFault> {
        self.ids.push(id)?;
        match self.ids.len() % 3 {
            1 => Err(AskFault::Memory),
            2 => Err(AskFault::Collision { id }),
            _ => Ok(()),
        }
    }
}

// The id of the bytes of a text.
fn id(text: &str) -> Id {
    Id::of(text.as_bytes())
}

fn ids_of(alloc: Global, texts: &[&str]) -> Result<Vec<Id>, AllocError> {
    let mut ids = Vec::new(alloc);
    for text in texts {
        ids.push(id(text))?;
    }
    Ok(ids)
}

fn name(alloc: Global, text: &str) -> Result<BookName, Fail> {
    Ok(BookName::parse(alloc, text)?)
}

fn moved(alloc: Global) -> Result<LogEntry, Fail> {
    Ok(LogEntry::Bookmark {
        name: name(alloc, "main")?,
        from: None,
        to: Some(id("head")),
        caller: None,
    })
}

fn landed(alloc: Global) -> Result<LogEntry, Fail> {
    let ids = ids_of(alloc, &["first", "second", "last"])?;
    Ok(LogEntry::Landing {
        name: name(alloc, "next")?,
        old: id("old"),
        draft: id("draft"),
        moment: None,
        ids,
        caller: None,
    })
}

// An entry of each kind.
fn put_each(alloc: Global, entries: &mut Vec<LogEntry>) -> Result<(), Fail> {
    entries.push(LogEntry::Content {
        id: id("content"),
        size: 7,
    })?;
    entries.push(LogEntry::Changeset { id: id("root") })?;
    entries.push(LogEntry::Whole {
        id: id("whole"),
        size: 14,
        parts: ids_of(alloc, &["content", "content"])?,
    })?;
    entries.push(moved(alloc)?)?;
    entries.push(landed(alloc)?)?;
    entries.push(LogEntry::Policy {
        caller: name(alloc, "ann")?,
        rules: 1,
    })?;
    Ok(())
}

// A page with an entry of each kind, and two more changesets.
fn page_of_each(alloc: Global) -> Result<LogPage, Fail> {
    let mut entries = Vec::new(alloc);
    put_each(alloc, &mut entries)?;
    entries.push(LogEntry::Changeset { id: id("more") })?;
    entries.push(LogEntry::Changeset { id: id("root") })?;
    Ok(LogPage { entries, total: 8 })
}

// What one that derives was asked for.
fn ids_asked<R: Wait>(rt: &R, alloc: Global, from: &IdsFrom) -> Vec<Id> {
    let mut asked = Asked {
        ids: Vec::new(alloc),
    };
    derive_ids(rt, alloc, &mut asked, from);
    asked.ids
}

fn asked_of_page<R: Wait>(rt: &R, alloc: Global, page: &LogPage) -> Result<Vec<Id>, AllocError> {
    let (to, from) = ids_channel(alloc)?;
    send_page(rt, &to, page);
    drop(to);
    Ok(ids_asked(rt, alloc, &from))
}

#[test]
fn each_changeset_of_a_page_is_derived_in_order_whatever_faults_come(
    rt: HostRuntime,
) -> Result<(), Fail> {
    let alloc = rt.alloc();
    let page = page_of_each(alloc)?;
    let asked = asked_of_page(&rt, alloc, &page)?;
    let wanted = ids_of(alloc, &["root", "last", "more", "root"])?;
    assert_eq!(rt; asked.as_slice(), wanted.as_slice());
    Ok(())
}

// One id more is sent than can wait.
fn asked_of_many<R: Wait>(rt: &R, alloc: Global) -> Result<Vec<Id>, AllocError> {
    let (to, from) = ids_channel(alloc)?;
    for _ in 0..1024 {
        to.send(rt, id("early"));
    }
    to.send(rt, id("late"));
    drop(to);
    Ok(ids_asked(rt, alloc, &from))
}

#[test]
fn an_id_is_dropped_where_no_more_can_wait(rt: HostRuntime) -> Result<(), Fail> {
    let asked = asked_of_many(&rt, rt.alloc())?;
    assert_eq!(rt; asked.len(), 1024);
    assert!(rt; asked.iter().all(|one| *one == id("early")));
    Ok(())
}
