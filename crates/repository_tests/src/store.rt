//! A store of a line `a`, `b`, `c`, of `d` on `b`, and of `e` without a parent.
ghost use Rattle.std.specs.Prelude.{◌≡◌, true};
ghost use Rattle.std.specs.List.{AllByRecursion};
ghost use Rattle.history_model.specs.History.{is_known};

use crate::examples::{Example, first};
use crate::rows::same;
use bonsai::{Changeset, Commit};
use changeset_store::ChangesetStore;
use object_id::Id;
use ports::ZeroBytes;
use std::alloc::Global;
use std::hash::RandomState;
use std::process::Abort;
use std::sync::Arc;
use std::test::Fail;

// Adds the changeset of an author.
fn add(alloc: Global, store: &mut ChangesetStore, author: u8, parents: &[Id]) -> Result<Id, Fail> {
    let example = Example {
        author,
        parents,
        ..first()
    };
    let commit = Arc::new(alloc, example.commit(alloc)?)?;
    let id = commit.id();
    add_commit(store, commit)?;
    Ok(id)
}

fn are_known(store: &ChangesetStore, ids: &[Id]) -> bool
    ensures { result ≡ true → AllByRecursion (λ id. is_known store.now.known id ≡ true) ids.now }
{
    ids.iter().all(|id| store.is_known(id))
}

fn add_commit(store: &mut ChangesetStore, commit: Arc<Commit>) -> Result<(), Fail> {
    store.reserve(1)?;
    let parents = commit.changeset().parents();
    if store.is_known(&commit.id()) || !are_known(store, parents) {
        return Err(Fail::from("a new changeset of known parents"));
    }
    store.add(commit);
    Ok(())
}

// A store, and the ids of what it has.
#[derive(Drop)]
struct Filled {
    store: ChangesetStore,
    ids: Vec<Id>,
}

impl Filled {
    fn id_at(&self, number: usize) -> Result<Id, Fail> {
        Ok(*self.ids.get(number).ok_or("a changeset")?)
    }
}

// Adds the changeset of an author on the one with this number.
fn put_on(alloc: Global, filled: &mut Filled, author: u8, parent: usize) -> Result<(), Fail> {
    let parent = filled.id_at(parent)?;
    let id = add(alloc, &mut filled.store, author, &[parent])?;
    Ok(filled.ids.push(id)?)
}

fn put_alone(alloc: Global, filled: &mut Filled, author: u8) -> Result<(), Fail> {
    let id = add(alloc, &mut filled.store, author, &[])?;
    Ok(filled.ids.push(id)?)
}

fn new_filled(alloc: Global) -> Result<Filled, Fail> {
    let mut filled = Filled {
        store: ChangesetStore::new(alloc, RandomState::new(&ZeroBytes)?),
        ids: Vec::new(alloc),
    };
    put_alone(alloc, &mut filled, b'a')?;
    put_on(alloc, &mut filled, b'b', 0)?;
    put_on(alloc, &mut filled, b'c', 1)?;
    put_on(alloc, &mut filled, b'd', 1)?;
    put_alone(alloc, &mut filled, b'e')?;
    Ok(filled)
}

// The id of the author of this letter.
fn id_of(ids: &[Id], letter: &str) -> Result<Id, Fail> {
    let number = letter.bytes().next().ok_or("a letter")?.wrapping_sub(b'a');
    Ok(*ids.get(usize::from(number)).ok_or("a changeset")?)
}

fn letter_of(ids: &[Id], id: Id) -> char {
    for (letter, other) in ('a'..='e').zip(ids.iter()) {
        if *other == id {
            return letter;
        }
    }
    '?'
}

// The letters of changesets, behind a blank.
fn put_letters(
    alloc: Global,
    ids: &[Id],
    out: &mut String,
    changesets: &[&Changeset],
) -> Result<(), Fail> {
    out.push(' ')?;
    for changeset in changesets {
        out.push(letter_of(ids, changeset.id(alloc)?))?;
    }
    Ok(())
}

// The root's number, and what follows the fork in the chain of a draft.
fn put_parted(
    alloc: Global,
    store: &ChangesetStore,
    ids: &[Id],
    out: &mut String,
    head: &Id,
    draft: &Id,
) -> Result<(), Fail> {
    if !store.is_known(head) || !store.is_known(draft) {
        return Err(Fail::from("known changesets"));
    }
    let Some(fork) = store.fork(head, draft) else {
        return Ok(());
    };
    write!(out, "{}", fork.root)?;
    put_letters(alloc, ids, out, store.stack(alloc, &fork)?.as_slice())
}

fn told(alloc: Global, filled: &Filled, head: &str, draft: &str) -> Result<String, Fail> {
    let ids = filled.ids.as_slice();
    let head = id_of(ids, head)?;
    let draft = id_of(ids, draft)?;
    let mut out = String::new(alloc);
    put_parted(alloc, &filled.store, ids, &mut out, &head, &draft)?;
    Ok(out)
}

fn check_parted(rt: &impl Abort, alloc: Global, filled: &Filled, row: &str) -> Result<(), Fail> {
    let (names, wanted) = row.split_once(" = ").ok_or("a row")?;
    let (head, draft) = names.split_once(" ").ok_or("two names")?;
    let told = told(alloc, filled, head, draft)?;
    let wanted = wanted.strip_suffix("-").unwrap_or(wanted);
    same(rt, told.as_str(), wanted, row);
    Ok(())
}

// A head and a draft, the root's number and the stack. They share nothing where it is `-` alone.
const PARTED: &str = "\
c d = 1 d
d c = 1 c
a d = 0 bd
c a = 0 -
b b = 1 -
c e = -
e a = -";

#[test]
fn where_chains_part(rt: HostRuntime) -> Result<(), Fail> {
    let filled = new_filled(rt.alloc())?;
    for row in PARTED.lines() {
        check_parted(&rt, rt.alloc(), &filled, row)?;
    }
    Ok(())
}

#[test]
fn room_is_not_made_for_more_than_numbers_go(rt: HostRuntime) -> Result<(), Fail> {
    let mut store = ChangesetStore::new(rt.alloc(), RandomState::new(&rt)?);
    assert!(rt; store.reserve(2_147_483_649).is_err());
    assert!(rt; store.reserve(3).is_ok());
    Ok(())
}
