//! A repository over memory, with changes that are told by texts.
ghost use mathlib.Core.List.{IsPrefix};

use blob_disk::{Disk, MemDisk};
use object_id::Id;
use ports::ZeroBytes;
use recovery::{Opened, open};
use repo_calls::{Ask, ChangeFault, Granted};
use repo_journal::init;
use repo_path::BookName;
use repo_state::RepoState;
use std::alloc::{AllocError, Global};
use std::hash::RandomState;
use std::test::Fail;

// An empty disk with room for 65,536 bytes.
fn new_disk(alloc: Global) -> Result<MemDisk, Fail> {
    Ok(MemDisk::new(alloc, 65_536, Vec::new(alloc))?)
}

// Makes the file of a new repository.
fn make_file<D: Disk>(disk: &mut D) -> Result<(), Fail> {
    match init(disk, 65_536) {
        Ok(()) => Ok(()),
        Err(_) => Err(Fail::from("a new file")),
    }
}

fn keys() -> Result<RandomState, Fail> {
    Ok(RandomState::new(&ZeroBytes)?)
}

// The repository in a file.
fn open_file<D: Disk>(alloc: Global, keys: RandomState, disk: D) -> Result<RepoState<D>, Fail> {
    let mut disk = disk;
    let Opened { machine, journal } = open(alloc, keys, &mut disk)?;
    Ok(RepoState::new(alloc, machine, journal, disk))
}

/// The bookmark `main`, and who moves it and lands on it.
#[derive(Drop)]
pub(crate) struct Names {
    pub(crate) main: BookName,
    pub(crate) caller: BookName,
}

/// The name `main`, and this caller's.
pub(crate) fn names_of(alloc: Global, caller: &str) -> Result<Names, Fail> {
    Ok(Names {
        main: BookName::parse(alloc, "main")?,
        caller: BookName::parse(alloc, caller)?,
    })
}

// The file of a new repository of the first version, of 65,536 bytes at most.
const FIRST_FILE: &[u8] = b"BONSAI\x00\x01\x00\x00\x00\x00\x00\x01\x00\x00\x00";

fn first_disk(alloc: Global) -> Result<MemDisk, AllocError> {
    MemDisk::holding(alloc, FIRST_FILE, 65_536, Vec::new(alloc))
}

/// A new repository of the first version.
pub(crate) fn first_repository(alloc: Global) -> Result<RepoState<MemDisk>, Fail> {
    open_file(alloc, keys()?, first_disk(alloc)?)
}

/// A new repository of 65,536 bytes at most.
pub(crate) fn new_repository(alloc: Global) -> Result<RepoState<MemDisk>, Fail> {
    let mut disk = new_disk(alloc)?;
    make_file(&mut disk)?;
    open_file(alloc, keys()?, disk)
}

/// The id of these digits, and none where there are none.
pub(crate) fn id(digits: &str) -> Option<Id> {
    Id::from_hex(digits).ok()
}

/// Makes the changes of seat 2 that a script has, one a line: `content TEXT`, `change DIGITS` stores the changeset that
/// the digits spell, and `main ID` makes `main`.
pub(crate) fn make_changes(
    alloc: Global,
    state: &mut RepoState<MemDisk>,
    names: &Names,
    script: &str,
) -> Result<(), Fail> {
    for line in script.lines() {
        let (word, rest) = line.split_once(" ").ok_or("a line")?;
        make_change(alloc, state, names, word, rest)?;
    }
    Ok(())
}

fn make_change(
    alloc: Global,
    state: &mut RepoState<MemDisk>,
    names: &Names,
    word: &str,
    rest: &str,
) -> Result<(), Fail> {
    match word {
        "content" => store(alloc, state, &Ask::PutContent(rest.as_bytes())),
        "change" => {
            let bytes = hex::decode(alloc, rest)?;
            store(alloc, state, &Ask::PutChangeset(bytes.as_slice()))
        }
        _ => {
            let ask = Ask::SetBookmark {
                caller: &names.caller,
                name: &names.main,
                from: None,
                to: id(rest),
            };
            store(alloc, state, &ask)
        }
    }
}

fn done(answer: Result<Granted, ChangeFault>) -> Result<(), Fail> {
    match answer {
        Ok(_) => Ok(()),
        Err(_) => Err(Fail::from("a change")),
    }
}

/// Makes a change of seat 2.
pub(crate) fn store(alloc: Global, state: &mut RepoState<MemDisk>, ask: &Ask) -> Result<(), Fail>
    ensures { IsPrefix state.old.history state.new.history }
{
    done(state.store(alloc, 2, ask))
}
