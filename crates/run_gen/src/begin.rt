//! How a load begins: a repository in memory, and what its lead stores.
ghost use Rattle.std.specs.Prelude.{◌≡◌, ◌∷◌, ◌++◌, [], IfOk, IsOk, OnOk};
ghost use Rattle.blob_disk.specs.MemDisk.{told_of};
ghost use Rattle.history_model.specs.History.{Body, unnumbered};
ghost use Rattle.reply_model.specs.After.{Asks};
ghost use Rattle.reply_model.specs.Reply as model;
ghost use Rattle.repo_calls.specs.Calls.{call_seen};
ghost use Rattle.repo_state.specs.State.{IsAllSealed, IsQuiet};
ghost use Rattle.run_gen.specs.Begun.{Enters, IsFresh, IsLed, IsMade, IsNew, MayBe};

use crate::asking::fault_of;
use crate::names::Names;
use crate::{LoadFault, base_encoding};
use blob_disk::MemDisk;
use object_id::Id;
use recovery::{OpenFault, Opened, open};
use repo_calls::{Ask, ChangeFault, Granted};
use repo_journal::{InitFault, init};
use repo_state::{Alone, RepoState};
use std::alloc::{AllocError, Global};
use std::hash::RandomState;

// The bytes that the file may have, and that there is room for.
const CAPACITY: u64 = 16_777_216;

// An empty disk.
fn new_disk(alloc: Global) -> Result<MemDisk, AllocError>
    ensures { IfOk result (λ disk. IsFresh (told_of disk)) }
{
    MemDisk::new(alloc, CAPACITY, Vec::new(alloc))
}

// Makes an empty repository. No call of the disk fails.
fn make_repository(disk: &mut MemDisk)
    requires { IsFresh (told_of disk.old) }
    ensures { IsMade (told_of disk.new) }
{
    match init(disk, CAPACITY) {
        Ok(()) => {}
        Err(InitFault::Exists { size: _ }) => unreachable!(),
        Err(InitFault::DiskFault) => unreachable!(),
    }
}

// Opens it.
fn open_repository(
    alloc: Global,
    keys: RandomState,
    disk: MemDisk,
) -> Result<RepoState<MemDisk>, AllocError>
    requires { IsMade (told_of disk) }
    ensures { IfOk result (λ state. IsNew state) }
{
    let mut disk = disk;
    match open(alloc, keys, &mut disk) {
        Ok(Opened { machine, journal }) => Ok(RepoState::new(alloc, machine, journal, disk)),
        Err(OpenFault::Memory) => Err(AllocError),
        Err(OpenFault::NotARepository) => unreachable!(),
        Err(OpenFault::Damaged { at: _ }) => unreachable!(),
        Err(OpenFault::DiskFault) => unreachable!(),
    }
}

// Whether there was memory for a change that is granted.
fn whether(answer: Result<Granted, ChangeFault>) -> Result<(), AllocError>
    requires { MayBe answer }
    ensures { OnOk result (IsOk answer) }
{
    match answer {
        Ok(_) => Ok(()),
        Err(ChangeFault::Refused(refusal)) => match fault_of(refusal) {
            LoadFault::Memory => Err(AllocError),
            LoadFault::Refused => unreachable!(),
        },
        Err(ChangeFault::DiskFault) => unreachable!(),
        Err(ChangeFault::ReadFault) => unreachable!(),
        Err(ChangeFault::BadBytes { .. }) => unreachable!(),
    }
}

// Makes a change that is granted, and makes an entry, which is sealed.
fn store(alloc: Global, state: &mut Alone<MemDisk>, change: &Ask) -> Result<(), AllocError>
    requires quiet { IsQuiet state.old.opening }
    requires enters { (asked : model.Ask) × (call_seen change.now ≡ Asks asked) × (body : Body) × Enters state.old.header state.old.history asked body }
    ensures header { state.new.header ≡ state.old.header }
    ensures opening { state.new.opening ≡ state.old.opening }
    ensures entered { (asked : model.Ask) (body : Body) → call_seen change.now ≡ Asks asked → Enters state.old.header state.old.history asked body → OnOk result (state.new.history ≡ state.old.history ++ unnumbered body ∷ []) }
{
    let answer = state.store(alloc, change);
    whether(answer)
}

// Stores the base, and makes the bookmark at it.
fn lead(alloc: Global, state: &mut Alone<MemDisk>) -> Result<(), AllocError>
    requires { IsNew state.old }
    ensures { OnOk result (IsLed state.new) }
{
    let names = Names::new(alloc)?;
    let base = base_encoding();
    store(alloc, state, &Ask::PutChangeset(&base))?;
    let to = Some(Id::of(&base));
    store(
        alloc,
        state,
        &Ask::SetBookmark {
            caller: &names.caller,
            name: &names.main,
            from: None,
            to,
        },
    )
}

/// A new repository in memory with the base and the bookmark at it. No call of its disk will fail.
/// Its tables by ids are hashed with these keys.
pub fn begin(alloc: Global, keys: RandomState) -> Result<RepoState<MemDisk>, AllocError>
    ensures led { IfOk result (λ state. IsLed state) }
    ensures sealed { IfOk result (λ state. IsAllSealed state.history state.sealed) }
{
    let mut disk = new_disk(alloc)?;
    make_repository(&mut disk);
    let mut alone = Alone::new(open_repository(alloc, keys, disk)?);
    lead(alloc, &mut alone)?;
    Ok(alone.into_state())
}
