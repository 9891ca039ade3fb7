//! One stack of a client.
ghost use Rattle.std.specs.Prelude.{◌≡◌, ◌<◌, ◌∷◌, [], ◌++◌, IfOk, OnOk, option_map, string_bytes};
ghost use Rattle.changeset_model.specs.Changeset.{id_of};
ghost use Rattle.bookmark_lock.specs.Place.{moved};
ghost use Rattle.reply_model.specs.Reply.{PutChangeset};
ghost use Rattle.repo_state.specs.State.{IsQuiet};
ghost use Rattle.run_gen.specs.Stacks.{after_part, changeset_of, part_asks, part_of, parts_on, stack_of};
ghost use Rattle.run_gen.specs.Answers.{Answered};
ghost use Rattle.run_gen.specs.Outcomes.{heads_given};
ghost use Rattle.run_gen.specs.Naming.{IsNamed};
ghost use Rattle.run_gen.specs.Parts.{content_asks};

use crate::asking::{land, put};
use crate::names::Names;
use crate::{Draws, LoadFault, Upload, next_upload};
use blob_disk::Disk;
use object_id::Id;
use repo_calls::Ask;
use shared_repo::{Repo, RepoSeat};
use std::alloc::Global;
use std::sync::Wait;

// Stores a content, if there is one.
fn put_content<R: Wait, D: Disk>(
    rt: &R,
    alloc: Global,
    repo: &Repo<D>,
    seat: &mut RepoSeat,
    content: &Option<String>,
) -> Result<(), LoadFault>
    requires place { seat.old.lock ≡ repo.now }
    requires quiet { IsQuiet repo.now.opening }
    ensures seat { seat.new ≡ moved seat.old seat.new }
    ensures answered { Answered repo.now.opening.header seat.old.number seat.old.front (content_asks (option_map string_bytes content.now)) [] result seat.new.front }
{
    match content {
        Some(text) => put(rt, alloc, repo, seat, &Ask::PutContent(text.as_bytes())),
        None => Ok(()),
    }
}

// Stores what one changeset needs, and then it.
fn put_upload<R: Wait, D: Disk>(
    rt: &R,
    alloc: Global,
    repo: &Repo<D>,
    seat: &mut RepoSeat,
    upload: &Upload,
) -> Result<(), LoadFault>
    requires place { seat.old.lock ≡ repo.now }
    requires quiet { IsQuiet repo.now.opening }
    ensures seat { seat.new ≡ moved seat.old seat.new }
    ensures answered { Answered repo.now.opening.header seat.old.number seat.old.front (content_asks (option_map string_bytes upload.now.content) ++ PutChangeset upload.now.encoding.items ∷ []) [] result seat.new.front }
{
    match put_content(rt, alloc, repo, seat, &upload.content) {
        Ok(()) => put(
            rt,
            alloc,
            repo,
            seat,
            &Ask::PutChangeset(upload.encoding.as_slice()),
        ),
        Err(fault) => Err(fault),
    }
}

// The changeset at a place of a stack.
fn put_part<R: Wait, D: Disk>(
    rt: &R,
    alloc: Global,
    repo: &Repo<D>,
    seat: &mut RepoSeat,
    draws: &mut Draws,
    client: u64,
    stack: u64,
    place: u64,
    parent: Id,
) -> Result<Id, LoadFault>
    requires place { seat.old.lock ≡ repo.now }
    requires quiet { IsQuiet repo.now.opening }
    requires client { client < 8 }
    ensures seat { seat.new ≡ moved seat.old seat.new }
    ensures answered { Answered repo.now.opening.header seat.old.number seat.old.front (part_asks client stack place parent (part_of draws.old)) [] result seat.new.front }
    ensures id { IfOk result (λ id. id ≡ id_of (changeset_of client stack place parent (part_of draws.old))) }
    ensures state { OnOk result (draws.new ≡ after_part draws.old) }
{
    let Ok(upload) = next_upload(alloc, draws, client, stack, place, parent) else {
        return Err(LoadFault::Memory);
    };
    match put_upload(rt, alloc, repo, seat, &upload) {
        Ok(()) => Ok(upload.id),
        Err(fault) => Err(fault),
    }
}

// All changesets of a stack. Gives the last one's id.
fn put_parts<R: Wait, D: Disk>(
    rt: &R,
    alloc: Global,
    repo: &Repo<D>,
    seat: &mut RepoSeat,
    draws: &mut Draws,
    client: u64,
    stack: u64,
    parent: Id,
) -> Result<Id, LoadFault>
    requires place { seat.old.lock ≡ repo.now }
    requires quiet { IsQuiet repo.now.opening }
    requires client { client < 8 }
    ensures seat { seat.new ≡ moved seat.old seat.new }
    ensures answered { Answered repo.now.opening.header seat.old.number seat.old.front (parts_on client stack parent draws.old).asks [] result seat.new.front }
    ensures last { IfOk result (λ id. id ≡ (parts_on client stack parent draws.old).last) }
    ensures state { OnOk result (draws.new ≡ (parts_on client stack parent draws.old).state) }
{
    let length = draws.below(3) + 1;
    let mut last = parent;
    for place in 0..length {
        match put_part(rt, alloc, repo, seat, draws, client, stack, place, last) {
            Ok(id) => last = id,
            Err(fault) => return Err(fault),
        }
    }
    Ok(last)
}

/// Uploads a stack on this parent, and lands it. Gives the head that the landing left.
pub(crate) fn land_stack<R: Wait, D: Disk>(
    rt: &R,
    alloc: Global,
    repo: &Repo<D>,
    seat: &mut RepoSeat,
    names: &Names,
    draws: &mut Draws,
    client: u64,
    stack: u64,
    parent: Id,
) -> Result<Id, LoadFault>
    requires place { seat.old.lock ≡ repo.now }
    requires quiet { IsQuiet repo.now.opening }
    requires names { IsNamed names.now }
    requires client { client < 8 }
    ensures seat { seat.new ≡ moved seat.old seat.new }
    ensures answered { Answered repo.now.opening.header seat.old.number seat.old.front (stack_of client stack parent draws.old).asks (heads_given result) result seat.new.front }
    ensures state { OnOk result (draws.new ≡ (stack_of client stack parent draws.old).state) }
{
    match put_parts(rt, alloc, repo, seat, draws, client, stack, parent) {
        Ok(draft) => land(rt, alloc, repo, seat, names, draft),
        Err(fault) => Err(fault),
    }
}
