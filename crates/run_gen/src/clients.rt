//! One client of a load.
ghost use Rattle.std.specs.Prelude.{◌≡◌, ◌+◌, ◌<◌, ◌^◌};
ghost use Rattle.bookmark_lock.specs.Place.{moved};
ghost use Rattle.repo_state.specs.State.{IsQuiet};
ghost use Rattle.run_gen.specs.Clients.{Ran};
ghost use Rattle.run_gen.specs.Naming.{IsNamed};

use crate::names::Names;
use crate::stack::land_stack;
use crate::{Draws, LoadFault, base_encoding};
use blob_disk::Disk;
use object_id::Id;
use shared_repo::{Repo, RepoSeat};
use std::alloc::Global;
use std::sync::Wait;

// Lands the stacks, one after another.
fn land_all<R: Wait, D: Disk>(
    rt: &R,
    alloc: Global,
    repo: &Repo<D>,
    seat: &mut RepoSeat,
    names: &Names,
    number: u64,
    seed: u64,
    stacks: u64,
) -> Result<(), LoadFault>
    requires place { seat.old.lock ≡ repo.now }
    requires quiet { IsQuiet repo.now.opening }
    requires names { IsNamed names.now }
    requires number { number < 8 }
    requires seed { seed + number < 2 ^ 64 }
    requires stacks { 0 < stacks }
    ensures seat { seat.new ≡ moved seat.old seat.new }
    ensures ran { Ran repo.now.opening.header seat.old.number seat.old.front number seed stacks result seat.new.front }
{
    let mut draws = Draws::new(seed + number);
    let mut parent = Id::of(&base_encoding());
    for stack in 0..stacks {
        match land_stack(
            rt, alloc, repo, seat, names, &mut draws, number, stack, parent,
        ) {
            Ok(head) => parent = head,
            Err(fault) => return Err(fault),
        }
    }
    Ok(())
}

/// Lands so many stacks at this seat, each on the head that the one before left. What they are
/// follows from the client's number and the seed, and the answers to its landings.
///
/// # Errors
/// `Refused` where the repository refuses a call, and then no further call is made.
pub fn client<R: Wait, D: Disk>(
    rt: &R,
    alloc: Global,
    repo: &Repo<D>,
    seat: &mut RepoSeat,
    number: u64,
    seed: u64,
    stacks: u64,
) -> Result<(), LoadFault>
    requires place { seat.old.lock ≡ repo.now }
    requires quiet { IsQuiet repo.now.opening }
    requires number { number < 8 }
    requires seed { seed + number < 2 ^ 64 }
    requires stacks { 0 < stacks }
    ensures seat { seat.new ≡ moved seat.old seat.new }
    ensures ran { Ran repo.now.opening.header seat.old.number seat.old.front number seed stacks result seat.new.front }
{
    let Ok(names) = Names::new(alloc) else {
        return Err(LoadFault::Memory);
    };
    land_all(rt, alloc, repo, seat, &names, number, seed, stacks)
}
