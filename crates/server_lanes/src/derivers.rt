//! All derivers of a server: from the first seat split off to the last one joined.
ghost use Rattle.std.specs.Prelude.{◌≡◌, ◌+◌, ◌≤◌, ◌^◌, [], All, vec_capacity, vec_len};
ghost use Rattle.bookmark_lock.specs.Place.{Place};
ghost use Rattle.server_lanes.specs.Lanes.{TakesBack};
ghost use Rattle.server_lanes.specs.Derivers.{AreNumbered, HasDerived, HasNone, HaveNone, IsIdle};

use crate::deriving_seat::DerivingSeat;
use blob_disk::Disk;
use derive_pool::{IdsFrom, derive_ids};
use shared_repo::{Repo, RepoSeat};
use std::alloc::Global;
use std::marker::Model;
use std::sync::Wait;

/// What one thread derives with: a seat, and where the ids come from. Contracts see its place.
#[derive(Drop)]
pub(crate) struct Deriver<'a, R: Wait, D: Disk> {
    seat: DerivingSeat<'a, R, D>,
    ids: IdsFrom,
}

impl<'a, R: Wait, D: Disk> Model for Deriver<'a, R, D> {
    ghost use Rattle.bookmark_lock.specs.Place.{Place};

    ghost Value = { Place };

    ghost view = { λ d. d.seat };
}

impl<'a, R: Wait, D: Disk> Deriver<'a, R, D> {
    // A deriver at this seat.
    fn new(seat: DerivingSeat<'a, R, D>, ids: IdsFrom) -> Self
        ensures { result ≡ seat.entry }
    {
        Deriver { seat, ids }
    }

    /// Derives for each id that comes, until each lane has ended and none waits any more.
    pub(crate) fn derive_all(&mut self, rt: &R, alloc: Global)
        ensures { HasDerived self.old self.new }
    {
        let Deriver { seat, ids } = self;
        derive_ids(rt, alloc, seat, ids);
    }

    // Its seat.
    fn into_seat(self) -> RepoSeat
        ensures { result ≡ self.entry }
    {
        self.seat.into_seat()
    }
}

/// So many derivers, each at a seat of its own, in the room that was made for them, and each with one of the ends where ids come
/// out. It takes no memory.
pub(crate) fn split_derivers<'a, R: Wait, D: Disk>(
    rt: &'a R,
    made: Vec<Deriver<'a, R, D>>,
    ends: Vec<IdsFrom>,
    repo: &'a Repo<D>,
    lead: &mut RepoSeat,
    derivers: u64,
) -> Vec<Deriver<'a, R, D>>
    requires place { lead.old.lock ≡ repo.now }
    requires leads { lead.old.number ≡ 0 }
    requires room { lead.old.split + derivers ≤ 2 ^ 63 }
    requires empty { made.items ≡ [] }
    requires made { derivers ≤ vec_capacity made }
    requires ends { vec_len ends ≡ derivers }
    ensures lead { lead.new ≡ record lead.old { split = lead.old.split + derivers; out = lead.old.out + derivers } }
    ensures count { vec_len result ≡ derivers }
    ensures idle { All (IsIdle repo.now) result.items }
    ensures numbers { AreNumbered (lead.old.split + 1) result.items }
{
    let mut made = made;
    let mut ends = ends;
    for _ in 0..derivers {
        let Some(ids) = ends.pop() else {
            unreachable!()
        };
        let seat = DerivingSeat::new(rt, repo, repo.split(lead));
        made.push_reserved(Deriver::new(seat, ids));
    }
    made
}

// The lead joins the seat of one deriver.
fn join_deriver<R: Wait, D: Disk>(repo: &Repo<D>, lead: &mut RepoSeat, deriver: Deriver<'_, R, D>)
    requires place { lead.old.lock ≡ repo.now }
    requires leads { lead.old.number ≡ 0 }
    requires deriver { IsIdle repo.now deriver }
    ensures lead { TakesBack lead.old 1 lead.new }
    ensures none { HasNone lead.new deriver.entry }
    ensures kept { (earlier : Place) → HasNone lead.old earlier → HasNone lead.new earlier }
{
    repo.join(lead, deriver.into_seat());
}

/// The lead joins the seat of every deriver. None of them has made an entry.
pub(crate) fn join_derivers<R: Wait, D: Disk>(
    repo: &Repo<D>,
    lead: &mut RepoSeat,
    derivers: Vec<Deriver<'_, R, D>>,
)
    requires place { lead.old.lock ≡ repo.now }
    requires leads { lead.old.number ≡ 0 }
    requires derivers { All (IsIdle repo.now) derivers.items }
    ensures lead { TakesBack lead.old (vec_len derivers.entry) lead.new }
    ensures none { HaveNone lead.new derivers.entry.items }
{
    for deriver in derivers {
        join_deriver(repo, lead, deriver);
    }
}
