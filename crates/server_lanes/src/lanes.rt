//! All lanes of a server: from the first seat split off to the last one joined.
ghost use Rattle.std.specs.Prelude.{◌≡◌, ◌+◌, ◌<◌, ◌≤◌, ◌^◌, [], All, vec_capacity, vec_len};
ghost use Rattle.bookmark_lock.specs.Place.{Site};
ghost use Rattle.server_lanes.specs.Lanes.{IsAt, IsDone, TakesBack};

use crate::bounded::Bounded;
use crate::commons::Commons;
use crate::door::Door;
use crate::lane::Lane;
use crate::run::Run;
use crate::tally::Tally;
use blob_disk::Disk;
use ports::{Accept, Gate, Link};
use shared_repo::{Repo, RepoSeat, Served};
use std::sync::Wait;
use std::sync::ledger::Ledger;

/// So many lanes, each at a seat of its own, in the room that was made for them. It takes no memory.
pub(crate) fn split_lanes<'a, R: Wait, D: Disk, G: Gate, L: Link, K: Run, E: Ledger>(
    rt: &'a R,
    made: Vec<Lane<'a, R, D, G, L, K, E>>,
    commons: &'a Commons,
    repo: &'a Repo<D>,
    gate: &'a G,
    lead: &mut RepoSeat,
    tally: &mut Tally<L, K, E>,
    lanes: u64,
) -> Vec<Lane<'a, R, D, G, L, K, E>>
    requires place { lead.old.lock ≡ repo.now }
    requires leads { lead.old.number ≡ 0 }
    requires room { lead.old.split + lanes ≤ 2 ^ 63 }
    requires empty { made.items ≡ [] }
    requires made { lanes ≤ vec_capacity made }
    requires tally { tally.old ≡ record { parts = lanes; served = 0; sealed = 0; told = 0 } }
    ensures lead { lead.new ≡ record lead.old { split = lead.old.split + lanes; out = lead.old.out + lanes } }
    ensures tally { tally.new ≡ record { parts = 0; served = 0; sealed = 0; told = 0 } }
    ensures count { vec_len result ≡ lanes }
    ensures lanes { All (IsAt repo.now) result.items }
{
    let mut made = made;
    for _ in 0..lanes {
        let served = Served::new(rt, repo, repo.split(lead), gate);
        let seat = Bounded::new(rt, &commons.bounds, served);
        made.push_reserved(Lane::new(seat, tally.split_off(), &commons.feeding));
    }
    made
}

// The lead joins the seat of one lane.
fn join_one<R: Wait, D: Disk, G: Gate, A: Accept<L>, L: Link, K: Run, E: Ledger>(
    repo: &Repo<D>,
    lead: &mut RepoSeat,
    lane: Lane<'_, R, D, G, L, K, E>,
    door: &mut Door<A, L, K, E>,
    tally: Tally<L, K, E>,
) -> Tally<L, K, E>
    requires place { lead.old.lock ≡ repo.now }
    requires leads { lead.old.number ≡ 0 }
    requires lane { IsDone repo.now lane }
    requires seen { tally.sealed ≤ lead.old.sealed }
    ensures lead { TakesBack lead.old 1 lead.new }
    ensures seen { result.sealed ≤ lead.new.sealed }
    ensures parts { result.parts ≡ tally.parts + 1 }
    ensures told { tally.told < result.told }
{
    let (seat, theirs) = lane.into_parts();
    repo.join(lead, seat);
    tally.merge(theirs, door)
}

/// The lead joins the seat of every lane, and one tally has what all have served. What their sessions saw sealed, the lead has
/// seen sealed.
pub(crate) fn join_lanes<R: Wait, D: Disk, G: Gate, A: Accept<L>, L: Link, K: Run, E: Ledger>(
    repo: &Repo<D>,
    lead: &mut RepoSeat,
    lanes: Vec<Lane<'_, R, D, G, L, K, E>>,
    door: &mut Door<A, L, K, E>,
    rest: Tally<L, K, E>,
) -> Tally<L, K, E>
    requires place { lead.old.lock ≡ repo.now }
    requires leads { lead.old.number ≡ 0 }
    requires lanes { All (IsDone repo.now) lanes.items }
    requires seen { rest.sealed ≤ lead.old.sealed }
    ensures lead { TakesBack lead.old (vec_len lanes.entry) lead.new }
    ensures seen { result.sealed ≤ lead.new.sealed }
    ensures parts { result.parts ≡ rest.parts + vec_len lanes.entry }
    ensures told { vec_len lanes.entry ≤ result.told }
{
    let mut tally = rest;
    for lane in lanes {
        tally = join_one(repo, lead, lane, door, tally);
    }
    tally
}
