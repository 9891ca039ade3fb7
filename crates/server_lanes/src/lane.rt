//! What one thread serves links with.
ghost use Rattle.std.specs.Prelude.{◌≡◌, ◌<◌, ◌≤◌};
ghost use Rattle.std.specs.Bool.{OnFalse};
ghost use Rattle.bookmark_lock.specs.Place.{home_of};
ghost use Rattle.server_lanes.specs.Lanes.{HasRun};

use crate::bounded::Bounded;
use crate::door::Door;
use crate::feeding::Feeding;
use crate::run::Run;
use crate::tally::Tally;
use blob_disk::Disk;
use ports::{Accept, Clock, Gate, Link};
use routes::Routes;
use shared_repo::{RepoSeat, Served};
use std::alloc::Global;
use std::marker::Model;
use std::sync::ledger::Ledger;
use std::sync::{Mutex, Wait};

/// A seat, and how many links were served at it; and what tells derivers of the log.
#[derive(Drop)]
pub(crate) struct Lane<'a, R: Wait, D: Disk, G: Gate, L: Link, K: Run, E: Ledger> {
    seat: Bounded<'a, R, Served<'a, R, D, G>>,
    tally: Tally<L, K, E>,
    feeding: &'a Feeding,
}

impl<'a, R: Wait, D: Disk, G: Gate, L: Link, K: Run, E: Ledger> Model
    for Lane<'a, R, D, G, L, K, E> {
    ghost use Rattle.server_lanes.specs.Lanes.{LaneView};

    ghost Value = { LaneView };

    ghost view = { λ l. record { place = l.seat; tally = l.tally } };
}

impl<'a, R: Wait, D: Disk, G: Gate, L: Link, K: Run, E: Ledger> Lane<'a, R, D, G, L, K, E> {
    /// A lane at this seat.
    pub(crate) fn new(
        seat: Bounded<'a, R, Served<'a, R, D, G>>,
        tally: Tally<L, K, E>,
        feeding: &'a Feeding,
    ) -> Self
        ensures { result ≡ record { place = seat.entry; tally = tally } }
    {
        Lane {
            seat,
            tally,
            feeding,
        }
    }

    // Takes a link of the door and serves it to its end. Says whether there was one.
    fn serve_next<A: Accept<L>, C: Clock>(
        &mut self,
        rt: &R,
        alloc: Global,
        routes: &Routes,
        door: &Mutex<Door<A, L, K, E>>,
        clock: &C,
    ) -> bool
        requires { 0 < self.old.tally.parts }
        ensures home { home_of self.new.place ≡ home_of self.old.place }
        ensures parts { self.new.tally.parts ≡ self.old.tally.parts }
        ensures told { OnFalse result (0 < self.new.tally.told) }
        ensures seen { self.old.tally.sealed ≤ self.old.place.sealed → self.new.tally.sealed ≤ self.new.place.sealed }
    {
        self.tally
            .serve_next(rt, alloc, routes, door, &mut self.seat, clock)
    }

    // Tells the derivers, if there are any, the heads of the bookmarks, unless another lane did or does.
    fn tell_heads(&mut self, rt: &R, alloc: Global)
        ensures home { home_of self.new.place ≡ home_of self.old.place }
        ensures seals { self.old.place.sealed ≤ self.new.place.sealed }
        ensures tally { self.new.tally ≡ self.old.tally }
    {
        self.feeding.tell_heads(rt, alloc, &mut self.seat);
    }

    // Tells the derivers, if there are any, what the log has since the last time, unless another lane does.
    fn feed_derivers(&mut self, rt: &R, alloc: Global)
        ensures home { home_of self.new.place ≡ home_of self.old.place }
        ensures seals { self.old.place.sealed ≤ self.new.place.sealed }
        ensures tally { self.new.tally ≡ self.old.tally }
    {
        self.feeding.read_pages(rt, alloc, &mut self.seat);
    }

    // Tells them nothing more. They go on until no lane does.
    fn end_feed(&mut self, rt: &R, alloc: Global)
        ensures home { home_of self.new.place ≡ home_of self.old.place }
        ensures seals { self.old.place.sealed ≤ self.new.place.sealed }
        ensures tally { self.new.tally ≡ self.old.tally }
    {
        self.feeding.end_lane(rt, alloc, &mut self.seat);
    }

    /// Its seat, and its tally.
    pub(crate) fn into_parts(self) -> (RepoSeat, Tally<L, K, E>)
        ensures seat { result.0 ≡ self.entry.place }
        ensures tally { result.1 ≡ self.entry.tally }
    {
        (self.seat.into_seat().into_seat(), self.tally)
    }
}

/// The lane takes links of the door, one after another, and serves each to its end, however that is,
/// until no more will come. Before the first it tells the derivers the heads of the bookmarks, if that is left to it, and
/// after each what the log has since.
pub(crate) fn serve_links<
    R: Wait,
    D: Disk,
    G: Gate,
    L: Link,
    K: Run,
    E: Ledger,
    A: Accept<L>,
    C: Clock,
>(
    rt: &R,
    alloc: Global,
    routes: &Routes,
    door: &Mutex<Door<A, L, K, E>>,
    lane: &mut Lane<'_, R, D, G, L, K, E>,
    clock: &C,
)
    requires { 0 < lane.old.tally.parts }
    ensures { HasRun lane.old lane.new }
{
    lane.tell_heads(rt, alloc);
    for _ in rt.forever() {
        let served = lane.serve_next(rt, alloc, routes, door, clock);
        if !served {
            lane.end_feed(rt, alloc);
            return;
        }
        lane.feed_derivers(rt, alloc);
    }
    unreachable!()
}
