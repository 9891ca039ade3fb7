//! How many links were served, with the shares of ledgers that say the same.
ghost use Rattle.std.specs.Prelude.{◌≡◌, max, ◌+◌, ◌<◌, ◌≤◌, ◌^◌, is_some, if◌then◌else◌, ◌-◌};
ghost use Rattle.server_lanes.specs.Serving.{Gave, IsThrough};

use crate::door::Door;
use crate::run::Run;
use http_front::connection::{ServedLinks, serve_link};
use ports::{Accept, Clock, Link};
use routes::Routes;
use stacked_calls::StackSeat;
use std::alloc::Global;
use std::marker::Model;
use std::sync::ledger::{Ledger, Share};
use std::sync::{Mutex, Wait};

/// The links that one lane has served, or several have, with how many stored entries their sessions saw sealed. The one ledger counts links as they are given,
/// the other how often it was told that no more will come.
#[derive(Drop)]
pub(crate) struct Tally<L: Link, K: Run, E: Ledger> {
    served: ServedLinks<L>,
    links: Share<K>,
    told: Share<E>,
}

impl<L: Link, K: Run, E: Ledger> Model for Tally<L, K, E> {
    ghost use Rattle.std.specs.Prelude.{◌≡◌};
    ghost use Rattle.server_lanes.specs.Lanes.{TallyView};

    ghost Value = { TallyView };

    ghost view = { λ t. record { parts = t.links.parts; served = t.served.count; sealed = t.served.sealed; told = t.told.amount } };

    ghost invariant = { λ t. (t.served.count ≡ t.links.amount) × (t.told.parts ≡ t.links.parts) };
}

// The next link of the door. The lock is free again when this returns.
fn next_link<R: Wait, A: Accept<L>, L, K: Run, E: Ledger>(
    rt: &R,
    door: &Mutex<Door<A, L, K, E>>,
    links: &mut Share<K>,
    told: &mut Share<E>,
) -> Option<L>
    requires links { 0 < links.old.parts }
    requires told { 0 < told.old.parts }
    ensures links { links.new.amount ≡ (if is_some result then links.old.amount + 1 else links.old.amount) }
    ensures bound { links.new.amount < 2 ^ 64 }
    ensures told { told.new.amount ≡ (if is_some result then told.old.amount else told.old.amount + 1) }
    ensures parts { (links.new.parts ≡ links.old.parts) × (told.new.parts ≡ told.old.parts) }
{
    door.lock(rt).take(links, told)
}

impl<L: Link, K: Run, E: Ledger> Tally<L, K, E> {
    /// None was served yet.
    pub(crate) fn new(links: Share<K>, told: Share<E>) -> Self
        requires none { links.amount ≡ 0 }
        requires parts { told.parts ≡ links.parts }
        ensures { result ≡ record { parts = links.parts; served = 0; sealed = 0; told = told.amount } }
    {
        Tally {
            served: ServedLinks::new(),
            links,
            told,
        }
    }

    /// One part of it, for a lane.
    pub(crate) fn split_off(&mut self) -> Self
        requires parts { 0 < self.old.parts }
        requires none { (self.old.served ≡ 0) × (self.old.told ≡ 0) }
        ensures part { result ≡ record { parts = 1; served = 0; sealed = 0; told = 0 } }
        ensures rest { self.new ≡ record self.old { parts = self.old.parts - 1 } }
    {
        Tally::new(self.links.split_off(1, 0), self.told.split_off(1, 0))
    }

    /// Takes a link of the door, serves it at this seat to its end and counts it; or is told that no more will come.
    pub(crate) fn serve_next<R: Wait, A: Accept<L>, T: StackSeat, C: Clock>(
        &mut self,
        rt: &R,
        alloc: Global,
        routes: &Routes,
        door: &Mutex<Door<A, L, K, E>>,
        seat: &mut T,
        clock: &C,
    ) -> bool
        requires { 0 < self.old.parts }
        ensures parts { self.new.parts ≡ self.old.parts }
        ensures served { self.new.served ≡ (if result then self.old.served + 1 else self.old.served) }
        ensures sealed { self.new.sealed ≡ (if result then max self.old.sealed (T.sealed seat.new) else self.old.sealed) }
        ensures told { self.new.told ≡ (if result then self.old.told else self.old.told + 1) }
        ensures seals { T.sealed seat.old ≤ T.sealed seat.new }
        ensures home { T.home seat.new ≡ T.home seat.old }
    {
        let Tally {
            served,
            links,
            told,
        } = self;
        let Some(link) = next_link(rt, door, links, told) else {
            return false;
        };
        served.add(serve_link(alloc, routes, seat, link, clock));
        true
    }

    /// What both have served, as this door gave it.
    pub(crate) fn merge<A: Accept<L>>(self, other: Self, door: &mut Door<A, L, K, E>) -> Self
        ensures { result ≡ record { parts = self.parts + other.parts; served = self.served + other.served; sealed = max self.sealed other.sealed; told = self.told + other.told } }
    {
        let Tally {
            served,
            mut links,
            mut told,
        } = self;
        links.merge(other.links);
        door.bound(&mut links);
        told.merge(other.told);
        Tally {
            served: served.merge(other.served),
            links,
            told,
        }
    }

    /// The accept, and how many links were served, once all lanes' tallies are merged.
    pub(crate) fn close<A: Accept<L>>(self, door: Door<A, L, K, E>) -> (A, ServedLinks<L>)
        requires whole { self.parts ≡ K.parts }
        requires told { 0 < self.told }
        ensures gave { Gave result.1.count K.given (A.given result.0) }
        ensures sealed { result.1.sealed ≡ self.sealed }
        ensures few { result.1.count ≤ K.connections }
        ensures through { IsThrough result.1.count K.connections (A.over result.0) K.faults (A.faults result.0) }
        ensures faults { K.faults ≤ A.faults result.0 }
    {
        let Tally {
            served,
            mut links,
            mut told,
        } = self;
        (door.close(&mut links, &mut told), served)
    }
}
