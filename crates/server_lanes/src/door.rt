//! Where lanes take their links from.
ghost use Rattle.std.specs.Prelude.{◌≡◌, ◌+◌, ◌<◌, ◌≤◌, ◌^◌, true, false, IfNone, OnSome, is_some, if◌then◌else◌};
ghost use Rattle.ports.specs.Faults.{Rose};
ghost use Rattle.ports.specs.Memory.{raised};
ghost use Rattle.server_lanes.specs.Serving.{Gave, IsThrough};

use crate::run::Run;
use ports::{Accept, Failed};
use std::marker::{Model, PhantomData};
use std::sync::ledger::{Book, Ledger, Share};

/// The accept of a run, how many links it gave and may give, and whether it is through: as many were
/// given, the accept is over, or a call of it failed. The one ledger counts the links, the other how
/// often a lane was told that the door is through.
#[derive(Drop)]
pub(crate) struct Door<A: Accept<L>, L, K: Run, E: Ledger> {
    accept: A,
    connections: u64,
    given: u64,
    through: bool,
    links: Book<K>,
    ends: Book<E>,
    of: PhantomData<L>,
}

impl<A: Accept<L>, L, K: Run, E: Ledger> Model for Door<A, L, K, E> {
    ghost use Rattle.server_lanes.specs.Rules.{DoorView, IsKept};

    ghost Value = { DoorView A };

    ghost view = { λ d. record { accept = d.accept; connections = d.connections; given = d.given; through = d.through; told = d.ends.total } };

    ghost invariant = { λ d. IsKept K.connections K.given K.faults d.connections d.given d.through d.ends.total d.links.total (A.given d.accept) (A.over d.accept) (A.faults d.accept) };
}

impl<A: Accept<L>, L, K: Run, E: Ledger> Door<A, L, K, E> {
    /// The door of a run that begins.
    pub(crate) fn new(accept: A, connections: u64, links: Book<K>, ends: Book<E>) -> Self
        requires connections { connections ≡ K.connections }
        requires given { A.given accept ≡ K.given }
        requires faults { A.faults accept ≡ K.faults }
        requires links { links.total ≡ 0 }
        requires ends { ends.total ≡ 0 }
        ensures { result.accept ≡ accept }
    {
        Door {
            accept,
            connections,
            given: 0,
            through: connections == 0,
            links,
            ends,
            of: PhantomData,
        }
    }

    /// The next link, or `None` where the door is through. The one share counts the link, the other
    /// that there was none.
    pub(crate) fn take(&mut self, mine: &mut Share<K>, told: &mut Share<E>) -> Option<L>
        requires mine { 0 < mine.old.parts }
        requires told { 0 < told.old.parts }
        ensures links { mine.new.amount ≡ (if is_some result then mine.old.amount + 1 else mine.old.amount) }
        ensures bound { mine.new.amount < 2 ^ 64 }
        ensures told { told.new.amount ≡ (if is_some result then told.old.amount else told.old.amount + 1) }
        ensures parts { (mine.new.parts ≡ mine.old.parts) × (told.new.parts ≡ told.old.parts) }
        ensures connections { self.new.connections ≡ self.old.connections }
        ensures given { self.new.given ≡ (if is_some result then self.old.given + 1 else self.old.given) }
        ensures accept { A.given self.new.accept ≡ (if is_some result then raised (A.given self.old.accept) else A.given self.old.accept) }
        ensures open { OnSome result (self.old.through ≡ false) }
        ensures shut { self.old.through ≡ true → self.new.accept ≡ self.old.accept }
        ensures none { IfNone result (self.new.through ≡ true) }
        ensures cause { IfNone result (IsThrough self.new.given self.new.connections (A.over self.new.accept) K.faults (A.faults self.new.accept)) }
    {
        let link = if self.through { None } else { self.ask(mine) };
        if link.is_none() {
            self.ends.add(told, 1);
        }
        self.links.audit(mine);
        link
    }

    // Asks the accept for a link, where one may still be given.
    fn ask(&mut self, mine: &mut Share<K>) -> Option<L>
        requires open { self.old.through ≡ false }
        requires mine { 0 < mine.old.parts }
        ensures links { mine.new.amount ≡ (if is_some result then mine.old.amount + 1 else mine.old.amount) }
        ensures parts { mine.new.parts ≡ mine.old.parts }
        ensures connections { self.new.connections ≡ self.old.connections }
        ensures told { self.new.told ≡ self.old.told }
        ensures given { self.new.given ≡ (if is_some result then self.old.given + 1 else self.old.given) }
        ensures accept { A.given self.new.accept ≡ (if is_some result then raised (A.given self.old.accept) else A.given self.old.accept) }
        ensures none { IfNone result (self.new.through ≡ true) }
    {
        match self.accept.next() {
            Ok(Some(link)) => {
                self.given += 1;
                self.through = self.given == self.connections;
                self.links.add(mine, 1);
                Some(link)
            }
            Ok(None) | Err(Failed) => {
                self.through = true;
                None
            }
        }
    }

    /// No more was counted than was given.
    pub(crate) fn bound(&mut self, counted: &mut Share<K>)
        ensures same { (counted.new.amount ≡ counted.old.amount) × (counted.new.parts ≡ counted.old.parts) }
        ensures door { self.new ≡ self.old }
        ensures bound { counted.new.amount < 2 ^ 64 }
    {
        self.links.audit(counted);
    }

    /// The accept, where the one share has counted all links, and the other that the door is through.
    pub(crate) fn close(self, links: &mut Share<K>, told: &mut Share<E>) -> A
        requires links { links.old.parts ≡ K.parts }
        requires told { 0 < told.old.amount }
        ensures gave { Gave links.old.amount K.given (A.given result) }
        ensures few { links.old.amount ≤ K.connections }
        ensures through { IsThrough links.old.amount K.connections (A.over result) K.faults (A.faults result) }
        ensures faults { K.faults ≤ A.faults result }
    {
        let mut door = self;
        door.links.audit(links);
        door.ends.audit(told);
        door.accept
    }
}
