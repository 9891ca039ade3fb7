//! The lock.
ghost use Rattle.std.specs.Prelude.{◌≡◌, ◌+◌, ◌<◌, ◌≤◌, ◌^◌, Bool, false, [], ◌∷◌, None, Some, All, IfOk, IfErr};
ghost use Rattle.std.specs.Fn.{FnOnceTakesAtMut, FnOnceReturnsAtMut};
ghost use Rattle.history_model.specs.History.{Entry, entries_by, is_down};
ghost use Rattle.bookmark_lock.specs.Place.{lead_place, new_place, joined_place, told_at};
ghost use Rattle.bookmark_lock.specs.Fronts.{IsJoined};
ghost use Rattle.bookmark_lock.specs.Lasting.{AreFew};
ghost use Rattle.bookmark_lock.specs.Leaving.{Lasts};
ghost use Rattle.bookmark_lock.specs.Turns.{MayFind, IsTurn, Entered, stored_length, turn_of};

use crate::Recorded;
use crate::seat::{Seat, seated};
use crate::steps::{
    Home, draw, ended, fork, give, merge, settle, shut, stand_back, take, tell_end, wait_for_end,
};
use atomic_table::{Badge, Refused, Table};
use std::alloc::Global;
use std::cmp::max;
use std::marker::Model;
use std::mem::replace;
use std::snapshot::Snapshot;
use std::sync::Wait;

/// A value that seats take turns with. Contracts see which lock it is, and what the value was opened with.
#[derive(Drop)]
pub struct TurnLock<T: Recorded> {
    table: Home<T>,
}

impl<T: Recorded> Model for TurnLock<T> {
    ghost use Rattle.std.specs.Prelude.{◌≡◌};
    ghost use Rattle.bookmark_lock.specs.Place.{Site};
    ghost use Rattle.bookmark_lock.specs.Seated.{IsBoard};

    ghost Value = { Site };

    ghost view = { λ s. record { table = s.table.shared.table_id; opening = T.opening s.table.shared.key.value } };

    ghost invariant = { λ s. IsBoard s.table.shared.table_id };
}

impl<T: Recorded> TurnLock<T> {
    /// The lock and its first seat, which leads the others. Where memory is refused the value is given back.
    pub fn new(alloc: Global, value: T) -> Result<(TurnLock<T>, Seat), T>
        requires recovered { All (λ (e : Entry). e.who ≡ 0) (T.history value) }
        requires sealed { is_down (T.history value) ≡ false → stored_length (T.history value) ≤ T.sealed value }
        ensures lock { IfOk result (λ made. made.0.opening ≡ T.opening value) }
        ensures lead { IfOk result (λ made. made.1 ≡ lead_place made.0 (T.history value) (T.sealed value) (T.reach value) (T.disk value)) }
        ensures back { IfErr result (λ v. v ≡ value) }
    {
        let Ok(mut slots) = Vec::with_capacity(alloc, 1) else {
            return Err(value);
        };
        let key = Snapshot::of(&value);
        let sealed = value.sealed_count();
        let words = [0, value.length_word(), 1, 0, 0, 0, 0, 0, 0];
        slots.push_reserved(Some(value));
        match Table::new(alloc, &words, slots, &key) {
            Ok((table, inner)) => Ok((
                TurnLock { table },
                Seat {
                    badge: inner.into_badge(),
                    number: 0,
                    split: 0,
                    out: 0,
                    sealed,
                },
            )),
            Err(Refused { slots }) => Err(given_back(slots)),
        }
    }

    /// A new seat, which has seen what the lead has. It takes no memory.
    pub fn split(&self, lead: &mut Seat) -> Seat
        requires place { lead.old.lock ≡ self.now }
        requires leads { lead.old.number ≡ 0 }
        requires room { lead.old.split < 2 ^ 63 }
        ensures lead { lead.new ≡ record lead.old { split = lead.old.split + 1; out = lead.old.out + 1 } }
        ensures seat { result ≡ new_place lead.old }
        ensures above { All (λ (e : Entry). e.who < result.number) result.front }
        ensures unused { entries_by result.number result.front ≡ [] }
    {
        let mut inner = seated(replace(&mut lead.badge, Badge::blank()));
        let number = draw(&self.table.shared, &mut inner);
        let new = fork(&self.table.shared, &mut inner);
        lead.badge = inner.into_badge();
        lead.split += 1;
        lead.out += 1;
        Seat {
            badge: new.into_badge(),
            number,
            split: 0,
            out: 0,
            sealed: lead.sealed,
        }
    }

    /// The lead takes the longer of the two fronts, which the other begins.
    pub fn join(&self, lead: &mut Seat, other: Seat)
        requires place { lead.old.lock ≡ self.now }
        requires other { other.lock ≡ self.now }
        requires leads { lead.old.number ≡ 0 }
        requires sealed { other.unsealed ≡ None }
        ensures lead { lead.new ≡ joined_place lead.old other }
        ensures joined { IsJoined lead.old other lead.new.front }
    {
        let Seat {
            badge,
            number: _,
            split: _,
            out: _,
            sealed,
        } = other;
        let mut inner = seated(replace(&mut lead.badge, Badge::blank()));
        merge(&self.table.shared, &mut inner, seated(badge));
        settle(&self.table.shared, &mut inner);
        lead.badge = inner.into_badge();
        lead.out -= 1;
        lead.sealed = max(lead.sealed, sealed);
    }

    /// One turn: `act` sees the value as it is, and adds at most one entry, of this seat. Says what `act` answers.
    /// A stored entry that isn't sealed by the end of the turn is the seat's to see sealed, in a later turn. So many of its own
    /// may wait as the value says.
    pub fn enter<X, F: FnOnce(&mut T) -> (bool, X), R: Wait>(
        &self,
        rt: &R,
        seat: &mut Seat,
        act: F,
    ) -> X
        requires place { seat.old.lock ≡ self.now }
        requires callable { (value : T) → MayFind T.history T.opening T.sealed T.reach T.disk seat.old value → FnOnceTakesAtMut F.FnOnce act value }
        requires turn { (before after : T) (answer : Bool × X) → MayFind T.history T.opening T.sealed T.reach T.disk seat.old before → FnOnceReturnsAtMut F.FnOnce act before answer after → IsTurn T.history T.opening T.sealed T.reach T.disk T.most seat.old.number seat.old.unsealed before after answer.0 }
        ensures turn { Entered T.history T.opening T.sealed T.reach T.disk F.FnOnce act seat.old seat.new result }
    {
        let mut inner = seated(replace(&mut seat.badge, Badge::blank()));
        let mut value = take(rt, &self.table.shared, &mut inner);
        let (added, answer) = act(&mut value);
        let sealed = value.sealed_count();
        give(&self.table.shared, &mut inner, value, added);
        seat.badge = inner.into_badge();
        seat.sealed = sealed;
        answer
    }

    /// Waits until those who asked for the turn have had theirs, as far as the counts tell: what is done in a turn after
    /// that serves these seats too.
    pub fn stand_behind<R: Wait>(&self, rt: &R, seat: &mut Seat)
        requires place { seat.old.lock ≡ self.now }
        ensures { seat.new ≡ seat.old }
    {
        let mut inner = seated(replace(&mut seat.badge, Badge::blank()));
        stand_back(rt, &self.table.shared, &mut inner);
        seat.badge = inner.into_badge();
    }

    /// How many seals ended, by what `tell_ended` told, modulo 2^64. Who means to wait for the end of one that is under way
    /// reads it before the turn in which it finds that: an end that comes after the turn then makes another number of it.
    pub fn ended(&self) -> u64 {
        ended(&self.table.shared)
    }

    /// Waits until another number of seals ended than `seen`.
    pub fn wait_ended<R: Wait>(&self, rt: &R, seat: &mut Seat, seen: u64)
        requires place { seat.old.lock ≡ self.now }
        ensures { seat.new ≡ seat.old }
    {
        let mut inner = seated(replace(&mut seat.badge, Badge::blank()));
        wait_for_end(rt, &self.table.shared, &mut inner, seen);
        seat.badge = inner.into_badge();
    }

    /// One more seal ended, done or failed. Wakes all that wait for one.
    pub fn tell_ended(&self, seat: &mut Seat)
        requires place { seat.old.lock ≡ self.now }
        ensures { seat.new ≡ seat.old }
    {
        let mut inner = seated(replace(&mut seat.badge, Badge::blank()));
        tell_end(&self.table.shared, &mut inner);
        seat.badge = inner.into_badge();
    }

    /// The value, once the lead has joined every seat that it split off.
    pub fn close(self, lead: Seat) -> T
        requires place { lead.lock ≡ self }
        requires leads { lead.number ≡ 0 }
        requires alone { lead.out ≡ 0 }
        requires sealed { lead.unsealed ≡ None }
        ensures history { T.history result ≡ lead.front }
        ensures opening { T.opening result ≡ self.opening }
        ensures recorded { All (λ (e : Entry). e.who ≤ lead.split) (T.history result) }
        // Nothing waits to be sealed, unless a breaking fault is held.
        ensures sealed { is_down (T.history result) ≡ false → stored_length (T.history result) ≤ T.sealed result }
        // What a seat has seen sealed is sealed, also then.
        ensures told { lead.sealed ≤ T.sealed result }
        // What was told of the disk is so still, and a crash since left no image but such.
        ensures lasts { Lasts self.opening.header (told_at lead) (turn_of T.history T.sealed T.reach T.disk result) }
        // Also once it is down, so few of each seat wait.
        ensures few { AreFew T.most (T.history result) (T.sealed result) }
    {
        let TurnLock { table } = self;
        let Seat {
            badge,
            number: _,
            split: _,
            out: _,
            sealed: _,
        } = lead;
        shut(table, seated(badge))
    }
}

// The value that is alone in these slots.
fn given_back<T>(mut slots: Vec<Option<T>>) -> T
    requires { (value : T) × (slots.items ≡ Some value ∷ []) }
    ensures { slots.items ≡ Some result ∷ [] }
{
    let slot = slots.pop().unwrap();
    slots.destroy_empty();
    slot.unwrap()
}
