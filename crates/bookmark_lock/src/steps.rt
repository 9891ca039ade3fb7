//! The steps of a turn, and those of the lead.
ghost use Rattle.std.specs.Prelude.{◌≡◌, ◌+◌, ◌<◌, ◌^◌, ◌≤◌, false, true, None, Some, [], ◌∷◌, All, MatchBool, MatchOption, if◌then◌else◌};
ghost use Rattle.history_model.specs.History.{Entry};
ghost use Rattle.bookmark_lock.specs.Fronts.{HasJoined};
ghost use Rattle.bookmark_lock.specs.Members.{Meeting, seen, drawing, forking, fork_of, merging, settling};
ghost use Rattle.bookmark_lock.specs.Turns.{Finds, Ended, sight_after, turn_of};
ghost use Rattle.bookmark_lock.specs.Rule.{Took, Gives, view_of};
ghost use Rattle.bookmark_lock.specs.Turning.{log_of};
ghost use Rattle.bookmark_lock.specs.Seated.{IsIdle, IsBoard};

use crate::Recorded;
use crate::plays::{Count, Draw, Fork, Free, Merge, Pass, Settle, Take, Turns};
use crate::seat::Inner;
use crate::view::View;
use atomic_table::{Shared, Table};
use std::alloc::Global;
use std::snapshot::Snapshot;
use std::sync::Wait;

pub(crate) type Home<T> = Table<Option<T>, View, Snapshot<T>, Turns<T>, Global>;

pub(crate) type Board<T> = Shared<Option<T>, View, Snapshot<T>, Turns<T>>;

const TURN: usize = 0;

const COUNT: usize = 1;

const NEXT: usize = 2;

// How many turns were asked for, and how many were had.
const ASKED: usize = 3;

const HAD: usize = 4;

// How many seats wait for the turn, and how many stand back.
const WAITING: usize = 5;

const BEHIND: usize = 6;

// How many seals ended, and how many seats wait for the end of one.
const ENDED: usize = 7;

const AWAITING: usize = 8;

// One try for the turn.
fn try_take<T: Recorded>(board: &Board<T>, seat: &mut Inner<T>) -> bool
    requires place { (seat.old.table_id ≡ board.now.table_id) × IsBoard board.now.table_id }
    requires idle { IsIdle seat.old.me }
    ensures place { seat.new.table_id ≡ seat.old.table_id }
    ensures seat { MatchBool result (Took T.history T.opening T.sealed T.reach T.disk seat.old.me seat.new.me) (seat.new.me ≡ seat.old.me) }
{
    board.compare_exchange::<Take<T>>(seat, TURN, 0, 1) == 0
}

// Asks for the turn, waits for it, and takes the value out of its slot.
pub(crate) fn take<T: Recorded, R: Wait>(rt: &R, board: &Board<T>, seat: &mut Inner<T>) -> T
    requires place { (seat.old.table_id ≡ board.now.table_id) × IsBoard board.now.table_id }
    requires idle { IsIdle seat.old.me }
    ensures place { seat.new.table_id ≡ seat.old.table_id }
    ensures value { Finds T.history T.opening T.sealed T.reach T.disk seat.old.me.0.member.post result }
    ensures seat { seat.new.me ≡ (view_of seat.old.me.0.member (Some (turn_of T.history T.sealed T.reach T.disk result)), (0, None) ∷ []) }
{
    count_up(board, seat, ASKED);
    take_turn(rt, board, seat);
    board.exchange(seat, 0, None).unwrap()
}

// Takes the turn, for which it waits where another seat has it.
fn take_turn<T: Recorded, R: Wait>(rt: &R, board: &Board<T>, seat: &mut Inner<T>)
    requires place { (seat.old.table_id ≡ board.now.table_id) × IsBoard board.now.table_id }
    requires idle { IsIdle seat.old.me }
    ensures place { seat.new.table_id ≡ seat.old.table_id }
    ensures seat { Took T.history T.opening T.sealed T.reach T.disk seat.old.me seat.new.me }
{
    if try_take(board, seat) {
        return;
    }
    wait(rt, board, seat)
}

// Waits for the turn, and takes it. The seat is counted before each try, and who frees the turn reads the count after that:
// a try that came too early for the free has been counted.
fn wait<T: Recorded, R: Wait>(rt: &R, board: &Board<T>, seat: &mut Inner<T>)
    requires place { (seat.old.table_id ≡ board.now.table_id) × IsBoard board.now.table_id }
    requires idle { IsIdle seat.old.me }
    ensures place { seat.new.table_id ≡ seat.old.table_id }
    ensures seat { Took T.history T.opening T.sealed T.reach T.disk seat.old.me seat.new.me }
{
    count_up(board, seat, WAITING);
    for _ in rt.forever() {
        if try_take(board, seat) {
            count_down(board, seat, WAITING);
            return;
        }
        board.park(rt, TURN, 1);
    }
    unreachable!()
}

// One more of a count of which the rule says nothing.
fn count_up<T: Recorded>(board: &Board<T>, seat: &mut Inner<T>, word: usize)
    requires place { (seat.old.table_id ≡ board.now.table_id) × IsBoard board.now.table_id }
    requires counts { (3 ≤ word) × (word < 9) }
    requires lives { seat.old.me.0.member.spent ≡ false }
    ensures place { seat.new.table_id ≡ seat.old.table_id }
    ensures seat { seat.new.me ≡ seat.old.me }
{
    board.fetch_add::<Pass>(seat, word, 1);
}

// One less of such a count.
fn count_down<T: Recorded>(board: &Board<T>, seat: &mut Inner<T>, word: usize)
    requires place { (seat.old.table_id ≡ board.now.table_id) × IsBoard board.now.table_id }
    requires counts { (3 ≤ word) × (word < 9) }
    requires lives { seat.old.me.0.member.spent ≡ false }
    ensures place { seat.new.table_id ≡ seat.old.table_id }
    ensures seat { seat.new.me ≡ seat.old.me }
{
    board.fetch_sub::<Pass>(seat, word, 1);
}

// Waits until as many turns were had as are asked for now, so that those who wait have theirs first.
pub(crate) fn stand_back<T: Recorded, R: Wait>(rt: &R, board: &Board<T>, seat: &mut Inner<T>)
    requires place { (seat.old.table_id ≡ board.now.table_id) × IsBoard board.now.table_id }
    requires lives { seat.old.me.0.member.spent ≡ false }
    ensures place { seat.new.table_id ≡ seat.old.table_id }
    ensures seat { seat.new.me ≡ seat.old.me }
{
    let asked = board.peek(ASKED);
    if board.peek(HAD) >= asked {
        return;
    }
    count_up(board, seat, BEHIND);
    wait_until_had(rt, board, asked);
    count_down(board, seat, BEHIND);
}

// Waits until so many turns were had. The seat is counted before it reads how many, and who had a turn reads the count after
// that.
fn wait_until_had<T: Recorded, R: Wait>(rt: &R, board: &Board<T>, asked: u64)
    requires { IsBoard board.now.table_id }
{
    for _ in rt.forever() {
        let had = board.peek(HAD);
        if had >= asked {
            return;
        }
        board.park(rt, HAD, (had % (1 << 32)) as u32);
    }
}

/// How many seals ended, as far as was told.
pub(crate) fn ended<T: Recorded>(board: &Board<T>) -> u64
    requires { IsBoard board.now.table_id }
{
    board.peek(ENDED)
}

// Waits until another number of seals ended than this one.
pub(crate) fn wait_for_end<T: Recorded, R: Wait>(
    rt: &R,
    board: &Board<T>,
    seat: &mut Inner<T>,
    seen: u64,
)
    requires place { (seat.old.table_id ≡ board.now.table_id) × IsBoard board.now.table_id }
    requires lives { seat.old.me.0.member.spent ≡ false }
    ensures place { seat.new.table_id ≡ seat.old.table_id }
    ensures seat { seat.new.me ≡ seat.old.me }
{
    count_up(board, seat, AWAITING);
    wait_past(rt, board, seen);
    count_down(board, seat, AWAITING);
}

// No end is missed. The seat is counted before it reads how many ended, and who tells of an end adds to that number before
// it reads the count: where it finds nobody, the seat reads the new number and doesn't park. A seat that parks on the old
// number isn't parked where the number changed meanwhile, and is woken where it changes later.
fn wait_past<T: Recorded, R: Wait>(rt: &R, board: &Board<T>, seen: u64)
    requires { IsBoard board.now.table_id }
{
    for _ in rt.forever() {
        if board.peek(ENDED) != seen {
            return;
        }
        board.park(rt, ENDED, (seen % (1 << 32)) as u32);
    }
}

// One more seal ended, of which all are told that wait for one.
pub(crate) fn tell_end<T: Recorded>(board: &Board<T>, seat: &mut Inner<T>)
    requires place { (seat.old.table_id ≡ board.now.table_id) × IsBoard board.now.table_id }
    requires lives { seat.old.me.0.member.spent ≡ false }
    ensures place { seat.new.table_id ≡ seat.old.table_id }
    ensures seat { seat.new.me ≡ seat.old.me }
{
    count_up(board, seat, ENDED);
    if board.peek(AWAITING) != 0 {
        board.wake_all(ENDED);
    }
}

fn step_of(added: bool) -> u64
    ensures { result ≡ (if added then 1 else 0) }
{
    if added { 1 } else { 0 }
}

// The value goes home, the entry is counted, the turn is free, and those who stand back are told of it.
pub(crate) fn give<T: Recorded>(board: &Board<T>, seat: &mut Inner<T>, value: T, added: bool)
    requires place { (seat.old.table_id ≡ board.now.table_id) × IsBoard board.now.table_id }
    requires lives { seat.old.me.0.member.spent ≡ false }
    requires turn { Gives T.history T.opening T.sealed T.reach T.disk T.most seat.old.me value added }
    ensures place { seat.new.table_id ≡ seat.old.table_id }
    ensures seat { seat.new.me ≡ (view_of (seen seat.old.me.0.member (sight_after T.history T.opening T.sealed T.reach T.disk seat.old.me.0.member.post.unsealed (log_of seat.old.me.0.turn) value)) None, []) }
{
    put_back(board, seat, value, added);
    count_up(board, seat, HAD);
    if board.peek(BEHIND) != 0 {
        board.wake_all(HAD);
    }
}

// The value goes home, the entry is counted, and the turn is free.
fn put_back<T: Recorded>(board: &Board<T>, seat: &mut Inner<T>, value: T, added: bool)
    requires place { (seat.old.table_id ≡ board.now.table_id) × IsBoard board.now.table_id }
    requires lives { seat.old.me.0.member.spent ≡ false }
    requires turn { Gives T.history T.opening T.sealed T.reach T.disk T.most seat.old.me value added }
    ensures place { seat.new.table_id ≡ seat.old.table_id }
    ensures seat { seat.new.me ≡ (view_of (seen seat.old.me.0.member (sight_after T.history T.opening T.sealed T.reach T.disk seat.old.me.0.member.post.unsealed (log_of seat.old.me.0.turn) value)) None, []) }
{
    let slot = board.exchange(seat, 0, Some(value));
    let None = slot else { unreachable!() };
    board.fetch_add::<Count<T>>(seat, COUNT, step_of(added));
    board.store::<Free>(seat, TURN, 0);
    if board.peek(WAITING) != 0 {
        board.wake_one(TURN);
    }
}

// The lead draws the next number, which no entry that it has seen has.
pub(crate) fn draw<T: Recorded>(board: &Board<T>, seat: &mut Inner<T>) -> u64
    requires place { (seat.old.table_id ≡ board.now.table_id) × IsBoard board.now.table_id }
    requires idle { IsIdle seat.old.me }
    requires leads { seat.old.me.0.member.post.number ≡ 0 }
    requires even { seat.old.me.0.member.drawn ≡ seat.old.me.0.member.post.split }
    requires room { seat.old.me.0.member.post.split < 2 ^ 63 }
    ensures place { seat.new.table_id ≡ seat.old.table_id }
    ensures seat { seat.new.me ≡ (view_of (drawing seat.old.me.0.member) None, []) }
    ensures number { result ≡ seat.old.me.0.member.post.split + 1 }
    ensures above { All (λ (e : Entry). e.who < result) seat.old.me.0.member.post.front }
{
    board.fetch_add::<Draw>(seat, NEXT, 1)
}

// A new seat has the number that was drawn.
pub(crate) fn fork<T: Recorded>(board: &Board<T>, seat: &mut Inner<T>) -> Inner<T>
    requires place { (seat.old.table_id ≡ board.now.table_id) × IsBoard board.now.table_id }
    requires idle { IsIdle seat.old.me }
    requires leads { seat.old.me.0.member.post.number ≡ 0 }
    requires drawn { seat.old.me.0.member.drawn ≡ seat.old.me.0.member.post.split + 1 }
    ensures place { (seat.new.table_id ≡ seat.old.table_id) × (result.table_id ≡ seat.old.table_id) }
    ensures seat { seat.new.me ≡ (view_of (forking seat.old.me.0.member) None, []) }
    ensures new { result.me ≡ (view_of (fork_of seat.old.me.0.member) None, []) }
{
    board.split_seat::<Fork>(seat)
}

// The lead takes in another seat.
pub(crate) fn merge<T: Recorded>(board: &Board<T>, seat: &mut Inner<T>, other: Inner<T>)
    requires place { (seat.old.table_id ≡ board.now.table_id) × (other.table_id ≡ board.now.table_id) × IsBoard board.now.table_id }
    requires idle { IsIdle seat.old.me × IsIdle other.me }
    requires leads { seat.old.me.0.member.post.number ≡ 0 }
    requires sealed { other.me.0.member.post.unsealed ≡ None }
    ensures place { seat.new.table_id ≡ seat.old.table_id }
    ensures seat { seat.new.me ≡ (view_of (merging seat.old.me.0.member other.me.0.member) None, []) }
{
    board.join_seat::<Merge>(seat, other);
}

// The lead learns what its last join tells.
pub(crate) fn settle<T: Recorded>(board: &Board<T>, seat: &mut Inner<T>)
    requires place { (seat.old.table_id ≡ board.now.table_id) × IsBoard board.now.table_id }
    requires idle { IsIdle seat.old.me }
    requires leads { seat.old.me.0.member.post.number ≡ 0 }
    ensures place { seat.new.table_id ≡ seat.old.table_id }
    ensures seat { seat.new.me ≡ (view_of (settling seat.old.me.0.member) None, []) }
    ensures joined { MatchOption seat.old.me.0.member.met (Unit {0}) (λ (x : Meeting). HasJoined x.lead x.other seat.old.me.0.member.post.front) }
{
    board.load::<Settle>(seat, TURN);
}

// The value, once the lead has taken in every seat.
pub(crate) fn shut<T: Recorded>(table: Home<T>, seat: Inner<T>) -> T
    requires place { (seat.table_id ≡ table.shared.table_id) × IsBoard table.shared.table_id }
    requires idle { IsIdle seat.me }
    requires leads { seat.me.0.member.post.number ≡ 0 }
    requires alone { seat.me.0.member.post.out ≡ 0 }
    requires sealed { seat.me.0.member.post.unsealed ≡ None }
    ensures { Ended T.history T.opening T.sealed T.reach T.disk T.most seat.me.0.member.post (T.opening table.shared.key.value) result }
{
    let mut closed = table.close_with(seat);
    let slot = closed.take(0);
    closed.free();
    slot.unwrap()
}
