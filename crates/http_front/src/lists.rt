//! The answers to lists of changes.
ghost use Rattle.std.specs.Prelude.{◌≡◌, ◌<◌, ◌≤◌, length, Err};
ghost use Rattle.reply_model.specs.After.{Call};
ghost use Rattle.repo_calls.specs.Asking.{stored_answer};
ghost use Rattle.session_model.specs.Asking.{list_response};
ghost use Rattle.stacked_calls.specs.Stacking.{calls_seen};
ghost use Rattle.http_front.specs.Answered.{IsPut, RepliedAll};
ghost use Rattle.http_front.specs.Dating.{DatedBy, IsLastDated, IsStack};

use crate::changes::{dated, put_granted};
use crate::refusing::put_refusal_at;
use crate::response_buffer::{ResponseBuffer, ResponseForm};
use ports::Clock;
use repo_calls::{Ask, ChangeFault};
use repo_text::Body;
use session_model::Status;
use stacked_calls::StackSeat;
use std::alloc::Global;

/// Makes changes one after another, a landing behind them at the moment that the clock tells. The text of the response is in
/// the buffer then.
pub(crate) fn change_all<T: StackSeat, C: Clock>(
    alloc: Global,
    seat: &mut T,
    clock: &C,
    buffer: &mut ResponseBuffer,
    asks: &mut Vec<Ask<'_>>,
    form: ResponseForm,
)
    requires { IsStack (calls_seen asks.old.items) }
    ensures answers { RepliedAll (DatedBy (C.tells clock.now) (T.replies (T.home seat.old) (T.sealed seat.new)) T.enters) (T.header seat.old) (T.number seat.old) (T.front seat.old) (calls_seen asks.old.items) form.close form.head_only buffer.new (T.front seat.new) }
    ensures header { T.header seat.new ≡ T.header seat.old }
    ensures number { T.number seat.new ≡ T.number seat.old }
    ensures seals { T.sealed seat.old ≤ T.sealed seat.new }
    ensures home { T.home seat.new ≡ T.home seat.old }
{
    date_last(clock, asks);
    make_all(alloc, seat, buffer, asks.as_slice(), form);
}

// The same changes, where the last is a landing with that at the moment that the clock tells.
fn date_last<C: Clock>(clock: &C, asks: &mut Vec<Ask<'_>>)
    requires { 0 < length asks.old.items }
    ensures { IsLastDated (C.tells clock.now) (calls_seen asks.old.items) (calls_seen asks.new.items) }
{
    let Some(last) = asks.pop() else {
        unreachable!()
    };
    if asks.push(dated(clock, &last)).is_err() {
        unreachable!()
    }
}

// Makes changes as they are asked for.
fn make_all<T: StackSeat>(
    alloc: Global,
    seat: &mut T,
    buffer: &mut ResponseBuffer,
    asks: &[Ask<'_>],
    form: ResponseForm,
)
    requires { 0 < length asks.now }
    ensures answers { RepliedAll (record { replies = T.replies (T.home seat.old) (T.sealed seat.new); enters = T.enters }) (T.header seat.old) (T.number seat.old) (T.front seat.old) (calls_seen asks.now) form.close form.head_only buffer.new (T.front seat.new) }
    ensures header { T.header seat.new ≡ T.header seat.old }
    ensures number { T.number seat.new ≡ T.number seat.old }
    ensures seals { T.sealed seat.old ≤ T.sealed seat.new }
    ensures home { T.home seat.new ≡ T.home seat.old }
{
    let Some((last, _)) = asks.split_last() else {
        unreachable!()
    };
    match seat.change_all(alloc, asks) {
        Ok(granted) => put_granted(buffer, last, &granted, form),
        Err(ended) => put_fault_at(alloc, buffer, &ended.fault, ended.at, form),
    }
}

// Puts the response to a change that isn't granted, and tells its place in the list. Of a refusal it may be that there was no
// memory to make it.
fn put_fault_at(
    alloc: Global,
    buffer: &mut ResponseBuffer,
    fault: &ChangeFault,
    at: usize,
    form: ResponseForm,
)
    ensures { (call : Call) → IsPut (stored_answer (Err fault.now)) (list_response call at (stored_answer (Err fault.now))) form.close form.head_only buffer.new }
{
    match fault {
        ChangeFault::Refused(refusal) => put_refusal_at(alloc, buffer, refusal, at, form),
        ChangeFault::DiskFault => {
            buffer.put_code_at(Status::InternalServerError, "disk-fault", at, form)
        }
        ChangeFault::ReadFault => {
            buffer.put_code_at(Status::InternalServerError, "read-fault", at, form)
        }
        ChangeFault::BadBytes { wanted, found } => {
            let body = Body::BadBytes {
                wanted: *wanted,
                found: *found,
            };
            buffer.put_body_at(Status::InternalServerError, &body, at, form)
        }
    }
}
