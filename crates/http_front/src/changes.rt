//! The answers to changes.
ghost use Rattle.std.specs.Prelude.{◌≡◌, ◌≤◌, ℕ, List, length, Err};
ghost use Rattle.reply_model.specs.After.{Asks, Call};
ghost use Rattle.reply_model.specs.Reply.{PutContent};
ghost use Rattle.repo_calls.specs.Asking.{stored_answer};
ghost use Rattle.repo_calls.specs.Calls.{call_seen, granted_seen};
ghost use Rattle.repo_calls.specs.Replying.{ContentGrant, Fits, IsGrant};
ghost use Rattle.session_model.specs.Asking.{change_response, granted as granted_response};
ghost use Rattle.session_model.specs.Dating.{Dated};
ghost use Rattle.session_model.specs.Responses.{text_of};
ghost use Rattle.http_front.specs.Answered.{IsPut, Replied};
ghost use Rattle.http_front.specs.Dating.{IsDated};

use crate::refusing::put_refusal;
use crate::response_buffer::{ResponseBuffer, ResponseForm};
use ports::Clock;
use repo_calls::{Ask, ChangeFault, Granted, Seat};
use repo_text::Body;
use session_model::Status;
use std::alloc::Global;

/// Makes a change, a landing at the moment that the clock tells. The text of the response is in the buffer then.
pub(crate) fn change<T: Seat, C: Clock>(
    alloc: Global,
    seat: &mut T,
    clock: &C,
    buffer: &mut ResponseBuffer,
    ask: &Ask<'_>,
    form: ResponseForm,
)
    ensures answers { Replied (Dated (C.tells clock.now) (T.replies (T.home seat.old) (T.sealed seat.new))) (T.header seat.old) (T.number seat.old) (T.front seat.old) (call_seen ask.now) (change_response (call_seen ask.now)) form.close form.head_only buffer.new (T.front seat.new) }
    ensures header { T.header seat.new ≡ T.header seat.old }
    ensures number { T.number seat.new ≡ T.number seat.old }
    ensures seals { T.sealed seat.old ≤ T.sealed seat.new }
    ensures home { T.home seat.new ≡ T.home seat.old }
{
    make(alloc, seat, buffer, &dated(clock, ask), form);
}

/// Stores a content, whose bytes are handed over. The text of the response is in the buffer then.
pub(crate) fn store<T: Seat>(
    alloc: Global,
    seat: &mut T,
    buffer: &mut ResponseBuffer,
    bytes: Vec<u8>,
    form: ResponseForm,
)
    ensures answers { Replied (T.replies (T.home seat.old) (T.sealed seat.new)) (T.header seat.old) (T.number seat.old) (T.front seat.old) (Asks (PutContent bytes.items)) (change_response (Asks (PutContent bytes.items))) form.close form.head_only buffer.new (T.front seat.new) }
    ensures header { T.header seat.new ≡ T.header seat.old }
    ensures number { T.number seat.new ≡ T.number seat.old }
    ensures seals { T.sealed seat.old ≤ T.sealed seat.new }
    ensures home { T.home seat.new ≡ T.home seat.old }
{
    let size = bytes.len();
    match seat.put_content(alloc, bytes) {
        Ok(granted) => put_stored(buffer, &granted, size, form),
        Err(fault) => put_fault(alloc, buffer, &fault, form),
    }
}

/// The same change, where it's a landing at the moment that the clock tells.
pub(crate) fn dated<'a, C: Clock>(clock: &C, ask: &Ask<'a>) -> Ask<'a>
    ensures { IsDated (C.tells clock.now) (call_seen ask.now) (call_seen result) }
{
    match ask {
        Ask::PutContent(bytes) => Ask::PutContent(bytes),
        Ask::PutWhole(body) => Ask::PutWhole(body),
        Ask::PutChangeset(bytes) => Ask::PutChangeset(bytes),
        Ask::SetBookmark {
            caller,
            name,
            from,
            to,
        } => Ask::SetBookmark {
            caller,
            name,
            from: *from,
            to: *to,
        },
        Ask::Land {
            caller,
            name,
            draft,
            moment: _,
        } => Ask::Land {
            caller,
            name,
            draft: *draft,
            moment: clock.now(),
        },
        Ask::SetPolicy { caller, text } => Ask::SetPolicy { caller, text },
    }
}

// Makes a change as it is asked for.
fn make<T: Seat>(
    alloc: Global,
    seat: &mut T,
    buffer: &mut ResponseBuffer,
    ask: &Ask<'_>,
    form: ResponseForm,
)
    ensures answers { Replied (T.replies (T.home seat.old) (T.sealed seat.new)) (T.header seat.old) (T.number seat.old) (T.front seat.old) (call_seen ask.now) (change_response (call_seen ask.now)) form.close form.head_only buffer.new (T.front seat.new) }
    ensures header { T.header seat.new ≡ T.header seat.old }
    ensures number { T.number seat.new ≡ T.number seat.old }
    ensures seals { T.sealed seat.old ≤ T.sealed seat.new }
    ensures home { T.home seat.new ≡ T.home seat.old }
{
    match seat.change(alloc, ask) {
        Ok(granted) => put_granted(buffer, ask, &granted, form),
        Err(fault) => put_fault(alloc, buffer, &fault, form),
    }
}

// Puts the response to a change that isn't granted. Of a refusal it may be that there was no memory to make it.
fn put_fault(alloc: Global, buffer: &mut ResponseBuffer, fault: &ChangeFault, form: ResponseForm)
    ensures { (call : Call) → IsPut (stored_answer (Err fault.now)) (change_response call (stored_answer (Err fault.now))) form.close form.head_only buffer.new }
{
    match fault {
        ChangeFault::Refused(refusal) => put_refusal(alloc, buffer, refusal, form),
        ChangeFault::DiskFault => {
            buffer.put_code(Status::InternalServerError, "disk-fault", None, form)
        }
        ChangeFault::ReadFault => {
            buffer.put_code(Status::InternalServerError, "read-fault", None, form)
        }
        ChangeFault::BadBytes { wanted, found } => {
            let body = Body::BadBytes {
                wanted: *wanted,
                found: *found,
            };
            buffer.put_body(Status::InternalServerError, &body, form)
        }
    }
}

// Puts the response to a content of this many bytes that is stored, which takes no memory.
fn put_stored(buffer: &mut ResponseBuffer, granted: &Granted, size: usize, form: ResponseForm)
    requires { IsGrant ContentGrant (granted_seen granted.now) }
    ensures { (bytes : List ℕ) → length bytes ≡ size → buffer.new ≡ text_of (granted_response (Asks (PutContent bytes)) (granted_seen granted.now)) form.close form.head_only }
{
    let Granted::Content(id) = granted else {
        unreachable!()
    };
    buffer.put_body(Status::Fine, &Body::Content { id: *id, size }, form)
}

/// Puts the response to a change that is granted, which takes no memory.
pub(crate) fn put_granted(
    buffer: &mut ResponseBuffer,
    ask: &Ask<'_>,
    granted: &Granted,
    form: ResponseForm,
)
    requires { Fits (call_seen ask.now) (granted_seen granted.now) }
    ensures { buffer.new ≡ text_of (granted_response (call_seen ask.now) (granted_seen granted.now)) form.close form.head_only }
{
    match granted {
        Granted::Content(id) => {
            let Ask::PutContent(bytes) = ask else {
                unreachable!()
            };
            let size = bytes.len();
            buffer.put_body(Status::Fine, &Body::Content { id: *id, size }, form)
        }
        Granted::Whole { id, size } => {
            let body = Body::Whole {
                id: *id,
                size: *size,
            };
            buffer.put_body(Status::Fine, &body, form)
        }
        Granted::Changeset(id) => {
            let body = Body::CodedId {
                code: "changeset",
                id: *id,
            };
            buffer.put_body(Status::Fine, &body, form)
        }
        Granted::Bookmark => {
            let Ask::SetBookmark { name, to, .. } = ask else {
                unreachable!()
            };
            let body = Body::Bookmark {
                head: *to,
                name: name.as_str(),
            };
            buffer.put_body(Status::Fine, &body, form)
        }
        Granted::Landing(landed) => {
            let body = Body::Landed {
                old: landed.old,
                ids: landed.ids.as_slice(),
            };
            buffer.put_body(Status::Fine, &body, form)
        }
        Granted::Policy { number } => {
            let body = Body::Policy { number: *number };
            buffer.put_body(Status::Fine, &body, form)
        }
    }
}
