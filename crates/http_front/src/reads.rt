//! The answers to reads.
ghost use Rattle.std.specs.Prelude.{◌≡◌, ◌≤◌, ◌⊎◌, length, IfOk, OnOk};
ghost use Rattle.session_model.specs.Responses.{text_of};
ghost use Rattle.session_model.specs.Bodies.{json, memory};
ghost use Rattle.session_model.specs.Asking.{read_response, seen as response_to};
ghost use Rattle.reply_model.specs.Reply as reply;
ghost use Rattle.reply_model.specs.Reply.{HeadOf, SeenHead, SeenIds};
ghost use Rattle.reply_model.specs.After.{Looks};
ghost use Rattle.repo_calls.specs.Asking.{fault_answer, question_seen};
ghost use Rattle.repo_calls.specs.Replying.{IdsKind, kind_of};
ghost use Rattle.session_model.specs.declared.status.Status.TheVariants.{Fine};
ghost use Rattle.repo_text.specs.Short.{coded_id};
ghost use Rattle.http_front.specs.Answered.{Replied};
ghost use Rattle.http_front.specs.Reading.{seen_response, Suits};

use crate::response_buffer::{ResponseBuffer, ResponseForm};
use object_id::Id;
use repo_calls::{AskFault, Question, Seat, Seen};
use repo_path::BookName;
use repo_text::bodies::MOST_CODE;
use repo_text::copies::copies_body;
use repo_text::history::{history_body, path_log_body};
use repo_text::log::log_body;
use repo_text::{Body, Media};
use session_model::Status;
use std::alloc::{AllocError, Global};

/// Answers a read. The text of the response is in the buffer then.
pub(crate) fn look<T: Seat>(
    alloc: Global,
    seat: &mut T,
    buffer: &mut ResponseBuffer,
    question: &Question<'_>,
    form: ResponseForm,
)
    ensures answers { Replied (T.replies (T.home seat.old) (T.sealed seat.new)) (T.header seat.old) (T.number seat.old) (T.front seat.old) (Looks (question_seen question.now)) (read_response (question_seen question.now)) form.close form.head_only buffer.new (T.front seat.new) }
    ensures header { T.header seat.new ≡ T.header seat.old }
    ensures number { T.number seat.new ≡ T.number seat.old }
    ensures seals { T.sealed seat.old ≤ T.sealed seat.new }
    ensures home { T.home seat.new ≡ T.home seat.old }
{
    match seat.look(alloc, question) {
        Ok(seen) => put_seen(alloc, buffer, question, seen, form),
        Err(fault) => put_fault(buffer, fault, form),
    }
}

// Puts the response to a read that sees something, or that there was no memory to make it.
fn put_seen(
    alloc: Global,
    buffer: &mut ResponseBuffer,
    question: &Question<'_>,
    seen: Seen,
    form: ResponseForm,
)
    requires { Suits question.now seen }
    ensures { (buffer.new ≡ text_of (seen_response question.now seen) form.close form.head_only) ⊎ (buffer.new ≡ text_of memory form.close form.head_only) }
{
    if try_put_seen(alloc, buffer, question, seen, form).is_err() {
        buffer.put_memory(form);
    }
}

fn try_put_seen(
    alloc: Global,
    buffer: &mut ResponseBuffer,
    question: &Question<'_>,
    seen: Seen,
    form: ResponseForm,
) -> Result<(), AllocError>
    requires { Suits question.now seen }
    ensures { OnOk result (buffer.new ≡ text_of (seen_response question.now seen) form.close form.head_only) }
{
    match seen {
        Seen::Head(head) => {
            let Question::Head(name) = question else {
                unreachable!()
            };
            put_head(buffer, name, head, form);
        }
        Seen::Bytes(bytes) => buffer.put_any(Status::Fine, Media::Octets, bytes, form),
        Seen::Log(page) => {
            let Question::Log(from) = question else {
                unreachable!()
            };
            let body = log_body(alloc, *from, page.entries.as_slice(), page.total)?;
            buffer.put_any(Status::Fine, Media::Json, body, form);
        }
        Seen::Ids(ids) => {
            let body = ids_body(alloc, question, ids.as_slice())?;
            buffer.put_any(Status::Fine, Media::Json, body, form);
        }
        Seen::Copies(copies) => {
            let body = copies_body(alloc, copies.as_slice())?;
            buffer.put_any(Status::Fine, Media::Json, body.into_bytes(), form);
        }
    }
    Ok(())
}

// The body of changesets in a row: a file's history, or where a path changed.
fn ids_body(alloc: Global, question: &Question<'_>, ids: &[Id]) -> Result<Vec<u8>, AllocError>
    requires { kind_of (question_seen question.now) ≡ IdsKind }
    ensures { IfOk result (λ body. response_to (question_seen question.now) (SeenIds ids.now) ≡ json Fine body.items) }
{
    match question {
        Question::PathLog(..) => path_log_body(alloc, ids),
        _ => history_body(alloc, ids),
    }
}

// Puts where a bookmark stands, which takes no memory.
fn put_head(buffer: &mut ResponseBuffer, name: &BookName, head: Option<Id>, form: ResponseForm)
    ensures { buffer.new ≡ text_of (response_to (HeadOf name.now) (SeenHead head)) form.close form.head_only }
{
    match head {
        Some(_) => {
            let name = name.as_str();
            buffer.put_body(Status::Fine, &Body::Bookmark { head, name }, form)
        }
        None => buffer.put_code(Status::NotFound, "no-bookmark", None, form),
    }
}

// Puts the response to a read that sees nothing, whatever was asked for. It takes no memory.
fn put_fault(buffer: &mut ResponseBuffer, fault: AskFault, form: ResponseForm)
    ensures { (question : reply.Question) → buffer.new ≡ text_of (read_response question (fault_answer fault)) form.close form.head_only }
{
    match fault {
        AskFault::NoContent { id } => {
            put_coded_id(buffer, Status::NotFound, "no-content", id, form)
        }
        AskFault::NoChangeset { id } => {
            put_coded_id(buffer, Status::NotFound, "no-changeset", id, form)
        }
        AskFault::NoPath => buffer.put_code(Status::NotFound, "no-path", None, form),
        AskFault::NotADir => buffer.put_code(Status::NotFound, "not-a-dir", None, form),
        AskFault::NotAFile => buffer.put_code(Status::NotFound, "not-a-file", None, form),
        AskFault::NoPolicy => buffer.put_code(Status::NotFound, "no-policy", None, form),
        AskFault::Collision { id } => {
            put_coded_id(buffer, Status::Conflict, "collision", id, form)
        }
        AskFault::ReadFault => buffer.put_code(
            Status::InternalServerError,
            "read-fault",
            None,
            form,
        ),
        AskFault::BadBytes { wanted, found } => {
            let body = Body::BadBytes { wanted, found };
            buffer.put_body(Status::InternalServerError, &body, form)
        }
        AskFault::Memory => buffer.put_memory(form),
    }
}

fn put_coded_id(buffer: &mut ResponseBuffer, status: Status, code: &str, id: Id, form: ResponseForm)
    requires { length code.now ≤ MOST_CODE }
    ensures { buffer.new ≡ text_of (json status (coded_id code.now id)) form.close form.head_only }
{
    buffer.put_body(status, &Body::CodedId { code, id }, form);
}
