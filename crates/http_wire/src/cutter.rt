//! The stream so far, and the next request on it.
ghost use Rattle.std.specs.Prelude.{◌≡◌, ◌≤◌, ◌+◌, length, drop, vec_capacity, IfOk};

use crate::cutting::blank_len;
use crate::head::{HEADER_ROOM, MOST_HEAD};
use crate::head_outcome::{HeadOutcome, read_head};
use crate::next::Next;
use crate::request::message;
use crate::texts::MOST_BODY;
use httparse::spans::HeaderSpan;
use std::alloc::{AllocError, Global};
use std::marker::Model;
use std::mem::replace;

/// The most bytes of one piece.
pub const MOST_PIECE: usize = 65_536;

/// The most bytes of a request, head and body.
pub const MOST_REQUEST: usize = MOST_HEAD + MOST_BODY;

// The least body that is handed out in the room in which it came, and not copied out of it.
const LONG_BODY: usize = 65_536;

/// Cuts a stream into its requests. Contracts see it as the bytes that were fed and are not consumed,
/// but for empty lines before them.
#[derive(Drop)]
pub struct Cutter {
    bytes: Vec<u8>,
    /// Where the bytes begin that are not consumed.
    start: usize,
    /// How many of them were searched for the end of a head, without one.
    scanned: usize,
    /// How many of them there have to be before anything can be told of them.
    wanted: usize,
    headers: Vec<HeaderSpan>,
}

impl Model for Cutter {
    ghost use Rattle.std.specs.Prelude.{ℕ, List};
    ghost use Rattle.std.specs.Coded.{coded_ℕ, coded_list};

    ghost Value = { List ℕ };

    ghost use Rattle.http_wire.specs.Holding.{held, IsHolding};

    ghost view = { held };

    ghost invariant = { IsHolding };
}

impl Cutter {
    ghost use Rattle.std.specs.Prelude.{◌≡◌, ◌<◌, ◌≤◌, ◌-◌, ◌++◌, [], length, take, drop, IfOk};
    ghost use Rattle.http_model.specs.Refusals.{status_of};
    ghost use Rattle.http_model.specs.Stream as model;
    ghost use Rattle.http_wire.specs.Seen.{seen};
    ghost use Rattle.http_wire.specs.Answers.{Answers, OnMessage, OnMemory, OnNeedMore, OnRefused};

    /// A cutter of an empty stream, with all its room.
    pub fn new(alloc: Global) -> Result<Cutter, AllocError>
        ensures { IfOk result (λ cutter. cutter ≡ []) }
    {
        Ok(Cutter {
            bytes: room_with(alloc, &[])?,
            start: 0,
            scanned: 0,
            wanted: 0,
            headers: Vec::with_capacity(alloc, HEADER_ROOM)?,
        })
    }

    /// How many bytes there are that are not consumed. After `NeedMore` these are of one request, and with none
    /// of them the stream stands at a request's end.
    pub fn waiting(&self) -> usize
        ensures { result ≡ length self.now }
    {
        self.bytes.len() - self.start
    }

    /// Adds the next piece of the stream. It takes no memory.
    pub fn feed(&mut self, piece: &[u8])
        requires waiting { length self.old < MOST_REQUEST }
        requires piece { length piece.now ≤ MOST_PIECE }
        ensures { self.new ≡ self.old ++ piece.now }
    {
        move_to_front(&mut self.bytes, self.start);
        self.start = 0;
        self.bytes.extend_from_slice(piece).unwrap();
    }

    /// What stands first. A request is consumed; after a refusal the same refusal comes again.
    pub fn next(&mut self, alloc: Global) -> Next
        ensures message { OnMessage result (λ request. model.Begins self.old (model.Whole (seen request) self.new)) }
        ensures head_only { OnMessage result (λ request. request.head_only ≡ model.is_head_only (seen request)) }
        ensures memory { OnMemory result (λ close head_only. (request : model.Request) × model.Begins self.old (model.Whole request self.new) × (close ≡ request.close) × (head_only ≡ model.is_head_only request)) }

        // Only the empty lines are dropped.
        ensures need_more { OnNeedMore result (model.Begins self.old (model.Partial (length self.new))) }
        ensures waiting { OnNeedMore result (length self.new < MOST_REQUEST) }
        ensures kept { OnNeedMore result (self.new ≡ model.skip_blank self.old) }

        ensures refused { OnRefused result (λ status code. model.Begins self.old (model.Refuses code)) }
        ensures status { OnRefused result (λ status code. status ≡ status_of code) }
        ensures stays { OnRefused result (λ status code. self.new ≡ model.skip_blank self.old) }
    {
        if self.bytes.len() - self.start < self.wanted {
            return Next::NeedMore;
        }
        self.skip_empty_lines();
        self.take_next(alloc)
    }

    fn skip_empty_lines(&mut self)
        ensures { self.new ≡ model.skip_blank self.old }
    {
        let blank = blank_len(&self.bytes.as_slice()[self.start..]);
        if blank > 0 {
            self.start += blank;
            self.scanned = 0;
        }
        self.wanted = 0;
    }

    /// What stands first in bytes that don't begin with an empty line.
    fn take_next(&mut self, alloc: Global) -> Next
        requires { model.skip_blank self.old ≡ self.old }
        ensures message { OnMessage result (λ request. model.Stands self.old (model.Whole (seen request) self.new)) }
        ensures head_only { OnMessage result (λ request. request.head_only ≡ model.is_head_only (seen request)) }
        ensures memory { OnMemory result (λ close head_only. (request : model.Request) × model.Stands self.old (model.Whole request self.new) × (close ≡ request.close) × (head_only ≡ model.is_head_only request)) }
        ensures need_more { OnNeedMore result (model.Stands self.old (model.Partial (length self.old))) }
        ensures waiting { OnNeedMore result (length self.old < MOST_REQUEST) }
        ensures kept { OnNeedMore result (self.new ≡ self.old) }
        ensures refused { OnRefused result (λ status code. model.Stands self.old (model.Refuses code)) }
        ensures status { OnRefused result (λ status code. status ≡ status_of code) }
        ensures stays { OnRefused result (λ status code. self.new ≡ self.old) }
    {
        let waiting = &self.bytes.as_slice()[self.start..];
        match read_head(waiting, self.scanned, &mut self.headers) {
            HeadOutcome::Unfinished => {
                self.scanned = waiting.len();
                Next::NeedMore
            }
            HeadOutcome::Refused(code) => Next::Refused {
                status: code.status(),
                code,
            },
            HeadOutcome::Head {
                len,
                spans,
                framing,
            } => {
                let end = len + framing.body;
                if waiting.len() < end {
                    self.wanted = end;
                    return Next::NeedMore;
                }
                let (head, body) = (&waiting[..len], &waiting[len..end]);
                if body.len() >= LONG_BODY {
                    let answer = message(alloc, head, &spans, framing, &[]);
                    return self.with_body(alloc, answer, len, end);
                }
                let answer = message(alloc, head, &spans, framing, body);
                self.start += end;
                self.scanned = 0;
                self.wanted = 0;
                answer
            }
        }
    }

    // The answer to a request whose body stands from `len` to `end`, of the answer to its head alone. It is consumed.
    fn with_body(&mut self, alloc: Global, answer: Next, len: usize, end: usize) -> Next
        requires order { len ≤ end }
        requires within { end ≤ length self.old }
        ensures answers { (asked : model.Request) → Answers (record asked { body = [] }) answer → Answers (record asked { body = take (end - len) (drop len self.old) }) result }
        ensures rest { self.new ≡ drop end self.old }
    {
        let mut request = match answer {
            Next::Message(request) => request,
            other => {
                self.skip(end);
                return other;
            }
        };
        match self.take_body(alloc, len, end) {
            Ok(body) => {
                request.body = body;
                Next::Message(request)
            }
            Err(AllocError) => Next::Memory {
                close: request.close,
                head_only: request.head_only,
            },
        }
    }

    // The bytes from `len` to `end`, in the room in which they came. Those behind them get a room of their own.
    fn take_body(&mut self, alloc: Global, len: usize, end: usize) -> Result<Vec<u8>, AllocError>
        requires order { len ≤ end }
        requires within { end ≤ length self.old }
        ensures body { IfOk result (λ body. body.items ≡ take (end - len) (drop len self.old)) }
        ensures rest { self.new ≡ drop end self.old }
    {
        let begin = self.start + len;
        let rest = match room_with(alloc, &self.bytes.as_slice()[self.start + end..]) {
            Ok(rest) => rest,
            Err(AllocError) => {
                self.skip(end);
                return Err(AllocError);
            }
        };
        let mut body = replace(&mut self.bytes, rest);
        self.start = 0;
        self.scanned = 0;
        self.wanted = 0;
        move_to_front(&mut body, begin);
        body.truncate(end - len);
        Ok(body)
    }

    // Consumes the first bytes.
    fn skip(&mut self, end: usize)
        requires { end ≤ length self.old }
        ensures { self.new ≡ drop end self.old }
    {
        self.start += end;
        self.scanned = 0;
        self.wanted = 0;
    }
}

// These bytes, with all the room of a cutter.
fn room_with(alloc: Global, bytes: &[u8]) -> Result<Vec<u8>, AllocError>
    ensures items { IfOk result (λ room. room.items ≡ bytes.now) }
    ensures room { IfOk result (λ room. MOST_REQUEST + MOST_PIECE ≤ vec_capacity room) }
{
    let mut room = Vec::with_capacity(alloc, MOST_REQUEST + MOST_PIECE)?;
    room.extend_from_slice(bytes)?;
    Ok(room)
}

/// Drops the bytes before `start`, and keeps the room.
fn move_to_front(bytes: &mut Vec<u8>, start: usize)
    requires { start ≤ length bytes.old.items }
    ensures items { bytes.new.items ≡ drop start bytes.old.items }
    ensures room { vec_capacity bytes.new ≡ vec_capacity bytes.old }
{
    if start == 0 {
        return;
    }
    let len = bytes.len();
    bytes.copy_within(start..len, 0);
    bytes.truncate(len - start);
}
