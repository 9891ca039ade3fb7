//! Reads the replies of a server.
ghost use Rattle.std.specs.Prelude.{◌≡◌, ◌≢◌, ◌≤◌, ◌<◌, ◌+◌, ℕ, List, [], None, Ok, Err, length, drop, take, max, vec_len, IfOk, IfErr, IfSome, OnErr};
ghost use Rattle.ports.specs.Faults.{Rose};
ghost use Rattle.follower.specs.Receiving.{IsAhead, IsReady, IsWhole, Looks, Receives, reply_placed, reply_received};
ghost use Rattle.follower.specs.declared.inbox.HearFault.TheVariants.{BadReply, LinkFault, Memory};

use crate::placing::{Placed, Placement, place};
use httparse::spans::{EMPTY_HEADER_SPAN, HeaderSpan};
use ports::{Failed, Link};
use reply_reader::{HEADER_ROOM, MOST_BODY, Media};
use std::alloc::{AllocError, Global};
use std::mem::replace;

/// The most bytes of a reply's head.
const MOST_HEAD: usize = 16_384;

/// The most bytes that are read at once.
const MOST_PIECE: usize = 65_536;

/// Why there is no reply.
#[derive(Clone, Copy, Debug, PartialEq, Eq)]
pub(crate) enum HearFault {
    /// The link failed.
    LinkFault,
    /// What came is no reply to the question, or the link ended before its end.
    BadReply,
    Memory,
}

impl From<AllocError> for HearFault {
    ghost from_gives = { λ _ e. e ≡ Memory };

    fn from(_e: AllocError) -> HearFault {
        HearFault::Memory
    }
}

/// A reply that was received.
#[derive(Drop)]
pub(crate) struct Received {
    pub status: u16,
    pub media: Media,
    pub body: Vec<u8>,
}

/// The bytes that came and weren't taken, and room to read more.
#[derive(Drop)]
pub(crate) struct Inbox {
    pub held: Vec<u8>,
    pub piece: Vec<u8>,
    pub headers: Vec<HeaderSpan>,
}

impl Inbox {
    /// Nothing came yet.
    pub(crate) fn new(alloc: Global) -> Result<Inbox, AllocError>
        ensures empty { IfOk result (λ inbox. inbox.held.items ≡ []) }
        ensures ready { IfOk result (λ inbox. IsReady inbox) }
    {
        Ok(Inbox {
            held: Vec::new(alloc),
            piece: vec![in alloc; 0; MOST_PIECE]?,
            headers: vec![in alloc; EMPTY_HEADER_SPAN; HEADER_ROOM]?,
        })
    }
}

/// Waits for the next reply, whose body has at most `limit` bytes, and takes it. No more is held than such a reply, and
/// what was held before.
pub(crate) fn receive<L: Link>(
    alloc: Global,
    link: &mut L,
    inbox: &mut Inbox,
    limit: usize,
) -> Result<Received, HearFault>
    requires limit { limit ≤ MOST_BODY }
    requires ready { IsReady inbox.old }
    ensures told { (bytes : List ℕ) → IsAhead inbox.old.held.items (L.rest link.old) bytes → Receives limit bytes inbox.new.held.items (L.rest link.new) result }
    ensures room { length inbox.new.held.items ≤ max (length inbox.old.held.items) (MOST_HEAD + limit) }
    ensures ready { IsReady inbox.new }
    ensures output { L.written link.new ≡ L.written link.old }
    ensures faults { L.faults link.old ≤ L.faults link.new }
    ensures cause { result ≡ Err LinkFault → Rose (L.faults link.old) (L.faults link.new) }
{
    'pieces: loop {
        if let Some(placed) = look(link, inbox, limit)? {
            return take_placed(alloc, &mut inbox.held, placed);
        }
    }
}

// Where a whole reply stands, or None where more was read.
fn look<L: Link>(link: &mut L, inbox: &mut Inbox, limit: usize) -> Result<Option<Placed>, HearFault>
    requires limit { limit ≤ MOST_BODY }
    requires ready { IsReady inbox.old }
    ensures told { (bytes : List ℕ) → IsAhead inbox.old.held.items (L.rest link.old) bytes → Looks limit bytes inbox.new.held.items (L.rest link.new) result }
    ensures whole { IfOk result (λ found. IfSome found (IsWhole limit inbox.new.held.items)) }
    ensures nearer { result ≡ Ok None → length inbox.old.held.items < length inbox.new.held.items }
    ensures within { result ≡ Ok None → length inbox.new.held.items ≤ MOST_HEAD + limit }
    ensures room { length inbox.new.held.items ≤ max (length inbox.old.held.items) (MOST_HEAD + limit) }
    ensures ready { IsReady inbox.new }
    ensures output { L.written link.new ≡ L.written link.old }
    ensures faults { L.faults link.old ≤ L.faults link.new }
    ensures cause { result ≡ Err LinkFault → Rose (L.faults link.old) (L.faults link.new) }
{
    match place(inbox.held.as_slice(), limit, inbox.headers.as_mut_slice()) {
        Placement::Whole(placed) => Ok(Some(placed)),
        Placement::Bad => Err(HearFault::BadReply),
        Placement::Unfinished => {
            let room = MOST_HEAD + limit - inbox.held.len();
            if read_more(link, &mut inbox.held, &mut inbox.piece, room)? == 0 {
                return Err(HearFault::BadReply);
            }
            Ok(None)
        }
    }
}

// Reads at least one byte more and at most `room`, and tells how many; none where the link has ended.
fn read_more<L: Link>(
    link: &mut L,
    held: &mut Vec<u8>,
    piece: &mut Vec<u8>,
    room: usize,
) -> Result<usize, HearFault>
    requires room { 0 < room }
    requires piece { vec_len piece.old ≡ MOST_PIECE }
    ensures told { (bytes : List ℕ) → IsAhead held.old.items (L.rest link.old) bytes → IfOk result (λ n. IsAhead held.new.items (L.rest link.new) bytes × (n ≡ 0 → bytes ≡ held.old.items)) }
    ensures more { IfOk result (λ n. (length held.new.items ≡ length held.old.items + n) × (n ≤ room)) }
    ensures err { OnErr result (held.new.items ≡ held.old.items) }
    ensures other { result ≢ Err BadReply }
    ensures piece { vec_len piece.new ≡ MOST_PIECE }
    ensures output { L.written link.new ≡ L.written link.old }
    ensures faults { L.faults link.old ≤ L.faults link.new }
    ensures cause { result ≡ Err LinkFault → Rose (L.faults link.old) (L.faults link.new) }
{
    let most = MOST_PIECE.min(room);
    let space = &mut piece.as_mut_slice()[..most];
    match link.read(space) {
        Err(Failed) => Err(HearFault::LinkFault),
        Ok(count) => {
            held.extend_from_slice(&space[..count])?;
            Ok(count)
        }
    }
}

// Takes the reply that stands first.
fn take_placed(alloc: Global, held: &mut Vec<u8>, placed: Placed) -> Result<Received, HearFault>
    requires { (placed.at ≤ placed.end) × (placed.end ≤ length held.old.items) }
    ensures taken { IfOk result (λ received. (reply_received received ≡ reply_placed held.old.items placed) × (held.new.items ≡ drop placed.end held.old.items)) }
    ensures err { IfErr result (λ fault. (fault ≡ Memory) × (held.new.items ≡ held.old.items)) }
{
    let rest = Vec::from_slice(alloc, &held.as_slice()[placed.end..])?;
    let mut body = replace(held, rest);
    keep_between(&mut body, placed.at, placed.end);
    Ok(Received {
        status: placed.status,
        media: placed.media,
        body,
    })
}

// Drops what stands before one place and from another place on.
fn keep_between(bytes: &mut Vec<u8>, at: usize, end: usize)
    requires { (at ≤ end) × (end ≤ length bytes.old.items) }
    ensures { bytes.new.items ≡ drop at (take end bytes.old.items) }
{
    bytes.copy_within(at..end, 0);
    bytes.truncate(end - at);
}
