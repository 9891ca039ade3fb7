//! Where a reply stands in the bytes that came.
ghost use Rattle.std.specs.Prelude.{◌≡◌, ◌≤◌, length};
ghost use Rattle.follower.specs.Receiving.{IsPlaced};

use httparse::spans::HeaderSpan;
use reply_reader::{Front, HEADER_ROOM, MOST_BODY, Media, read_reply};

/// A whole reply.
#[derive(Clone, Copy)]
pub(crate) struct Placed {
    pub status: u16,
    pub media: Media,
    /// Where its body begins.
    pub at: usize,
    /// Where it ends.
    pub end: usize,
}

/// What stands at the front.
#[derive(Clone, Copy)]
pub(crate) enum Placement {
    Whole(Placed),
    /// More bytes are needed.
    Unfinished,
    /// No reply begins so.
    Bad,
}

/// What stands at the front of the bytes. `headers` is room that the call writes over.
pub(crate) fn place(bytes: &[u8], limit: usize, headers: &mut [HeaderSpan]) -> Placement
    requires limit { limit ≤ MOST_BODY }
    requires room { length headers.old ≡ HEADER_ROOM }
    ensures placed { IsPlaced limit bytes.now result }
    ensures room { length headers.new ≡ HEADER_ROOM }
{
    match read_reply(bytes, limit, headers) {
        Front::Whole(reply) => {
            let end = bytes.len() - reply.rest.len();
            Placement::Whole(Placed {
                status: reply.status,
                media: reply.media,
                at: end - reply.body.len(),
                end,
            })
        }
        Front::Unfinished => Placement::Unfinished,
        Front::Bad(_) => Placement::Bad,
    }
}
