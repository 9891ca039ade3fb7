//! Whether a connection has asked something.
ghost use Rattle.std.specs.Prelude.{◌≡◌, fold};
ghost use Rattle.net_ports.specs.Asking.{has_head, place_after};
ghost use Rattle.net_ports.specs.declared.asking.Place.TheVariants.{Before};

use std::io::{ErrorKind, Read};

/// The most bytes of a request's head.
pub(crate) const MOST_HEAD: usize = 16_384;

// Where a byte of a request's head stands. A line ends in CR LF or in LF alone.
#[derive(Clone, Copy, PartialEq, Eq)]
enum Place {
    // At the beginning of a line, where all lines so far are empty.
    Before,
    // After a CR there.
    BeforeLineFeed,
    // Within a line.
    Within,
    // At the beginning of a line that is not the first.
    AtLine,
    // After a CR there.
    AtLineFeed,
    // Behind the empty line that ends the head.
    Behind,
}

impl Place {
    ghost use Rattle.std.specs.Prelude.{◌≡◌};
    ghost use Rattle.net_ports.specs.Asking.{place_after};

    // Where the next byte stands.
    fn after(self, byte: u8) -> Place
        ensures { result ≡ place_after self byte }
    {
        match (self, byte) {
            (Place::Behind, _) | (Place::AtLine | Place::AtLineFeed, b'\n') => Place::Behind,
            (Place::Before | Place::BeforeLineFeed, b'\n') => Place::Before,
            (Place::Before, b'\r') => Place::BeforeLineFeed,
            (Place::AtLine, b'\r') => Place::AtLineFeed,
            (Place::Within, b'\n') => Place::AtLine,
            _ => Place::Within,
        }
    }
}

/// Whether the bytes hold the whole head of a request of HTTP/1.1 (RFC 9112): an empty line stands behind another line.
pub(crate) fn has_head(bytes: &[u8]) -> bool
    ensures { result ≡ has_head bytes.now }
{
    let place = bytes
        .iter()
        .fold(Place::Before, |place, byte| place.after(*byte));
    place == Place::Behind
}
