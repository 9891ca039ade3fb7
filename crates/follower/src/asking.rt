//! Asks a server.
ghost use Rattle.std.specs.Prelude.{◌≡◌, ◌≢◌, ◌↔◌, ◌≤◌, ℕ, List, Err, IsTrue, OnOk};
ghost use Rattle.ports.specs.Faults.{Rose};
ghost use Rattle.ports.specs.Streams.{Puts};
ghost use Rattle.reply_reader.specs.Heads.{media_of};
ghost use Rattle.follower.specs.Receiving.{Hears, IsAhead, IsReady, reply_received};
ghost use Rattle.follower.specs.Wanting.{media_wanted, question_text, reply_wanted};
ghost use Rattle.follower.specs.declared.inbox.HearFault.TheVariants.{BadReply, LinkFault};

use crate::inbox::{HearFault, Inbox, Received, receive};
use crate::wanted::{Wanted, most_bytes, request};
use ports::{Failed, Link};
use reply_reader::Media;
use std::alloc::Global;

const FINE: u16 = 200;

// Writes the request.
fn send<L: Link>(alloc: Global, link: &mut L, wanted: &Wanted) -> Result<(), HearFault>
    ensures asked { OnOk result (Puts (question_text wanted.now) (L.written link.old) (L.written link.new)) }
    ensures input { L.rest link.new ≡ L.rest link.old }
    ensures bad { result ≢ Err BadReply }
    ensures faults { L.faults link.old ≤ L.faults link.new }
    ensures cause { result ≡ Err LinkFault → Rose (L.faults link.old) (L.faults link.new) }
{
    let text = request(alloc, wanted)?;
    match link.write(text.as_slice()) {
        Ok(()) => Ok(()),
        Err(Failed) => Err(HearFault::LinkFault),
    }
}

// What the body of a reply has to consist of.
fn media_for(wanted: &Wanted) -> Media
    ensures { media_of result ≡ media_wanted wanted.now }
{
    match wanted {
        Wanted::Page(_) => Media::Json,
        Wanted::Content(_) | Wanted::Changeset(_) | Wanted::Policy(_) => Media::Octets,
    }
}

// Whether it is a reply to the question.
fn is_wanted(wanted: &Wanted, received: &Received) -> bool
    ensures { IsTrue result ↔ (reply_received received.now ≡ reply_wanted wanted.now (received.now.body.items)) }
{
    received.status == FINE && received.media == media_for(wanted)
}

/// Asks for this, and waits for the reply.
pub(crate) fn ask<L: Link>(
    alloc: Global,
    link: &mut L,
    inbox: &mut Inbox,
    wanted: &Wanted,
) -> Result<Received, HearFault>
    requires ready { IsReady inbox.old }
    ensures told { (bytes : List ℕ) → IsAhead inbox.old.held.items (L.rest link.old) bytes → Hears wanted.now bytes inbox.new.held.items (L.rest link.new) result }
    ensures ready { IsReady inbox.new }
    ensures asked { OnOk result (Puts (question_text wanted.now) (L.written link.old) (L.written link.new)) }
    ensures faults { L.faults link.old ≤ L.faults link.new }
    ensures cause { result ≡ Err LinkFault → Rose (L.faults link.old) (L.faults link.new) }
{
    send(alloc, link, wanted)?;
    let received = receive(alloc, link, inbox, most_bytes(wanted))?;
    if is_wanted(wanted, &received) {
        Ok(received)
    } else {
        Err(HearFault::BadReply)
    }
}
