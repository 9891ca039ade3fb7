//! Where the bytes of contents stand.
ghost use Rattle.std.specs.Prelude.{◌≡◌, Some, IfSome};
ghost use Rattle.history_model.specs.History.{content_len};

use crate::state::RepoState;
use blob_disk::{Disk, Peer};
use content_table::Part;
use object_id::Id;
use std::alloc::Global;

/// Where the bytes of a content stand in the file: those of the parts, one behind another, so many in all. Of one that wasn't
/// joined it is itself the only part. With a second handle that reads them, of which nothing is known: what it gives is the
/// content where it has its id.
#[derive(Drop)]
pub struct ContentPlaces<P: Peer> {
    pub length: u64,
    pub parts: Vec<Part>,
    pub peer: P,
}

impl<D: Disk> RepoState<D> {
    /// Where the bytes of a content stand, if all of them are in the file and its disk has a second handle. The disk isn't
    /// asked. Also none where memory is refused: `content_unchecked` tells what it is then.
    pub fn content_places(&self, alloc: Global, id: Id) -> Option<ContentPlaces<D::Peer>>
        ensures stored { IfSome result (λ places. content_len self.now.history id ≡ Some places.length) }
    {
        let length = self.machine.content_length(&id)?;
        let parts = self.parts_of(alloc, id)?;
        let size = self.journal.size();
        if parts.iter().any(|part| part.place.at >= size) {
            return None;
        }
        let peer = self.disk.peer()?;
        Some(ContentPlaces {
            length,
            parts,
            peer,
        })
    }

    // The parts of a content.
    fn parts_of(&self, alloc: Global, id: Id) -> Option<Vec<Part>> {
        let Some(place) = self.machine.content_place(&id) else {
            return self.machine.joined_pieces(alloc, &id).ok()?;
        };
        let mut parts = Vec::new(alloc);
        parts.push(Part { id, place }).ok()?;
        Some(parts)
    }
}
