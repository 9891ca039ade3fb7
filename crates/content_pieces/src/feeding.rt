//! Reads a piece in blocks, for whoever keeps none of it.
ghost use Rattle.std.specs.Prelude.{◌≡◌, ◌≤◌, ◌+◌, ◌++◌, ℕ, List, is_err, IfOk, IsOk, IsSome, IsTrue};
ghost use Rattle.ports.specs.Faults.{Counts};
ghost use Rattle.sha2.specs.Sha256.{sha256};
ghost use Rattle.disk_model.specs.Images.{IsImage};
ghost use Rattle.disk_model.specs.Meaning.{IsLong};
ghost use Rattle.disk_model.specs.Calls.{Kept, LeavesOnly, Looked};
ghost use Rattle.object_id.specs.Hashing.{HasFed};
ghost use Rattle.content_pieces.specs.Joining.{IsWithin, IsRead};

use crate::piece::Piece;
use blob_disk::Disk;
use object_id::{Hasher, Id};
use repo_journal::{DiskFault, Journal};

// How many bytes are read at once.
const BLOCK: usize = 16_384;

// Feeds the bytes of a piece to the hasher, and tells the id that they have.
pub(crate) fn feed<D: Disk>(
    journal: &Journal,
    disk: &mut D,
    piece: &Piece,
    joined: &mut Hasher,
) -> Result<Id, DiskFault>
    requires within { IsWithin journal.now piece.now }
    requires long { IsLong (D.meaning disk.old).reads journal.now.size }
    ensures ok { IfOk result (λ id. (bytes : List ℕ) × IsRead journal.now (D.meaning disk.old) piece.now bytes × (id ≡ sha256 bytes)
        × ((fed : List ℕ) → HasFed joined.old fed → HasFed joined.new (fed ++ bytes))) }
    ensures looked { Looked (D.meaning disk.old) (D.meaning disk.new) }
    ensures kept { Kept (D.meaning disk.old) (D.meaning disk.new) }
    ensures time { IsTrue (D.meaning disk.old).honest → LeavesOnly (IsImage (D.meaning disk.new).state) (D.meaning disk.old) (D.meaning disk.new) }
    ensures faults { Counts (D.meaning disk.old).faults (D.meaning disk.new).faults (is_err result) }
    ensures quiet { IsSome (D.meaning disk.old).quiet → IsOk result }
{
    let mut own = Hasher::new();
    let mut block = [0; BLOCK];
    let mut at = piece.at;
    let mut left = piece.length;
    while left > 0 {
        let count = left.min(BLOCK as u64) as usize;
        let part = &mut block[..count];
        journal.read(disk, at, part)?;
        own.feed(part);
        joined.feed(part);
        at += count as u64;
        left -= count as u64;
    }
    Ok(own.id())
}
