//! The id of joined contents.
ghost use Rattle.std.specs.Prelude.{◌≡◌, ℕ, List, IfOk, IfErr, IsSome, IsTrue, false, All};
ghost use Rattle.ports.specs.Faults.{Counts};
ghost use Rattle.sha2.specs.Sha256.{sha256};
ghost use Rattle.disk_model.specs.Images.{IsImage};
ghost use Rattle.disk_model.specs.Meaning.{IsLong};
ghost use Rattle.disk_model.specs.Calls.{Kept, LeavesOnly, Looked};
ghost use Rattle.content_pieces.specs.Joining.{AreJoined, IsWithin, TellsPiece, is_read_fault};

use crate::fault::PieceFault;
use crate::feeding::feed;
use crate::piece::Piece;
use blob_disk::Disk;
use object_id::{Hasher, Id};
use repo_journal::Journal;

/// The id of the pieces' bytes, one behind another. Each piece is read once, in blocks, and its digest compared: the first
/// whose bytes have another id is told. It takes no memory.
pub fn joined_id<D: Disk>(
    journal: &Journal,
    disk: &mut D,
    pieces: &[Piece],
) -> Result<Id, PieceFault>
    requires within { All (IsWithin journal.now) pieces.now }
    requires long { IsLong (D.meaning disk.old).reads journal.now.size }
    ensures ok { IfOk result (λ id. (joined : List ℕ) × AreJoined journal.now (D.meaning disk.old) pieces.now joined × (id ≡ sha256 joined)) }
    ensures err { IfErr result (TellsPiece journal.now (D.meaning disk.old) pieces.now) }
    ensures looked { Looked (D.meaning disk.old) (D.meaning disk.new) }
    ensures kept { Kept (D.meaning disk.old) (D.meaning disk.new) }
    ensures time { IsTrue (D.meaning disk.old).honest → LeavesOnly (IsImage (D.meaning disk.new).state) (D.meaning disk.old) (D.meaning disk.new) }
    ensures faults { Counts (D.meaning disk.old).faults (D.meaning disk.new).faults (is_read_fault result) }
    ensures quiet { IsSome (D.meaning disk.old).quiet → is_read_fault result ≡ false }
{
    let mut joined = Hasher::new();
    for piece in pieces {
        let Ok(found) = feed(journal, disk, piece, &mut joined) else {
            return Err(PieceFault::ReadFault);
        };
        if found != piece.id {
            return Err(PieceFault::BadBytes {
                wanted: piece.id,
                found,
            });
        }
    }
    Ok(joined.id())
}
