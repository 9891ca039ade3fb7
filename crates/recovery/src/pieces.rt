//! Contents that are to be joined, as they are read from the file.
ghost use Rattle.std.specs.Prelude.{◌≡◌, ◌≤◌, length, map, sum_by, IfOk};
ghost use Rattle.std.specs.List.{All};
ghost use Rattle.recovery.specs.Joining.{piece_of};

use content_pieces::Piece;
use content_table::Part;
use repo_journal::MOST_CAPACITY;
use std::alloc::{AllocError, Global};

/// The parts, as they are read.
pub(crate) fn pieces_of(alloc: Global, parts: &[Part]) -> Result<Vec<Piece>, AllocError>
    ensures { IfOk result (λ pieces. pieces.items ≡ map piece_of parts.now) }
{
    let mut pieces = Vec::with_capacity(alloc, parts.len())?;
    for part in parts {
        pieces.push(Piece {
            id: part.id,
            at: part.place.at,
            length: part.place.length,
        })?;
    }
    Ok(pieces)
}

/// How many bytes the parts have.
pub(crate) fn total(parts: &[Part]) -> u64
    requires few { length parts.now ≤ 64 }
    requires small { All (λ p. p.place.length ≤ MOST_CAPACITY) parts.now }
    ensures { result ≡ sum_by (λ p. p.place.length) parts.now }
{
    let mut total = 0;
    for part in parts {
        total += part.place.length;
    }
    total
}
