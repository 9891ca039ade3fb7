//! How long a file is, once all of it is stable.
ghost use Rattle.std.specs.Prelude.{◌≡◌, IfOk, IsOk, IsSome, is_err};
ghost use Rattle.recovery.specs.Settling.{HasBegun, Spares};

use blob_disk::Disk;
use ports::Failed;

/// The file's length in bytes, and the disk's moment and its count of faults once all is stable.
#[derive(Clone, Copy)]
pub(crate) struct Begun {
    pub size: u64,
    pub moment: u64,
    pub faults: u64,
}

/// Asks how long the file is, and then makes all of it stable: a crash may have left other bytes on
/// the disk than reads give.
pub(crate) fn begin<D: Disk>(disk: &mut D) -> Result<Begun, Failed>
    ensures begun { IfOk result (λ b. HasBegun b.size b.moment b.faults (D.meaning disk.old) (D.meaning disk.new)) }
    ensures spares { Spares (D.meaning disk.old) (D.meaning disk.new) (is_err result) }
    ensures quiet { IsSome (D.meaning disk.old).quiet → IsOk result }
{
    let size = disk.size()?;
    disk.sync()?;
    Ok(Begun {
        size,
        moment: disk.moment(),
        faults: disk.faults(),
    })
}
