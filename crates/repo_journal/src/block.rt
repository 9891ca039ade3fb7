//! A block of bytes that were read one behind another.
ghost use Rattle.std.specs.Prelude.{◌≡◌, ◌+◌, ◌-◌, ◌≤◌, ◌<◌, ◌^◌, ◌++◌, false, length, take, drop, IsSome, MatchBool, OnErr, OnOk};
ghost use Rattle.std.specs.Option.{ForSome};
ghost use Rattle.ports.specs.Faults.{Counts};
ghost use Rattle.disk_model.specs.Images.{IsImage};
ghost use Rattle.disk_model.specs.Meaning.{IsLong};
ghost use Rattle.disk_model.specs.Calls.{Kept, LeavesOnly, Looked};
ghost use Rattle.repo_journal.specs.Answers.{is_scan_fault};
ghost use Rattle.repo_journal.specs.Scanning.{Grew, HasLetGo};

use crate::fault::ScanFault;
use blob_disk::Disk;

/// Reads `count` bytes from `at` on, behind those that the block has.
pub(crate) fn read_on<D: Disk>(
    disk: &mut D,
    block: &mut Vec<u8>,
    at: u64,
    count: usize,
) -> Result<(), ScanFault>
    requires long { IsLong (D.meaning disk.old).reads (at + count) }
    requires small { length block.old.items + count < 2 ^ 63 }
    ensures len { OnOk result (length block.new.items ≡ length block.old.items + count) }
    ensures bytes { OnOk result (ForSome (D.meaning disk.old).reads (λ file. block.new.items ≡ block.old.items ++ take count (drop at file))) }
    ensures err { OnErr result (block.new.items ≡ block.old.items) }
    ensures looked { Looked (D.meaning disk.old) (D.meaning disk.new) }
    ensures kept { Kept (D.meaning disk.old) (D.meaning disk.new) }
    ensures time { LeavesOnly (IsImage (D.meaning disk.new).state) (D.meaning disk.old) (D.meaning disk.new) }
    ensures faults { Counts (D.meaning disk.old).faults (D.meaning disk.new).faults (is_scan_fault result) }
    ensures quiet { IsSome (D.meaning disk.old).quiet → is_scan_fault result ≡ false }
{
    let have = block.len();
    if !grow(block, count) {
        return Err(ScanFault::Memory);
    }
    if disk.read_at(at, &mut block[have..]).is_err() {
        block.truncate(have);
        return Err(ScanFault::DiskFault);
    }
    Ok(())
}

// So many more bytes, if there is memory.
fn grow(block: &mut Vec<u8>, count: usize) -> bool
    requires { length block.old.items + count < 2 ^ 63 }
    ensures { MatchBool result (Grew count block.old.items block.new.items) (block.new.items ≡ block.old.items) }
{
    let len = block.len();
    block.resize(len + count, 0).is_ok()
}

/// Lets go of the bytes before a place: the block's first byte stands at `from`.
pub(crate) fn let_go(block: &mut Vec<u8>, from: u64, at: u64)
    ensures { HasLetGo from at block.old.items block.new.items }
{
    let len = block.len() as u64;
    if at < from || at - from >= len {
        block.clear();
        return;
    }
    let skip = (at - from) as usize;
    block.rotate_left(skip);
    block.truncate(len as usize - skip);
}
