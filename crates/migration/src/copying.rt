//! The calls of the new file's disk: a header without its mark, the records, the closing gate, and last the mark.
ghost use Rattle.std.specs.Prelude.{◌≡◌, ◌+◌, ◌-◌, ◌≤◌, ◌<◌, ◌++◌, ◌^◌, ℕ, List, [], false, length, is_err, IsOk, IsSome, IsTrue, OnOk};
ghost use Rattle.std.specs.Option.{ForSome};
ghost use Rattle.ports.specs.Faults.{Counts};
ghost use Rattle.disk_model.specs.Images.{IsImage};
ghost use Rattle.disk_model.specs.Meaning.{IsLong};
ghost use Rattle.disk_model.specs.Calls.{Kept, LeavesOnly, Looked};
ghost use Rattle.repo_journal.specs.declared.header.TheConstants.{EMPTY_SIZE};
ghost use Rattle.migration.specs.Answers.{is_exists_answer, is_new_fault, is_old_fault};
ghost use Rattle.migration.specs.Copying.{IsShort, IsUnfinished, IsUnmarked, LeavesEach, copied, records_in, unmarked_head};

use crate::fault::MigrateFault;
use blob_disk::Disk;
use ports::Failed;
use repo_journal::{FIRST_GATE, Journal, SECOND_MARK};

// How many bytes are read at once.
const BLOCK: usize = 16_384;

// A gate behind which nothing counts.
const CLOSED: u8 = 0;

// The header without its mark.
fn unmarked(capacity: u64) -> [u8; FIRST_GATE as usize]
    ensures { result ≡ unmarked_head capacity }
{
    let mut head = [0; FIRST_GATE as usize];
    head[8..16].copy_from_slice(&capacity.to_be_bytes());
    head
}

/// Puts a header without its mark on the disk, before any record is written. Until a sync a crash may leave any bytes where a write
/// went, a mark too: were the header and the records synced together, a mark could then stand over half of the records.
pub(crate) fn begin<E: Disk>(to: &mut E, capacity: u64) -> Result<(), Failed>
    ensures reads { OnOk result (IsTrue (E.meaning to.old).honest → (E.meaning to.old).state.reads ≡ [] → (E.meaning to.new).state.reads ≡ unmarked_head capacity) }
    ensures settled { OnOk result (IsTrue (E.meaning to.old).honest
        → (image : List ℕ) → IsImage (E.meaning to.new).state image → image ≡ (E.meaning to.new).state.reads) }
    ensures long { OnOk result (IsLong (E.meaning to.new).reads FIRST_GATE) }
    ensures crash { IsTrue (E.meaning to.old).honest → (E.meaning to.old).state.reads ≡ [] → LeavesEach IsShort (E.meaning to.old) (E.meaning to.new) }
    ensures kept { Kept (E.meaning to.old) (E.meaning to.new) }
    ensures faults { Counts (E.meaning to.old).faults (E.meaning to.new).faults (is_err result) }
    ensures quiet { ForSome (E.meaning to.old).quiet (λ most. FIRST_GATE ≤ most → IsOk result) }
{
    to.write_at(0, &unmarked(capacity))?;
    to.sync()?;
    Ok(())
}

/// Copies the records, in blocks, behind the header of the new file.
pub(crate) fn copy<D: Disk, E: Disk>(
    journal: &Journal,
    from: &mut D,
    to: &mut E,
) -> Result<(), MigrateFault>
    requires some { EMPTY_SIZE ≤ journal.now.size }
    requires long { IsLong (D.meaning from.old).reads journal.now.size }
    requires head { IsLong (E.meaning to.old).reads FIRST_GATE }
    ensures reads { OnOk result (IsTrue (D.meaning from.old).honest → IsTrue (E.meaning to.old).honest → length (E.meaning to.old).state.reads ≡ FIRST_GATE
        → (E.meaning to.new).state.reads ≡ (E.meaning to.old).state.reads ++ records_in journal.now.size (D.meaning from.old).state.reads) }
    ensures long { OnOk result (IsLong (E.meaning to.new).reads (journal.now.size - 1)) }
    ensures crash { IsTrue (E.meaning to.old).honest → ((image : List ℕ) → IsImage (E.meaning to.old).state image → IsUnmarked image)
        → LeavesEach IsUnmarked (E.meaning to.old) (E.meaning to.new) }
    ensures there { is_exists_answer result ≡ false }
    ensures kept { Kept (E.meaning to.old) (E.meaning to.new) }
    ensures looked { Looked (D.meaning from.old) (D.meaning from.new) }
    ensures from_kept { Kept (D.meaning from.old) (D.meaning from.new) }
    ensures from_time { IsTrue (D.meaning from.old).honest → LeavesOnly (IsImage (D.meaning from.new).state) (D.meaning from.old) (D.meaning from.new) }
    ensures faults { Counts (E.meaning to.old).faults (E.meaning to.new).faults (is_new_fault result) }
    ensures from_faults { Counts (D.meaning from.old).faults (D.meaning from.new).faults (is_old_fault result) }
    ensures quiet { ForSome (E.meaning to.old).quiet (λ most. journal.now.size ≤ most → is_new_fault result ≡ false) }
    ensures from_quiet { IsSome (D.meaning from.old).quiet → is_old_fault result ≡ false }
{
    let gate = journal.size() - 1;
    let mut block = [0; BLOCK];
    let mut at = FIRST_GATE;
    while at < gate {
        let count = (gate - at).min(BLOCK as u64) as usize;
        let part = &mut block[..count];
        if journal.read(from, at, part).is_err() {
            return Err(MigrateFault::OldFault);
        }
        if to.write_at(at, part).is_err() {
            return Err(MigrateFault::NewFault);
        }
        at += count as u64;
    }
    Ok(())
}

/// Writes the closing gate, and the mark once all before it is on the disk.
pub(crate) fn finish<E: Disk>(to: &mut E, gate: u64) -> Result<(), Failed>
    requires some { FIRST_GATE ≤ gate }
    requires fits { gate < 2 ^ 63 }
    requires long { IsLong (E.meaning to.old).reads gate }
    ensures file { OnOk result (IsTrue (E.meaning to.old).honest
        → (capacity : ℕ) (records : List ℕ) → (E.meaning to.old).state.reads ≡ unmarked_head capacity ++ records → length (E.meaning to.old).state.reads ≡ gate
        → (image : List ℕ) → IsImage (E.meaning to.new).state image → image ≡ copied capacity records) }
    ensures long { OnOk result (IsLong (E.meaning to.new).reads (gate + 1)) }
    ensures crash { IsTrue (E.meaning to.old).honest
        → (capacity : ℕ) (records : List ℕ) → (E.meaning to.old).state.reads ≡ unmarked_head capacity ++ records → length (E.meaning to.old).state.reads ≡ gate
        → ((image : List ℕ) → IsImage (E.meaning to.old).state image → IsUnmarked image)
        → LeavesEach (IsUnfinished (copied capacity records)) (E.meaning to.old) (E.meaning to.new) }
    ensures kept { Kept (E.meaning to.old) (E.meaning to.new) }
    ensures faults { Counts (E.meaning to.old).faults (E.meaning to.new).faults (is_err result) }
    ensures quiet { ForSome (E.meaning to.old).quiet (λ most. gate + 1 ≤ most → IsOk result) }
{
    to.write_at(gate, &[CLOSED])?;
    to.sync()?;
    to.write_at(0, &SECOND_MARK)?;
    to.sync()?;
    Ok(())
}
