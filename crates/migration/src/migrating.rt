//! Copies the records of a file into a new one.
ghost use Rattle.std.specs.Prelude.{◌≡◌, ◌≤◌, ℕ, List, [], false, length, IsSome, IsTrue, IfErr, OnOk};
ghost use Rattle.std.specs.Option.{ForSome};
ghost use Rattle.ports.specs.Faults.{Counts};
ghost use Rattle.disk_model.specs.Images.{IsImage};
ghost use Rattle.disk_model.specs.Meaning.{IsLong};
ghost use Rattle.disk_model.specs.Calls.{Kept, LeavesOnly, Looked};
ghost use Rattle.history_model.specs.History.{Entry};
ghost use Rattle.history_model.specs.Journal.{Header, Keeps, Stands, size};
ghost use Rattle.repo_journal.specs.declared.header.TheConstants.{EMPTY_SIZE};
ghost use Rattle.migration.specs.Answers.{TellsBytes, is_exists_answer, is_new_fault, is_old_fault};
ghost use Rattle.migration.specs.Copying.{IsUnfinished, LeavesEach, copied, in_second, records_in};

use crate::copying::{begin, copy, finish};
use crate::fault::MigrateFault;
use blob_disk::Disk;
use repo_journal::Journal;

/// Makes a file of the second version in an empty file, with the capacity and the records of an open one. A header without its
/// mark is on the disk before the records, and these are before the mark is written. It takes no memory.
pub fn migrate<D: Disk, E: Disk>(
    journal: &Journal,
    from: &mut D,
    to: &mut E,
) -> Result<(), MigrateFault>
    requires some { EMPTY_SIZE ≤ journal.now.size }
    requires long { IsLong (D.meaning from.old).reads journal.now.size }

    // Every image stands for the history that the open file stands for, in the second version.
    ensures stands { OnOk result (IsTrue (D.meaning from.old).honest → IsTrue (E.meaning to.old).honest
        → (header : Header) (h : List Entry) → header.capacity ≡ journal.now.capacity → size h ≡ journal.now.size
        → Stands header (D.meaning from.old).state.reads h → Keeps (in_second header.capacity) (IsImage (E.meaning to.new).state) h) }
    ensures file { OnOk result (IsTrue (D.meaning from.old).honest → IsTrue (E.meaning to.old).honest
        → (image : List ℕ) → IsImage (E.meaning to.new).state image
        → image ≡ copied journal.now.capacity (records_in journal.now.size (D.meaning from.old).state.reads)) }
    ensures long { OnOk result (IsLong (E.meaning to.new).reads journal.now.size) }

    // A crash at any moment leaves no other history.
    ensures crash { IsTrue (D.meaning from.old).honest → IsTrue (E.meaning to.old).honest → (E.meaning to.old).state.reads ≡ []
        → LeavesEach (IsUnfinished (copied journal.now.capacity (records_in journal.now.size (D.meaning from.old).state.reads))) (E.meaning to.old) (E.meaning to.new) }

    // A file with bytes in it is refused, and stays as it was.
    ensures empty { OnOk result (ForSome (E.meaning to.old).reads (λ file. length file ≡ 0)) }
    ensures exists { IfErr result (TellsBytes (E.meaning to.old)) }
    ensures refused { IsTrue (is_exists_answer result) → Looked (E.meaning to.old) (E.meaning to.new) }
    ensures time { IsTrue (is_exists_answer result) → LeavesOnly (IsImage (E.meaning to.new).state) (E.meaning to.old) (E.meaning to.new) }
    ensures kept { Kept (E.meaning to.old) (E.meaning to.new) }

    // The open file is only read.
    ensures looked { Looked (D.meaning from.old) (D.meaning from.new) }
    ensures from_kept { Kept (D.meaning from.old) (D.meaning from.new) }
    ensures from_time { IsTrue (D.meaning from.old).honest → LeavesOnly (IsImage (D.meaning from.new).state) (D.meaning from.old) (D.meaning from.new) }

    // It fails only where a call of that disk did.
    ensures faults { Counts (E.meaning to.old).faults (E.meaning to.new).faults (is_new_fault result) }
    ensures from_faults { Counts (D.meaning from.old).faults (D.meaning from.new).faults (is_old_fault result) }
    ensures quiet { ForSome (E.meaning to.old).quiet (λ most. journal.now.size ≤ most → is_new_fault result ≡ false) }
    ensures from_quiet { IsSome (D.meaning from.old).quiet → is_old_fault result ≡ false }
{
    match to.size() {
        Ok(0) => {}
        Ok(size) => return Err(MigrateFault::Exists { size }),
        Err(_) => return Err(MigrateFault::NewFault),
    }
    fill(journal, from, to)
}

// The same of a file that is known to be empty.
fn fill<D: Disk, E: Disk>(journal: &Journal, from: &mut D, to: &mut E) -> Result<(), MigrateFault>
    requires some { EMPTY_SIZE ≤ journal.now.size }
    requires long { IsLong (D.meaning from.old).reads journal.now.size }
    ensures file { OnOk result (IsTrue (D.meaning from.old).honest → IsTrue (E.meaning to.old).honest → (E.meaning to.old).state.reads ≡ []
        → (image : List ℕ) → IsImage (E.meaning to.new).state image
        → image ≡ copied journal.now.capacity (records_in journal.now.size (D.meaning from.old).state.reads)) }
    ensures long { OnOk result (IsLong (E.meaning to.new).reads journal.now.size) }
    ensures crash { IsTrue (D.meaning from.old).honest → IsTrue (E.meaning to.old).honest → (E.meaning to.old).state.reads ≡ []
        → LeavesEach (IsUnfinished (copied journal.now.capacity (records_in journal.now.size (D.meaning from.old).state.reads))) (E.meaning to.old) (E.meaning to.new) }
    ensures there { is_exists_answer result ≡ false }
    ensures kept { Kept (E.meaning to.old) (E.meaning to.new) }
    ensures looked { Looked (D.meaning from.old) (D.meaning from.new) }
    ensures from_kept { Kept (D.meaning from.old) (D.meaning from.new) }
    ensures from_time { IsTrue (D.meaning from.old).honest → LeavesOnly (IsImage (D.meaning from.new).state) (D.meaning from.old) (D.meaning from.new) }
    ensures faults { Counts (E.meaning to.old).faults (E.meaning to.new).faults (is_new_fault result) }
    ensures from_faults { Counts (D.meaning from.old).faults (D.meaning from.new).faults (is_old_fault result) }
    ensures quiet { ForSome (E.meaning to.old).quiet (λ most. journal.now.size ≤ most → is_new_fault result ≡ false) }
    ensures from_quiet { IsSome (D.meaning from.old).quiet → is_old_fault result ≡ false }
{
    if begin(to, journal.capacity()).is_err() {
        return Err(MigrateFault::NewFault);
    }
    copy(journal, from, to)?;
    match finish(to, journal.size() - 1) {
        Ok(()) => Ok(()),
        Err(_) => Err(MigrateFault::NewFault),
    }
}
