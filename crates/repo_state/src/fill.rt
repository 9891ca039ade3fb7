//! Reads bytes of a file.
ghost use Rattle.std.specs.Prelude.{◌≡◌, ◌≤◌, ◌<◌, ◌+◌, ◌-◌, false, length, take, drop, sum_by, is_err, IfOk, IfSome, IsSome, IsTrue, OnOk};
ghost use Rattle.std.specs.Option.{ForSome};
ghost use Rattle.std.specs.List.{All};
ghost use Rattle.byte_fields.specs.Bytes.{IsBytes};
ghost use Rattle.ports.specs.Faults.{Counts};
ghost use Rattle.disk_model.specs.Images.{IsImage};
ghost use Rattle.disk_model.specs.Meaning.{IsLong};
ghost use Rattle.disk_model.specs.Calls.{Kept, LeavesOnly, Looked};
ghost use Rattle.repo_state.specs.Filling.{AreFilled, IsPartWithin, IsPlaceWithin, part_len};

use blob_disk::Disk;
use content_table::{Part, Place};
use repo_journal::{DiskFault, Journal};

// As many bytes as the buffer has, from this place on: those of the file, or those that wait behind it.
pub(crate) fn fill<D: Disk>(
    journal: &Journal,
    disk: &mut D,
    at: u64,
    mut buffer: Vec<u8>,
) -> Result<Vec<u8>, DiskFault>
    requires inside { at + length buffer.items ≤ journal.now.size + length journal.now.pending.bytes }
    requires apart { at < journal.now.size → at + length buffer.items ≤ journal.now.size }
    requires long { IsLong (D.meaning disk.old).reads journal.now.size }
    ensures bytes { IfOk result (λ bytes. at < journal.now.size → ForSome (D.meaning disk.old).reads (λ file. bytes.items ≡ take (length buffer.items) (drop at file))) }

    // What waits is read without the disk.
    ensures waiting { IfOk result (λ bytes. journal.now.size ≤ at → bytes.items ≡ take (length buffer.items) (drop (at - journal.now.size) journal.now.pending.bytes)) }
    ensures there { journal.now.size ≤ at → is_err result ≡ false }
    ensures still { journal.now.size ≤ at → D.meaning disk.new ≡ D.meaning disk.old }
    ensures length { IfOk result (λ bytes. length bytes.items ≡ length buffer.items) }
    ensures looked { Looked (D.meaning disk.old) (D.meaning disk.new) }
    ensures kept { Kept (D.meaning disk.old) (D.meaning disk.new) }
    ensures leaves { LeavesOnly (IsImage (D.meaning disk.new).state) (D.meaning disk.old) (D.meaning disk.new) }
    ensures faults { Counts (D.meaning disk.old).faults (D.meaning disk.new).faults (is_err result) }
    ensures quiet { IsSome (D.meaning disk.old).quiet → is_err result ≡ false }
{
    match journal.read(disk, at, &mut buffer) {
        Ok(()) => Ok(buffer),
        Err(fault) => Err(fault),
    }
}

// How many bytes the parts have, where so many can be counted.
pub(crate) fn total(parts: &[Part]) -> Option<u64>
    ensures { IfSome result (λ n. n ≡ sum_by part_len parts.now) }
{
    let mut sum = 0_u64;
    for part in parts {
        sum = sum.checked_add(part.place.length)?;
    }
    Some(sum)
}

// Fills a buffer of as many bytes with those of the parts, one behind another.
pub(crate) fn fill_parts<D: Disk>(
    journal: &Journal,
    disk: &mut D,
    parts: &[Part],
    buffer: &mut [u8],
) -> Result<(), DiskFault>
    requires within { All (IsPartWithin journal.now) parts.now }
    requires total { length buffer.old ≡ sum_by part_len parts.now }
    requires long { IsLong (D.meaning disk.old).reads journal.now.size }
    ensures filled { OnOk result (AreFilled journal.now (D.meaning disk.old) parts.now buffer.new) }
    ensures looked { Looked (D.meaning disk.old) (D.meaning disk.new) }
    ensures kept { Kept (D.meaning disk.old) (D.meaning disk.new) }
    ensures leaves { IsTrue (D.meaning disk.old).honest → LeavesOnly (IsImage (D.meaning disk.new).state) (D.meaning disk.old) (D.meaning disk.new) }
    ensures faults { Counts (D.meaning disk.old).faults (D.meaning disk.new).faults (is_err result) }
    ensures quiet { IsSome (D.meaning disk.old).quiet → is_err result ≡ false }
{
    let mut done = 0;
    for part in parts {
        fill_place(journal, disk, part.place, buffer, done)?;
        done += part.place.length as usize;
    }
    Ok(())
}

// The bytes at a place, put into the buffer from this one of its bytes on.
fn fill_place<D: Disk>(
    journal: &Journal,
    disk: &mut D,
    place: Place,
    buffer: &mut [u8],
    from: usize,
) -> Result<(), DiskFault>
    requires room { from + place.length ≤ length buffer.old }
    requires within { IsPlaceWithin journal.now place }
    requires long { IsLong (D.meaning disk.old).reads journal.now.size }
    ensures before { OnOk result (take from buffer.new ≡ take from buffer.old) }
    ensures length { length buffer.new ≡ length buffer.old }
    ensures bytes { OnOk result (IsBytes (take place.length (drop from buffer.new))) }
    ensures there { OnOk result (place.at < journal.now.size → ForSome (D.meaning disk.old).reads (λ file. take place.length (drop from buffer.new) ≡ take place.length (drop place.at file))) }
    ensures waiting { OnOk result (journal.now.size ≤ place.at → take place.length (drop from buffer.new) ≡ take place.length (drop (place.at - journal.now.size) journal.now.pending.bytes)) }
    ensures looked { Looked (D.meaning disk.old) (D.meaning disk.new) }
    ensures kept { Kept (D.meaning disk.old) (D.meaning disk.new) }
    ensures leaves { LeavesOnly (IsImage (D.meaning disk.new).state) (D.meaning disk.old) (D.meaning disk.new) }
    ensures faults { Counts (D.meaning disk.old).faults (D.meaning disk.new).faults (is_err result) }
    ensures quiet { IsSome (D.meaning disk.old).quiet → is_err result ≡ false }
{
    let end = from + place.length as usize;
    journal.read(disk, place.at, &mut buffer[from..end])
}
