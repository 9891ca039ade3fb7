//! The header of a file.
ghost use Rattle.std.specs.Prelude.{◌≡◌, ◌≤◌, length, false, IfOk, IsSome, IsTrue, MatchResult};
ghost use Rattle.disk_model.specs.Meaning.{IsLong};
ghost use Rattle.disk_model.specs.Calls.{Looked};
ghost use Rattle.history_model.specs.Journal.{is_header};
ghost use Rattle.recovery.specs.Answers.{is_disk_fault, IsRefused};
ghost use Rattle.recovery.specs.Headers.{header_in, header_view, version_marked, IsHeaded};
ghost use Rattle.recovery.specs.Settling.{Spares};

use crate::fault::OpenFault;
use blob_disk::Disk;
use bonsai::Version;
use repo_journal::{EMPTY_SIZE, LEAST_CAPACITY, MARK, MOST_CAPACITY, SECOND_MARK};

/// What the header of a file tells: the most bytes that it may have, and its version.
#[derive(Clone, Copy)]
pub(crate) struct Header {
    pub capacity: u64,
    pub version: Version,
}

// Where the capacity stands.
const CAPACITY_AT: u64 = 8;

/// Reads the header of a file of this size.
pub(crate) fn read_header<D: Disk>(disk: &mut D, size: u64) -> Result<Header, OpenFault>
    requires { IsLong (D.meaning disk.old).reads size }
    ensures headed { IsTrue (D.meaning disk.old).honest → size ≡ length (D.meaning disk.old).state.reads
        → MatchResult result (λ header. IsHeaded (header_view header) (D.meaning disk.old).state.reads) (IsRefused (D.meaning disk.old).state.reads) }
    ensures limits { IfOk result (λ header. IsTrue (is_header (header_view header))) }
    ensures long { IfOk result (λ header. EMPTY_SIZE ≤ size) }
    ensures looked { Looked (D.meaning disk.old) (D.meaning disk.new) }
    ensures spares { Spares (D.meaning disk.old) (D.meaning disk.new) (is_disk_fault result) }
    ensures quiet { IsSome (D.meaning disk.old).quiet → is_disk_fault result ≡ false }
{
    if size < EMPTY_SIZE {
        return Err(OpenFault::NotARepository);
    }
    let mut head = [0; 16];
    if disk.read_at(0, &mut head).is_err() {
        return Err(OpenFault::DiskFault);
    }
    header_of(&head)
}

// The header in the first 16 bytes.
fn header_of(head: &[u8; 16]) -> Result<Header, OpenFault>
    ensures { result ≡ header_in head.now }
{
    let Some(version) = version_of(&head[..8]) else {
        return Err(OpenFault::NotARepository);
    };
    let mut field = [0; 8];
    field.copy_from_slice(&head[8..]);
    let capacity = u64::from_be_bytes(field);
    if capacity < LEAST_CAPACITY || capacity > MOST_CAPACITY {
        return Err(OpenFault::Damaged { at: CAPACITY_AT });
    }
    Ok(Header { capacity, version })
}

// The version of which this is the mark.
fn version_of(mark: &[u8]) -> Option<Version>
    ensures { result ≡ version_marked mark.now }
{
    if mark == MARK.as_slice() {
        Some(Version::First)
    } else if mark == SECOND_MARK.as_slice() {
        Some(Version::Second)
    } else {
        None
    }
}
