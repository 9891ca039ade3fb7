//! What was read for a content, and whether it is the content.
ghost use Rattle.std.specs.Prelude.{◌≡◌, ◌≢◌, false, IfOk, IfErr};
ghost use Rattle.sha2.specs.Sha256.{sha256};
ghost use Rattle.repo_calls.specs.Asking.{is_early, is_read_fault};
ghost use Rattle.repo_state.specs.Asking.{other_part, told_other};

use content_table::Part;
use object_id::Id;
use repo_calls::AskFault;

/// The bytes that were read for a content, and of one that was joined its parts, in order.
#[derive(Drop)]
pub struct ReadContent {
    pub bytes: Vec<u8>,
    pub parts: Vec<Part>,
}

/// The bytes, if they have the id that is wanted. Else the first part is told whose bytes have another id, or the whole.
pub fn check_digest(read: ReadContent, wanted: Id) -> Result<Vec<u8>, AskFault>
    ensures ok { IfOk result (λ same. (same.items ≡ read.bytes.items) × (sha256 read.bytes.items ≡ wanted)) }
    ensures asked { is_early result ≡ false }
    ensures read { is_read_fault result ≡ false }
    ensures err { IfErr result (λ fault. (fault ≡ told_other wanted read.parts.items read.bytes.items) × (sha256 read.bytes.items ≢ wanted)) }
{
    let ReadContent { bytes, parts } = read;
    let found = Id::of(&bytes);
    if found == wanted {
        return Ok(bytes);
    }
    match first_other(&parts, &bytes) {
        Some(fault) => Err(fault),
        None => Err(AskFault::BadBytes { wanted, found }),
    }
}

// The first part whose bytes have another id.
fn first_other(parts: &[Part], bytes: &[u8]) -> Option<AskFault>
    ensures { result ≡ other_part parts.now bytes.now }
{
    let mut rest = bytes;
    for part in parts {
        let length = (part.place.length as usize).min(rest.len());
        let (own, behind) = rest.split_at(length);
        let found = Id::of(own);
        if found != part.id {
            return Some(AskFault::BadBytes {
                wanted: part.id,
                found,
            });
        }
        rest = behind;
    }
    None
}
