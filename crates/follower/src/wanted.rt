//! What is asked of a server.
ghost use Rattle.std.specs.Prelude.{◌≡◌, ◌++◌, ◌≤◌, IfOk, OnOk, decimal};
ghost use Rattle.hex.specs.Hex.{encode_lower};
ghost use Rattle.reply_reader.specs.declared.header_values.TheConstants.{MOST_BODY as LONGEST};
ghost use Rattle.follower.specs.Wanting.{target, limit_of, question_text};

use itoa::Buffer;
use object_id::Id;
use reply_reader::MOST_BODY;
use std::alloc::{AllocError, Global};

/// The most bytes of a body that is no content's.
const MOST_OTHER: usize = 8_388_608;

/// What is asked of a server.
#[derive(Clone, Copy, Debug, PartialEq, Eq)]
pub enum Wanted {
    /// A page of the log, from this number on.
    Page(u64),
    /// The bytes of a content.
    Content(Id),
    /// The encoding of a changeset.
    Changeset(Id),
    /// The text of the policy that has this number in the log.
    Policy(u64),
}

/// The most bytes of what may be replied.
pub(crate) fn most_bytes(wanted: &Wanted) -> usize
    ensures value { result ≡ limit_of wanted.now }
    ensures bound { result ≤ LONGEST }
{
    match wanted {
        Wanted::Content(_) => MOST_BODY,
        Wanted::Page(_) | Wanted::Changeset(_) | Wanted::Policy(_) => MOST_OTHER,
    }
}

// Adds a word and a number.
fn put_number(out: &mut Vec<u8>, word: &[u8], number: u64) -> Result<(), AllocError>
    ensures { OnOk result (out.new.items ≡ out.old.items ++ (word.now ++ decimal number)) }
{
    out.extend_from_slice(word)?;
    let mut digits = Buffer::new();
    out.extend_from_slice(digits.format(number).as_bytes())
}

// Adds a word and an id.
fn put_id(out: &mut Vec<u8>, word: &[u8], id: &Id) -> Result<(), AllocError>
    ensures { OnOk result (out.new.items ≡ out.old.items ++ (word.now ++ encode_lower id.now)) }
{
    out.extend_from_slice(word)?;
    let mut digits = [0; 64];
    id.write_hex(&mut digits);
    out.extend_from_slice(&digits)
}

// Adds what the request is for.
fn put_target(out: &mut Vec<u8>, wanted: &Wanted) -> Result<(), AllocError>
    ensures { OnOk result (out.new.items ≡ out.old.items ++ target wanted.now) }
{
    match wanted {
        Wanted::Page(from) => put_number(out, b"/log/", *from),
        Wanted::Content(id) => put_id(out, b"/content/", id),
        Wanted::Changeset(id) => put_id(out, b"/changeset/", id),
        Wanted::Policy(number) => put_number(out, b"/policy/", *number),
    }
}

/// The text of the request.
pub(crate) fn request(alloc: Global, wanted: &Wanted) -> Result<Vec<u8>, AllocError>
    ensures { IfOk result (λ text. text.items ≡ question_text wanted.now) }
{
    let mut out = Vec::new(alloc);
    out.extend_from_slice(b"GET ")?;
    put_target(&mut out, wanted)?;
    out.extend_from_slice(b" HTTP/1.1\r\nHost:\r\n\r\n")?;
    Ok(out)
}
