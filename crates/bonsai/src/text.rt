//! Bytes that are text.
ghost use Rattle.std.specs.Prelude.{◌≡◌, not, ◌&&◌, ◌==◌, IfSome, IfNone, false, true};
ghost use Rattle.std.specs.List.{list_all};
ghost use Rattle.byte_fields.specs.Bytes.{is_text, is_line};

use std::str;

/// The bytes as text, if they are UTF-8.
pub(crate) fn text_of(bytes: &[u8]) -> Option<&str>
    ensures text { IfSome result (λ s. (s.now ≡ bytes.now) × (is_text bytes.now ≡ true)) }
    ensures none { IfNone result (is_text bytes.now ≡ false) }
{
    match str::from_utf8(bytes) {
        Ok(text) => Some(text),
        Err(_) => None,
    }
}

/// The bytes as text of one line: UTF-8 without the bytes 00 and 0A.
pub(crate) fn line_of(bytes: &[u8]) -> Option<&str>
    ensures text { IfSome result (λ s. (s.now ≡ bytes.now) × (is_line bytes.now ≡ true)) }
    ensures none { IfNone result (is_line bytes.now ≡ false) }
{
    if !is_unbroken(bytes) {
        return None;
    }
    text_of(bytes)
}

fn is_unbroken(bytes: &[u8]) -> bool
    ensures { result ≡ list_all (λ b. not (b == 0x00) && not (b == 0x0A)) bytes.now }
{
    bytes.iter().all(|b| *b != 0 && *b != b'\n')
}
