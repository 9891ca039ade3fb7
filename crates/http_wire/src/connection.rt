//! The options of a `Connection` header (RFC 9110, section 7.6.1).
ghost use Rattle.std.specs.Prelude.{◌≡◌};
ghost use Rattle.http_model.specs.Head.{is_close, names_close};

use crate::texts::{is_word, trimmed};

fn is_close(element: &[u8]) -> bool
    ensures { result ≡ is_close element.now }
{
    is_word(trimmed(element), b"close")
}

/// Whether the comma list has the element `close`, in any case and with any blanks round it.
pub(crate) fn names_close(value: &[u8]) -> bool
    ensures { result ≡ names_close value.now }
{
    let mut rest = value;
    'elements: while let Some(comma) = rest.iter().position(|b| *b == b',') {
        if is_close(&rest[..comma]) {
            return true;
        }
        rest = &rest[comma + 1..];
    }
    is_close(rest)
}
