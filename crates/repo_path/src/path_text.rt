//! Paths as texts: the elements with a slash between each two.
ghost use Rattle.std.specs.Prelude.{◌≡◌, ◌==◌, if◌then◌else◌, ◌+◌, position};
ghost use Rattle.changeset_model.specs.Path.{elements, element_fault, path_fault, comparable as are_comparable, is_strict_prefix, path_cmp};

use crate::element::is_element;
use std::cmp::Ordering;

/// The most bytes of a path.
pub const LONGEST_PATH: usize = 4096;

/// Where a text first breaks the rules of a path.
pub(crate) fn path_fault_of(text: &[u8]) -> Option<usize>
    ensures { result ≡ path_fault text.now }
{
    if text.len() > LONGEST_PATH {
        return Some(LONGEST_PATH);
    }
    element_fault_of(text)
}

// The place of the first element that breaks the rules of one.
fn element_fault_of(text: &[u8]) -> Option<usize>
    ensures { result ≡ element_fault 0 (elements text.now) }
{
    let mut start = 0;
    while let Some(len) = first_slash(&text[start..]) {
        if !is_element(&text[start..start + len]) {
            return Some(start);
        }
        start += len + 1;
    }
    if is_element(&text[start..]) {
        None
    } else {
        Some(start)
    }
}

// The place of the first slash.
fn first_slash(text: &[u8]) -> Option<usize>
    ensures { result ≡ position (λ b. b == 0x2F) text.now }
{
    text.iter().position(|b| *b == b'/')
}

/// Whether a path lies under the one above, and isn't that one.
pub(crate) fn lies_under(text: &[u8], above: &[u8]) -> bool
    ensures { result ≡ is_strict_prefix (elements above.now) (elements text.now) }
{
    match text.strip_prefix(above) {
        Some(rest) => rest.starts_with(b"/".as_slice()),
        None => false,
    }
}

/// Whether two paths are equal or one lies under the other.
pub(crate) fn comparable(left: &[u8], right: &[u8]) -> bool
    ensures { result ≡ are_comparable (elements left.now) (elements right.now) }
{
    if left == right {
        return true;
    }
    lies_under(right, left) || lies_under(left, right)
}

/// The order of two paths, element by element. Where their texts part, one of them ends first or has the lower byte, and
/// a slash, which ends an element, is below every other byte.
pub(crate) fn compare(left: &[u8], right: &[u8]) -> Ordering
    ensures { result ≡ path_cmp (elements left.now) (elements right.now) }
{
    for i in 0..left.len().min(right.len()) {
        if left[i] != right[i] {
            return rank(left[i]).cmp(&rank(right[i]));
        }
    }
    left.len().cmp(&right.len())
}

// The place of a byte in the order of texts.
fn rank(byte: u8) -> u16
    ensures { result ≡ (if byte == 0x2F then 0 else byte + 1) }
{
    if byte == b'/' { 0 } else { byte as u16 + 1 }
}
