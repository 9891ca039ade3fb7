//! Where a head begins, and where it ends.
ghost use Rattle.std.specs.Prelude.{◌≡◌, ◌+◌, ◌<◌, ◌≤◌, ℕ, length, take, drop, false, IfSome, IsNone};
ghost use Rattle.http_model.specs.Stream.{skip_blank, ends_head, IsHeadEnd, most_head};

use crate::head::MOST_HEAD;

/// The length of the empty line that the bytes begin with, or 0 where they begin with none.
fn line_len(bytes: &[u8]) -> usize
    ensures within { result ≤ length bytes.now }
    ensures line { 0 < result → skip_blank (drop result bytes.now) ≡ skip_blank bytes.now }
    ensures none { result ≡ 0 → skip_blank bytes.now ≡ bytes.now }
{
    if !bytes.is_empty() && bytes[0] == b'\n' {
        return 1;
    }
    if bytes.len() > 1 && bytes[0] == b'\r' && bytes[1] == b'\n' {
        return 2;
    }
    0
}

/// The length of the empty lines that the bytes begin with.
pub(crate) fn blank_len(bytes: &[u8]) -> usize
    ensures within { result ≤ length bytes.now }
    ensures skipped { skip_blank bytes.now ≡ drop result bytes.now }
{
    let mut at = 0;
    'lines: loop {
        let line = line_len(&bytes[at..]);
        if line == 0 {
            return at;
        }
        at += line;
    }
}

fn ends_head(bytes: &[u8]) -> bool
    ensures { result ≡ ends_head bytes.now }
{
    bytes.ends_with(b"\n\n") || bytes.ends_with(b"\n\r\n")
}

/// Whether a head ends with the byte at this place.
#[inline]
fn ends_head_at(bytes: &[u8], at: usize) -> bool
    requires { at < length bytes.now }
    ensures { result ≡ ends_head (take (at + 1) bytes.now) }
{
    // Most bytes end no line.
    bytes[at] == b'\n' && ends_head(&bytes[..at + 1])
}

/// The length of the head that the bytes begin with. No front of `scanned` bytes or fewer ends one.
pub(crate) fn head_len(bytes: &[u8], scanned: usize) -> Option<usize>
    requires within { scanned ≤ length bytes.now }
    requires none_before { (n : ℕ) → n ≤ scanned → ends_head (take n bytes.now) ≡ false }
    ensures end { IfSome result (λ len. IsHeadEnd bytes.now len) }
    ensures fits { IfSome result (λ len. len ≤ most_head) }
    ensures none { IsNone result → (n : ℕ) → n ≤ most_head → ends_head (take n bytes.now) ≡ false }
{
    let limit = bytes.len().min(MOST_HEAD);
    'fronts: for len in scanned..limit {
        if ends_head_at(bytes, len) {
            return Some(len + 1);
        }
    }
    None
}
