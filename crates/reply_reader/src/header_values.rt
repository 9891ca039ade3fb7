//! The values of a head's headers.
ghost use Rattle.std.specs.Prelude.{◌≡◌, ◌+◌, ◌≤◌, length, map, min, true, false, All, IfSome, IsNone};
ghost use Rattle.std.specs.Str.{str_eq_ignore_ascii_case};
ghost use Rattle.std.specs.Str.Parse.{digits_value};
ghost use Rattle.httparse.specs.Spans.{IsHeaderWithin, header_bytes};
ghost use Rattle.http_model.specs.Head.{is_decimal, values_of};
ghost use Rattle.reply_reader.specs.Heads.{IsNamed};

use httparse::spans::HeaderSpan;

/// The most bytes of any body, which is the greatest limit that a reader may set.
pub const MOST_BODY: usize = 67_108_864;

/// The values of the headers of one name.
#[derive(Clone, Copy)]
pub(crate) enum Named<'a> {
    /// There is none.
    Absent,
    /// There is this one.
    One(&'a [u8]),
    /// There are more.
    Several,
}

fn is_word(text: &[u8], word: &[u8]) -> bool
    ensures { result ≡ str_eq_ignore_ascii_case text.now word.now }
{
    text.eq_ignore_ascii_case(word)
}

/// Looks for the headers of this name, in any case.
pub(crate) fn values_named<'a>(bytes: &'a [u8], headers: &[HeaderSpan], name: &[u8]) -> Named<'a>
    requires { All (IsHeaderWithin (length bytes.now)) headers.now }
    ensures { IsNamed (values_of name.now (map (header_bytes bytes.now) headers.now)) result }
{
    let mut found: Option<&[u8]> = None;
    'headers: for header in headers {
        if is_word(header.name.of(bytes), name) {
            if found.is_some() {
                return Named::Several;
            }
            found = Some(header.value.of(bytes));
        }
    }
    match found {
        Some(text) => Named::One(text),
        None => Named::Absent,
    }
}

/// The number that decimal digits write, or `limit + 1` where it is greater.
pub(crate) fn decimal(text: &[u8], limit: usize) -> Option<usize>
    requires { limit ≤ MOST_BODY }
    ensures value { IfSome result (λ n. (is_decimal text.now ≡ true) × (n ≡ min (digits_value 10 text.now) (limit + 1))) }
    ensures none { IsNone result → is_decimal text.now ≡ false }
{
    if text.is_empty() {
        return None;
    }
    let mut value = 0;
    'digits: for digit in text {
        if !digit.is_ascii_digit() {
            return None;
        }
        value = (value * 10 + usize::from(*digit - b'0')).min(limit + 1);
    }
    Some(value)
}
