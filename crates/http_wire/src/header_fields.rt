//! What the headers of a head say.
ghost use Rattle.std.specs.Prelude.{◌≡◌, ◌==◌, ◌||◌, length, map, codes, All};
ghost use Rattle.std.specs.List.{list_any};
ghost use Rattle.httparse.specs.Spans.{IsHeaderWithin, header_bytes};
ghost use Rattle.http_model.specs.Head.{caller_in, is_named, names_close, values_of};
ghost use Rattle.http_wire.specs.Callers.{caller_told};
ghost use Rattle.http_wire.specs.Lengths.{IsLength};

use crate::connection::names_close;
use crate::texts::{decimal, is_word};
use httparse::spans::HeaderSpan;

/// Whether there is a header of this name.
pub(crate) fn has_header(bytes: &[u8], headers: &[HeaderSpan], name: &[u8]) -> bool
    requires { All (IsHeaderWithin (length bytes.now)) headers.now }
    ensures { result ≡ list_any (is_named name.now) (map (header_bytes bytes.now) headers.now) }
{
    'headers: for header in headers {
        if is_word(header.name.of(bytes), name) {
            return true;
        }
    }
    false
}

/// Whether a `Connection` header asks to close.
pub(crate) fn asks_to_close(bytes: &[u8], headers: &[HeaderSpan]) -> bool
    requires { All (IsHeaderWithin (length bytes.now)) headers.now }
    ensures { result ≡ list_any names_close (values_of (codes "connection") (map (header_bytes bytes.now) headers.now)) }
{
    'headers: for header in headers {
        if is_word(header.name.of(bytes), b"connection") && names_close(header.value.of(bytes)) {
            return true;
        }
    }
    false
}

/// What the `Content-Length` headers say.
#[derive(Clone, Copy, Debug, PartialEq, Eq)]
pub(crate) enum Length {
    /// There is none.
    Absent,
    /// The one says this number, or a greater one where it is over the most bytes of a body.
    Given(usize),
    /// There are several, or the one is no decimal number.
    Bad,
}

/// Reads the `Content-Length` headers.
pub(crate) fn length_given(bytes: &[u8], headers: &[HeaderSpan]) -> Length
    requires { All (IsHeaderWithin (length bytes.now)) headers.now }
    ensures { IsLength (values_of (codes "content-length") (map (header_bytes bytes.now) headers.now)) result }
{
    let mut found: Option<&[u8]> = None;
    'headers: for header in headers {
        if is_word(header.name.of(bytes), b"content-length") {
            if found.is_some() {
                return Length::Bad;
            }
            found = Some(header.value.of(bytes));
        }
    }
    let Some(text) = found else {
        return Length::Absent;
    };
    match decimal(text) {
        Some(n) => Length::Given(n),
        None => Length::Bad,
    }
}

/// What the `Caller` headers say, as they stand in a head.
#[derive(Clone, Copy, Debug, PartialEq, Eq)]
pub(crate) enum CallerText<'a> {
    /// There is none.
    Absent,
    /// The one has this value.
    Given(&'a [u8]),
    /// There are several.
    Several,
}

/// Reads the `Caller` headers.
pub(crate) fn caller_given<'a>(bytes: &'a [u8], headers: &[HeaderSpan]) -> CallerText<'a>
    requires { All (IsHeaderWithin (length bytes.now)) headers.now }
    ensures { caller_told result ≡ caller_in (values_of (codes "caller") (map (header_bytes bytes.now) headers.now)) }
{
    let mut found: Option<&'a [u8]> = None;
    'headers: for header in headers {
        if is_word(header.name.of(bytes), b"caller") {
            if found.is_some() {
                return CallerText::Several;
            }
            found = Some(header.value.of(bytes));
        }
    }
    match found {
        Some(text) => CallerText::Given(text),
        None => CallerText::Absent,
    }
}
