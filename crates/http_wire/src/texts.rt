//! Texts of a head.
ghost use Rattle.std.specs.Prelude.{◌≡◌, ◌+◌, reverse, min, true, false, IfSome, IsNone};
ghost use Rattle.std.specs.Str.{str_eq_ignore_ascii_case};
ghost use Rattle.std.specs.Str.Parse.{digits_value};
ghost use Rattle.httparse.specs.Grammar.{is_ows, skip_ows, trim_ows};
ghost use Rattle.http_model.specs.Head.{is_decimal, most_body, path_of};

/// The most bytes of a body.
pub(crate) const MOST_BODY: usize = 1_048_576;

fn is_blank(byte: u8) -> bool
    ensures { result ≡ is_ows byte }
{
    byte == b' ' || byte == b'\t'
}

fn without_front_blanks(text: &[u8]) -> &[u8]
    ensures { result.now ≡ skip_ows text.now }
{
    let mut rest = text;
    'blanks: while !rest.is_empty() && is_blank(rest[0]) {
        rest = &rest[1..];
    }
    rest
}

fn without_back_blanks(text: &[u8]) -> &[u8]
    ensures { result.now ≡ reverse (skip_ows (reverse text.now)) }
{
    let mut rest = text;
    'blanks: while !rest.is_empty() && is_blank(rest[rest.len() - 1]) {
        rest = &rest[..rest.len() - 1];
    }
    rest
}

/// The text without the spaces and tabs round it.
pub(crate) fn trimmed(text: &[u8]) -> &[u8]
    ensures { result.now ≡ trim_ows text.now }
{
    without_back_blanks(without_front_blanks(text))
}

/// Whether the text is the word, in any case.
pub(crate) fn is_word(text: &[u8], word: &[u8]) -> bool
    ensures { result ≡ str_eq_ignore_ascii_case text.now word.now }
{
    text.eq_ignore_ascii_case(word)
}

/// The number that decimal digits write, or `MOST_BODY + 1` where it is greater.
pub(crate) fn decimal(text: &[u8]) -> Option<usize>
    ensures value { IfSome result (λ n. (is_decimal text.now ≡ true) × (n ≡ min (digits_value 10 text.now) (most_body + 1))) }
    ensures none { IsNone result → is_decimal text.now ≡ false }
{
    if text.is_empty() {
        return None;
    }
    let mut value = 0;
    'digits: for digit in text {
        if !digit.is_ascii_digit() {
            return None;
        }
        value = (value * 10 + usize::from(*digit - b'0')).min(MOST_BODY + 1);
    }
    Some(value)
}

/// The target before any `?`.
pub(crate) fn path_of(target: &[u8]) -> &[u8]
    ensures { result.now ≡ path_of target.now }
{
    match target.iter().position(|b| *b == b'?') {
        Some(mark) => &target[..mark],
        None => target,
    }
}
