//! Numbers as words.
ghost use Rattle.std.specs.Prelude.{◌≡◌, ◌≤◌, IfSome};
ghost use Rattle.std.specs.Char.{is_ascii_digit};
ghost use Rattle.std.specs.List.{list_all};
ghost use Rattle.program_words.specs.Words.{is_numeral, number_between};

fn are_digits(text: &[u8]) -> bool
    ensures { result ≡ list_all is_ascii_digit text.now }
{
    text.iter().all(u8::is_ascii_digit)
}

// Decimal digits without a sign or a leading zero.
fn is_numeral(text: &[u8]) -> bool
    ensures { result ≡ is_numeral text.now }
{
    !text.is_empty() && are_digits(text) && (text.len() == 1 || text[0] != b'0')
}

/// The number that the text writes, where it is a numeral from `least` to `most`.
pub(crate) fn number_between(text: &str, least: u64, most: u64) -> Option<u64>
    ensures value { result ≡ number_between least most text.now }
    ensures range { IfSome result (λ n. (least ≤ n) × (n ≤ most)) }
{
    if !is_numeral(text.as_bytes()) {
        return None;
    }
    let number = text.parse::<u64>().ok()?;
    if least <= number && number <= most {
        Some(number)
    } else {
        None
    }
}
