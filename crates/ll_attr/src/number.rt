//! Numbers in decimal digits (decimal-integer of section 4.2).
ghost use Rattle.std.specs.Prelude.{◌≡◌};
ghost use Rattle.std.specs.Str.{all_ascii_digits};
ghost use Rattle.ll_attr.specs.Numbers.{number_in};

/// Parses a number of 1 to `most` decimal digits that is below 2^64. Leading zeros are allowed, signs and spaces
/// aren't (decimal-integer of section 4.2 of draft-pantos-hls-rfc8216bis).
pub fn parse_number(text: &str, most: usize) -> Option<u64>
    ensures { result ≡ number_in most text.now }
{
    if text.is_empty() || text.len() > most || !all_digits(text) {
        return None;
    }
    text.parse::<u64>().ok()
}

/// Returns whether `text` has only decimal digits; the empty text does.
fn all_digits(text: &str) -> bool
    ensures { result ≡ all_ascii_digits text.now }
{
    text.bytes().all(|b| b.is_ascii_digit())
}
