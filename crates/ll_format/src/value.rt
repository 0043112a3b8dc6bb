//! Readers of values that are a whole text each: numbers, durations, URIs and texts. None of them takes memory.
ghost use Rattle.std.specs.Prelude.{◌≡◌, ◌<◌};
ghost use Rattle.ll_format.specs.Format as format;
ghost use Rattle.ll_format.specs.Words as words;

use itoa::Buffer;
use ll_attr::{cut, parse_micros, parse_number};

/// Parses a number without leading zeros that is at most `most`.
pub fn number(text: &str, most: u64) -> Option<u64>
    ensures { result ≡ (words.number most).read text.now }
{
    let number = parse_number(text, 20)?;
    let mut buffer = Buffer::new();
    if buffer.format(number) == text && number <= most {
        Some(number)
    } else {
        None
    }
}

/// Parses seconds without leading zeros, a point and six digits, as microseconds.
pub fn duration(text: &str) -> Option<u64>
    ensures { result ≡ words.duration.read text.now }
{
    let micros = parse_micros(text)?;
    let (whole, fraction) = cut(text, '.')?;
    let mut buffer = Buffer::new();
    if buffer.format(micros / 1_000_000) == whole && fraction.len() == 6 {
        Some(micros)
    } else {
        None
    }
}

/// Returns whether `text` is allowed in quotation marks: it has no quotation mark, CR or LF.
pub fn is_quotable(text: &str) -> bool
    ensures { result ≡ words.is_quotable text.now }
{
    text.bytes().all(|b| b != b'"' && b != b'\r' && b != b'\n')
}

/// Returns whether `text` is a URI as lines quote it: one or more bytes that are allowed in quotation marks.
pub fn is_uri(text: &str) -> bool
    ensures { result ≡ words.is_uri text.now }
{
    !text.is_empty() && is_quotable(text)
}

/// Returns whether `text` is one or more bytes other than CR and LF.
pub fn is_rest(text: &str) -> bool
    ensures { result ≡ words.is_rest text.now }
{
    !text.is_empty() && is_one_line(text)
}

/// Returns whether `text` has no CR or LF.
fn is_one_line(text: &str) -> bool
    ensures { result ≡ words.is_one_line text.now }
{
    text.bytes().all(|b| b != b'\r' && b != b'\n')
}

/// Returns what is before the first `end`, an ASCII character, and the rest from that character on, or the whole
/// text and nothing if it has none.
pub fn until(text: &str, end: char) -> (&str, &str)
    requires { end < 128 }
    ensures { format.until end text.now ≡ (result.0.now, result.1.now) }
{
    match text.find(end) {
        Some(place) => text.split_at(place),
        None => (text, ""),
    }
}
