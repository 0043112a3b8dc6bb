//! Readers of the value that a text begins with. Each returns the value and the rest of the text after it,
//! and takes no memory.
ghost use Rattle.std.specs.Prelude.{◌≡◌, Some};
ghost use Rattle.std.specs.Option.{option_map};
ghost use Rattle.ll_format.specs.Format.{up_to, quoted, flag};
ghost use Rattle.ll_format.specs.Words as words;

use crate::value::{duration, is_quotable, is_uri, number, until};
use ll_attr::after;

/// Reads a number, at most `most`, up to a comma or the end.
pub fn number_at(text: &str, most: u64) -> Option<(u64, &str)>
    ensures { (up_to 44 (words.number most)).read text.now ≡ option_map (λ r. (r.0, r.1.now)) result }
{
    let (digits, rest) = until(text, ',');
    Some((number(digits, most)?, rest))
}

/// Reads a duration up to a comma or the end, as microseconds.
pub fn duration_at(text: &str) -> Option<(u64, &str)>
    ensures { (up_to 44 words.duration).read text.now ≡ option_map (λ r. (r.0, r.1.now)) result }
{
    let (seconds, rest) = until(text, ',');
    Some((duration(seconds)?, rest))
}

/// Reads a URI up to the quotation mark that ends it; the rest begins after that mark.
pub fn uri_at(text: &str) -> Option<(&str, &str)>
    ensures { (quoted words.uri).read text.now ≡ option_map (λ r. (r.0.now, r.1.now)) result }
{
    let (uri, rest) = until(text, '"');
    if !is_uri(uri) {
        return None;
    }
    Some((uri, after(rest, "\"")?))
}

/// Reads a text up to the quotation mark that ends it; the rest begins after that mark.
pub fn quoted_at(text: &str) -> Option<(&str, &str)>
    ensures { (quoted words.quotable).read text.now ≡ option_map (λ r. (r.0.now, r.1.now)) result }
{
    let (inner, rest) = until(text, '"');
    if !is_quotable(inner) {
        return None;
    }
    Some((inner, after(rest, "\"")?))
}

/// Returns whether `text` begins with `key`, and what follows it, or the whole text if it doesn't.
pub fn flag_at<'a>(text: &'a str, key: &str) -> (bool, &'a str)
    ensures { (flag key.now).read text.now ≡ Some (result.0, result.1.now) }
{
    match after(text, key) {
        Some(rest) => (true, rest),
        None => (false, text),
    }
}
