//! The word that ends the line of an item with bytes: it is their number, or in a script the bytes themselves.
ghost use Rattle.std.specs.Prelude.{◌≡◌, MatchOption, None, Some};
ghost use Rattle.ll_attr.specs.Words.{words};
ghost use Rattle.ll_item.specs.Announced as spec;

use ll_attr::{cut, parse_number};

/// Splits `line` into the line of an item with bytes and the number of its bytes. Returns `None` if it isn't the line of such an item and one word more,
/// which is a number.
pub fn announced(line: &str) -> Option<(&str, u64)>
    ensures { MatchOption result (spec.announced line.now ≡ None) (λ a. spec.announced line.now ≡ Some (a.0.now, a.1)) }
{
    let (item, length) = told_bytes(line)?;
    match parse_number(length, 20) {
        Some(length) => Some((item, length)),
        None => None,
    }
}

/// Splits `line` into the line of an item with bytes and one word more. Returns `None` if it isn't that.
pub fn told_bytes(line: &str) -> Option<(&str, &str)>
    ensures { MatchOption result (spec.told_bytes line.now ≡ None) (λ t. spec.told_bytes line.now ≡ Some (t.0.now, t.1.now)) }
{
    let (item, last) = cut_last(line)?;
    if has_bytes(item) {
        Some((item, last))
    } else {
        None
    }
}

/// Splits `line` at its last space, if it has one.
pub fn cut_last(line: &str) -> Option<(&str, &str)>
    ensures { MatchOption result (spec.cut_last line.now ≡ None) (λ c. spec.cut_last line.now ≡ Some (c.0.now, c.1.now)) }
{
    line.rsplit_once(' ')
}

/// Returns whether `item` has the words of a part's or an initialization section's line, after which one more word is about its bytes.
fn has_bytes(item: &str) -> bool
    ensures { result ≡ spec.has_bytes (words item.now) }
{
    let Some((kind, rest)) = cut(item, ' ') else {
        return false;
    };
    let Some((_, rest)) = cut(rest, ' ') else {
        return kind == "init";
    };
    match cut(rest, ' ') {
        Some((_, last)) => kind == "part" && cut(last, ' ').is_none(),
        None => false,
    }
}

/// Returns whether `line` is that of an initialization section without the word about its bytes.
pub fn lacks_length(line: &str) -> bool
    ensures { result ≡ spec.lacks_length (words line.now) }
{
    match cut(line, ' ') {
        Some((kind, rest)) => kind == "init" && cut(rest, ' ').is_none(),
        None => false,
    }
}
