//! Cuts the text of an attribute list into its parts, names and values (section 4.2). Nothing here takes
//! memory.
ghost use Rattle.std.specs.Prelude.{◌≡◌, ◌<◌, ◌∷◌, [], true, false, MatchOption, IfSome, None, Some, length};
ghost use Rattle.std.specs.List.{list_all, after_first};
ghost use Rattle.ll_attr.specs.Attributes.{parts_outside, value_in, is_equals, is_quoted_byte};
ghost use Rattle.ll_attr.specs.Attributes as spec;
ghost use Rattle.ll_attr.specs.Reading.{is_named, value_as, inner_of};
ghost use Rattle.ll_attr.specs.Reading as reading;
ghost use Rattle.ll_attr.specs.Words.{pieces_at};

use crate::parts::cut;

/// Returns the text before the first comma outside quotes, and what follows that comma, or `None` if there is
/// no such comma.
pub(crate) fn first_part(text: &str) -> (&str, Option<&str>)
    ensures parts { MatchOption result.1 (parts_outside false text.now ≡ result.0.now ∷ [])
        (λ after. parts_outside false text.now ≡ result.0.now ∷ parts_outside false after.now) }
    ensures shorter { IfSome result.1 (λ after. length after.now < length text.now) }
{
    let (part, after) = text.split_at(part_len(text));
    (part, after.strip_prefix(','))
}

/// Returns the number of bytes before the first comma outside quotes.
fn part_len(text: &str) -> usize
    ensures { result ≡ reading.part_len false text.now }
{
    let mut quoted = false;
    for (place, byte) in text.as_bytes().iter().enumerate() {
        if *byte == b',' && !quoted {
            return place;
        }
        if *byte == b'"' {
            quoted = !quoted;
        }
    }
    text.len()
}

/// Returns what is before the first equals sign of `part`, or the whole part if it has none.
pub(crate) fn name_of(part: &str) -> &str
    ensures { result.now ≡ reading.name_of part.now }
{
    match part.split_once('=') {
        Some((name, _)) => name,
        None => part,
    }
}

/// Returns what follows the first equals sign of `part`, or the empty text if it has none.
pub(crate) fn value_of(part: &str) -> &str
    ensures { result.now ≡ after_first is_equals part.now }
{
    match part.split_once('=') {
        Some((_, value)) => value,
        None => "",
    }
}

/// Returns the name before the first equals sign of `part` and what follows that sign, or `None` if there is
/// no sign or no valid name.
pub(crate) fn name_and_value(part: &str) -> Option<(&str, &str)>
    ensures { MatchOption result (is_named part.now ≡ false)
        (λ p. (is_named part.now ≡ true) × (p.0.now ≡ reading.name_of part.now) × (p.1.now ≡ after_first is_equals part.now)) }
{
    let Some((name, value)) = part.split_once('=') else {
        return None;
    };
    if !is_attribute_name(name) {
        return None;
    }
    Some((name, value))
}

/// Returns whether `text` is an AttributeName.
fn is_attribute_name(text: &str) -> bool
    ensures { result ≡ spec.is_attribute_name text.now }
{
    !text.is_empty() && text.bytes().all(is_name_byte)
}

/// Returns whether `b` is A-Z, 0-9 or `-`.
fn is_name_byte(b: u8) -> bool
    ensures { result ≡ spec.is_name_byte b }
{
    b.is_ascii_uppercase() || b.is_ascii_digit() || b == b'-'
}

/// Returns whether the value that `text` spells is quoted, and its text without quotation marks, or `None` if
/// it spells no value.
pub(crate) fn value_text(text: &str) -> Option<(bool, &str)>
    ensures { MatchOption result (value_in text.now ≡ None) (λ v. value_in text.now ≡ Some (value_as v.0 v.1.now)) }
{
    if is_bare(text) {
        return Some((false, text));
    }
    Some((true, quoted_text(text)?))
}

/// Returns whether `text` is a bare value.
fn is_bare(text: &str) -> bool
    ensures { result ≡ spec.is_bare text.now }
{
    !text.is_empty() && text.bytes().all(is_bare_byte)
}

/// Returns what is between the quotation marks of `text`, if it is a quoted string.
pub(crate) fn quoted_text(text: &str) -> Option<&str>
    ensures { MatchOption result (inner_of (pieces_at 34 text.now) ≡ None) (λ inner. inner_of (pieces_at 34 text.now) ≡ Some inner.now) }
{
    let (before, after) = cut(text, '"')?;
    let (inner, end) = cut(after, '"')?;
    if before.is_empty() && end.is_empty() && is_quoted(inner) {
        Some(inner)
    } else {
        None
    }
}

/// Returns whether `text` is allowed in quotes.
fn is_quoted(text: &str) -> bool
    ensures { result ≡ list_all is_quoted_byte text.now }
{
    text.bytes().all(is_quoted_byte)
}

/// Returns whether `b` is allowed in quotes.
fn is_quoted_byte(b: u8) -> bool
    ensures { result ≡ spec.is_quoted_byte b }
{
    b != b'"' && b != b'\r' && b != b'\n'
}

/// Returns whether `b` is allowed in a bare value.
fn is_bare_byte(b: u8) -> bool
    ensures { result ≡ spec.is_bare_byte b }
{
    is_quoted_byte(b) && b != b',' && b != b' ' && b != b'\t'
}
