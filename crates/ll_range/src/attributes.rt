//! The attributes and ids that a date range is allowed to have (section 4.4.5.1).
ghost use Rattle.std.specs.Prelude.{◌≡◌, bytes_eq, codes};
ghost use Rattle.std.specs.Char.{is_ascii_digit};
ghost use Rattle.std.specs.List.{list_all, list_any};
ghost use Rattle.ll_range.specs.Attributes as spec;

use ll_attr::{AttrValue, Attribute, cut};
use ll_format::is_date_time;

/// Returns whether each attribute is one that a date range is allowed to have beside its ID, and one is START-DATE (section 4.4.5.1).
pub(crate) fn are_allowed(attributes: &[Attribute]) -> bool
    ensures { result ≡ spec.are_allowed attributes.now }
{
    are_each_allowed(attributes) && have_start_date(attributes)
}

/// Returns whether one of `attributes` is START-DATE.
fn have_start_date(attributes: &[Attribute]) -> bool
    ensures { result ≡ list_any (λ a. bytes_eq a.name (codes "START-DATE")) attributes.now }
{
    attributes
        .iter()
        .any(|attribute| attribute.name.as_str() == "START-DATE")
}

/// Returns whether each of `attributes` is one that a date range is allowed to have beside its ID.
fn are_each_allowed(attributes: &[Attribute]) -> bool
    ensures { result ≡ list_all spec.is_allowed attributes.now }
{
    attributes.iter().all(is_allowed)
}

/// Returns whether a date range is allowed to have `attribute` beside its ID.
fn is_allowed(attribute: &Attribute) -> bool
    ensures { result ≡ spec.is_allowed attribute.now }
{
    let value = &attribute.value;
    match attribute.name.as_str() {
        "START-DATE" | "END-DATE" => is_date_value(value),
        "CLASS" => is_class_value(value),
        "DURATION" | "PLANNED-DURATION" => is_seconds_value(value),
        name => name.starts_with("X-"),
    }
}

/// Returns whether `value` is a quoted date and time.
fn is_date_value(value: &AttrValue) -> bool
    ensures { result ≡ spec.is_date_value value.now }
{
    match value {
        AttrValue::Quoted(text) => is_date_time(text.as_str()),
        AttrValue::Bare(_) => false,
    }
}

/// Returns whether `value` is quoted.
fn is_class_value(value: &AttrValue) -> bool
    ensures { result ≡ spec.is_class_value value.now }
{
    match value {
        AttrValue::Quoted(_) => true,
        AttrValue::Bare(_) => false,
    }
}

/// Returns whether `value` is a bare number of seconds.
fn is_seconds_value(value: &AttrValue) -> bool
    ensures { result ≡ spec.is_seconds_value value.now }
{
    match value {
        AttrValue::Quoted(_) => false,
        AttrValue::Bare(text) => is_seconds(text.as_str()),
    }
}

/// Returns whether `text` is digits, and perhaps a point and digits (decimal-floating-point, section 4.2).
fn is_seconds(text: &str) -> bool
    ensures { result ≡ spec.is_seconds text.now }
{
    match cut(text, '.') {
        None => are_digits(text),
        Some((whole, fraction)) => are_digits(whole) && are_digits(fraction),
    }
}

/// Returns whether `text` is one or more decimal digits.
fn are_digits(text: &str) -> bool
    ensures { result ≡ spec.are_digits text.now }
{
    !text.is_empty() && has_digits_alone(text)
}

/// Returns whether each byte of `text` is a decimal digit.
fn has_digits_alone(text: &str) -> bool
    ensures { result ≡ list_all is_ascii_digit text.now }
{
    text.bytes().all(|b| b.is_ascii_digit())
}

/// Returns whether `text` is allowed as the ID of a date range: it isn't empty, and holds no quotation mark, tab, CR or LF.
pub(crate) fn is_id(text: &str) -> bool
    ensures { result ≡ spec.is_id text.now }
{
    !text.is_empty() && has_id_bytes_alone(text)
}

/// Returns whether each byte of `text` is allowed in an ID.
fn has_id_bytes_alone(text: &str) -> bool
    ensures { result ≡ list_all spec.is_id_byte text.now }
{
    text.bytes().all(is_id_byte)
}

/// Returns whether `b` is allowed in an ID.
fn is_id_byte(b: u8) -> bool
    ensures { result ≡ spec.is_id_byte b }
{
    !(b == b'"' || b == b'\t' || b == b'\r' || b == b'\n')
}
