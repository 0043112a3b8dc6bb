//! Names of channels and renditions.
ghost use Rattle.std.specs.Prelude.{◌≡◌};
ghost use Rattle.ll_attr.specs.Words.{pieces_at};
ghost use Rattle.ll_settings.specs.Names as spec;

use ll_attr::{Text, cut};

/// Returns whether `text` is a name: 1 to 32 characters a-z, 0-9, `-` or `_`.
pub fn is_name(text: &str) -> bool
    ensures { result ≡ spec.is_name text.now }
{
    !text.is_empty() && text.len() <= 32 && text.bytes().all(is_name_byte)
}

/// Returns whether `b` is a-z, 0-9, `-` or `_`.
fn is_name_byte(b: u8) -> bool
    ensures { result ≡ spec.is_name_byte b }
{
    b.is_ascii_lowercase() || b.is_ascii_digit() || b == b'-' || b == b'_'
}

/// Returns whether each of `names` is a name, and none is there twice.
pub(crate) fn are_names(names: &[Text]) -> bool
    ensures { result ≡ spec.are_names names.now }
{
    for (i, name) in names.iter().enumerate() {
        let name = name.as_str();
        if !is_name(name) || is_among(&names[i + 1..], name) {
            return false;
        }
    }
    true
}

/// Returns whether one of `names` is `name`.
fn is_among(names: &[Text], name: &str) -> bool
    ensures { result ≡ spec.is_among names.now name.now }
{
    names.iter().any(|other| name == other.as_str())
}

/// Returns whether each text between the commas of `text` is a name, and none is there twice.
pub(crate) fn are_names_in(text: &str) -> bool
    ensures { result ≡ spec.are_names (pieces_at 44 text.now) }
{
    let mut rest = text;
    while let Some((name, after)) = cut(rest, ',') {
        if !is_name(name) || is_among_in(after, name) {
            return false;
        }
        rest = after;
    }
    is_name(rest)
}

/// Returns whether one of the texts between the commas of `text` is `name`.
fn is_among_in(text: &str, name: &str) -> bool
    ensures { result ≡ spec.is_among (pieces_at 44 text.now) name.now }
{
    text.split(',').any(|other| name == other)
}
