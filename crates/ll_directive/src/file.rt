//! The names of a rendition's files.
ghost use Rattle.std.specs.Prelude.{◌≡◌};
ghost use Rattle.ll_directive.specs.Files as spec;

use ll_attr::{after, cut};
use ll_format::number;
use ll_item::What;

/// Parses the name of a file: a playlist, `live.m3u8`, or media.
pub(crate) fn file_in(file: &str) -> Option<What>
    ensures { result ≡ spec.file_in file.now }
{
    if file == "live.m3u8" {
        return Some(What::Playlist);
    }
    media_file(file)
}

/// Parses the name of a file of media: `s<n>.m4s`, `s<n>.<index>.m4s` or `init<n>.mp4`, with numbers below 2^64 without leading zeros.
#[tactic(auto, using(crate::proofs::Pieces::more_media))]
pub fn media_file(file: &str) -> Option<What>
    ensures { result ≡ spec.media_file file.now }
{
    let (name, rest) = cut(file, '.')?;
    let Some((index, ending)) = cut(rest, '.') else {
        return one_number(name, rest);
    };
    if cut(ending, '.').is_some() {
        return None;
    }
    two_numbers(name, index, ending)
}

/// Parses `s<n>.m4s` or `init<n>.mp4`.
fn one_number(name: &str, ending: &str) -> Option<What>
    ensures { result ≡ spec.one_number name.now ending.now }
{
    if ending == "m4s" {
        Some(What::Segment(number_after("s", name)?))
    } else if ending == "mp4" {
        Some(What::Init(number_after("init", name)?))
    } else {
        None
    }
}

/// Parses `s<n>.<index>.m4s`.
fn two_numbers(name: &str, index: &str, ending: &str) -> Option<What>
    ensures { result ≡ spec.two_numbers name.now index.now ending.now }
{
    if ending != "m4s" {
        return None;
    }
    let msn = number_after("s", name)?;
    Some(What::Part(msn, number(index, u64::MAX)?))
}

/// Parses the number after `key`.
fn number_after(key: &str, text: &str) -> Option<u64>
    ensures { result ≡ spec.number_after key.now text.now }
{
    number(after(text, key)?, u64::MAX)
}
