//! The codec of a sample entry, as RFC 6381 spells it.
ghost use Rattle.std.specs.Prelude.{◌≡◌, ◌⊎◌, MatchResult, Ok, Err, option_map};
ghost use Rattle.std.specs.List.{list_all};
ghost use Rattle.ll_codecs.specs.Codecs as spec;

use crate::aac::read_sound;
use crate::av1::read_av1;
use crate::avc::read_avc;
use crate::hevc::read_hevc;
use ll_attr::Text;
use ll_mp4::StreamFault;
use std::alloc::Global;
use std::str;

/// `avc1` and `avc3`, AVC video.
const AVC1: u32 = 0x6176_6331;

const AVC3: u32 = 0x6176_6333;

/// `hvc1` and `hev1`, HEVC video.
const HVC1: u32 = 0x6876_6331;

const HEV1: u32 = 0x6865_7631;

/// `av01`, AV1 video.
const AV01: u32 = 0x6176_3031;

/// `mp4a`, MPEG-4 sound.
const MP4A: u32 = 0x6d70_3461;

/// Reads the codec of the sample entry `entry` of the type `kind`.
pub(crate) fn read_codec(alloc: Global, kind: u32, entry: &[u8]) -> Result<Text, StreamFault>
    ensures { MatchResult result (λ text. spec.codec_of kind entry.now ≡ Ok text)
        (λ fault. (spec.codec_of kind entry.now ≡ Err fault) ⊎ (fault ≡ StreamFault.Memory)) }
{
    if kind == AVC1 {
        read_avc(alloc, "avc1", entry)
    } else if kind == AVC3 {
        read_avc(alloc, "avc3", entry)
    } else if kind == HVC1 {
        read_hevc(alloc, "hvc1", entry)
    } else if kind == HEV1 {
        read_hevc(alloc, "hev1", entry)
    } else if kind == AV01 {
        read_av1(alloc, entry)
    } else if kind == MP4A {
        read_sound(alloc, entry)
    } else {
        plain(alloc, kind)
    }
}

/// Returns the four characters of the type `kind`, if these are letters, digits or hyphens.
fn plain(alloc: Global, kind: u32) -> Result<Text, StreamFault>
    ensures { MatchResult result (λ text. spec.plain kind ≡ Ok text)
        (λ fault. (spec.plain kind ≡ Err fault) ⊎ (fault ≡ StreamFault.Memory)) }
{
    let (first, second) = ((kind / 0x100_0000) as u8, (kind / 0x1_0000 % 256) as u8);
    let (third, fourth) = ((kind / 0x100 % 256) as u8, (kind % 256) as u8);
    plain_text(alloc, &[first, second, third, fourth])
}

/// Returns `bytes` as a text, if these are letters, digits or hyphens.
fn plain_text(alloc: Global, bytes: &[u8]) -> Result<Text, StreamFault>
    ensures { MatchResult result (λ text. spec.plain_text (spec.text_in bytes.now) ≡ Ok text)
        (λ fault. (spec.plain_text (spec.text_in bytes.now) ≡ Err fault) ⊎ (fault ≡ StreamFault.Memory)) }
{
    match text_in(bytes) {
        Some(text) if is_plain(text) => Ok(Text::from_str(alloc, text)?),
        _ => Err(StreamFault::BadBox),
    }
}

/// Returns `bytes` as a text; `None` if they aren't UTF-8.
fn text_in(bytes: &[u8]) -> Option<&str>
    ensures { option_map (λ t. t.now) result ≡ spec.text_in bytes.now }
{
    match str::from_utf8(bytes) {
        Ok(text) => Some(text),
        Err(_) => None,
    }
}

/// Returns whether each character of `text` is a letter, a digit or a hyphen.
fn is_plain(text: &str) -> bool
    ensures { result ≡ list_all spec.is_plain_byte text.now }
{
    text.bytes().all(is_plain_byte)
}

/// Returns whether `b` is a letter, a digit or a hyphen.
fn is_plain_byte(b: u8) -> bool
    ensures { result ≡ spec.is_plain_byte b }
{
    b.is_ascii_lowercase() || b.is_ascii_uppercase() || b.is_ascii_digit() || b == b'-'
}
