//! The codec of AV1 video (AV1 Codec ISO Media File Format Binding, sections 2.3.3 and 5).
ghost use Rattle.std.specs.Prelude.{◌≡◌, ◌⊎◌, IfOk, MatchResult, Ok, Err, string_bytes};
ghost use Rattle.ll_codecs.specs.Av1 as spec;

use crate::children::child;
use crate::entry::video_boxes;
use crate::fields::byte_at;
use crate::spelling::two_digits;
use ll_attr::Text;
use ll_mp4::StreamFault;
use std::alloc::{AllocError, Global};

/// `av1C`, the type of the box with the configuration.
const CONFIG: u32 = 0x6176_3143;

/// Reads the codec of the sample entry `entry` of the type `av01`.
pub(crate) fn read_av1(alloc: Global, entry: &[u8]) -> Result<Text, StreamFault>
    ensures { MatchResult result (λ text. spec.av1 entry.now ≡ Ok text)
        (λ fault. (spec.av1 entry.now ≡ Err fault) ⊎ (fault ≡ StreamFault.Memory)) }
{
    let boxes = video_boxes(entry)?;
    let config = child(CONFIG, boxes)?;
    let profile = byte_at(1, config)?;
    let flags = byte_at(2, config)?;
    match av1_text(alloc, profile, flags) {
        Ok(text) => Ok(Text::from_string(text)),
        Err(AllocError) => Err(StreamFault::Memory),
    }
}

/// Returns the codec with the byte of the profile and the level, and that of the tier and the depth.
#[tactic(auto, unfolding(crate::specs::Av1::av1_text))]
fn av1_text(alloc: Global, profile: u8, flags: u8) -> Result<String, AllocError>
    ensures { IfOk result (λ t. string_bytes t ≡ spec.av1_text profile flags) }
{
    let level = two_digits(alloc, profile % 32)?;
    let profile = profile / 32;
    let tier = tier(flags);
    let depth = depth(profile, flags);
    format!(in alloc; "av01.{profile}.{level}{tier}.{depth}")
}

/// Returns the letter of the tier.
fn tier(flags: u8) -> &'static str
    ensures { result.now ≡ spec.av1_tier flags }
{
    if flags / 128 == 0 { "M" } else { "H" }
}

/// Returns the two digits of the depth.
fn depth(profile: u8, flags: u8) -> &'static str
    ensures { result.now ≡ spec.av1_depth profile flags }
{
    if flags / 64 % 2 == 0 {
        "08"
    } else if profile == 2 && flags / 32 % 2 == 1 {
        "12"
    } else {
        "10"
    }
}
