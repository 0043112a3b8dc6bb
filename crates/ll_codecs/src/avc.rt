//! The codec of AVC video (ISO/IEC 14496-15; RFC 6381, section 3.3).
ghost use Rattle.std.specs.Prelude.{◌≡◌, ◌⊎◌, IfOk, MatchResult, Ok, Err, string_bytes};
ghost use Rattle.ll_codecs.specs.Avc as spec;

use crate::children::child;
use crate::entry::video_boxes;
use crate::fields::byte_at;
use crate::spelling::hex_byte;
use ll_attr::Text;
use ll_mp4::StreamFault;
use std::alloc::{AllocError, Global};

/// `avcC`, the type of the box with the configuration.
const CONFIG: u32 = 0x6176_6343;

/// Reads the codec of the sample entry `entry`, whose type has the characters `name`.
pub(crate) fn read_avc(alloc: Global, name: &str, entry: &[u8]) -> Result<Text, StreamFault>
    ensures { MatchResult result (λ text. spec.avc name.now entry.now ≡ Ok text)
        (λ fault. (spec.avc name.now entry.now ≡ Err fault) ⊎ (fault ≡ StreamFault.Memory)) }
{
    let boxes = video_boxes(entry)?;
    let config = child(CONFIG, boxes)?;
    let profile = byte_at(1, config)?;
    let flags = byte_at(2, config)?;
    let level = byte_at(3, config)?;
    match avc_text(alloc, name, profile, flags, level) {
        Ok(text) => Ok(Text::from_string(text)),
        Err(AllocError) => Err(StreamFault::Memory),
    }
}

/// Returns `name` with the bytes of the profile, of the constraint flags and of the level.
#[tactic(auto, unfolding(crate::specs::Avc::avc_text))]
fn avc_text(
    alloc: Global,
    name: &str,
    profile: u8,
    flags: u8,
    level: u8,
) -> Result<String, AllocError>
    ensures { IfOk result (λ t. string_bytes t ≡ spec.avc_text name.now profile flags level) }
{
    let profile = hex_byte(alloc, profile)?;
    let flags = hex_byte(alloc, flags)?;
    let level = hex_byte(alloc, level)?;
    format!(in alloc; "{name}.{profile}{flags}{level}")
}
