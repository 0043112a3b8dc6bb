//! The codec of `mp4a` sound: the descriptors of its `esds` box (ISO/IEC 14496-1, section 7.2.6; ISO/IEC 14496-14, section 3.1.2; RFC 6381,
//! section 3.3).
ghost use Rattle.std.specs.Prelude.{◌≡◌, ◌⊎◌, IfErr, IfOk, MatchResult, Ok, Err, string_bytes};
ghost use Rattle.ll_codecs.specs.Aac as spec;

use crate::children::child;
use crate::entry::sound_boxes;
use crate::fields::{byte_at, from};
use crate::spelling::hex_byte;
use ll_attr::Text;
use ll_mp4::StreamFault;
use std::alloc::{AllocError, Global};

/// `esds`, the type of the box with the configuration.
const CONFIG: u32 = 0x6573_6473;

/// The object type of MPEG-4 sound.
const MPEG4: u8 = 0x40;

/// Reads the codec of the sample entry `entry` of the type `mp4a`.
pub(crate) fn read_sound(alloc: Global, entry: &[u8]) -> Result<Text, StreamFault>
    ensures { MatchResult result (λ text. spec.sound entry.now ≡ Ok text)
        (λ fault. (spec.sound entry.now ≡ Err fault) ⊎ (fault ≡ StreamFault.Memory)) }
{
    let boxes = sound_boxes(entry)?;
    let content = child(CONFIG, boxes)?;
    let config = decoder(content)?;
    let kind = byte_at(0, config)?;
    sound_by(alloc, kind, config)
}

/// Returns the codec of the object type `kind`, whose decoder has the configuration `config`.
fn sound_by(alloc: Global, kind: u8, config: &[u8]) -> Result<Text, StreamFault>
    ensures { MatchResult result (λ text. spec.sound_by kind config.now ≡ Ok text)
        (λ fault. (spec.sound_by kind config.now ≡ Err fault) ⊎ (fault ≡ StreamFault.Memory)) }
{
    if kind == MPEG4 {
        return read_aac(alloc, config);
    }
    match other_text(alloc, kind) {
        Ok(text) => Ok(Text::from_string(text)),
        Err(AllocError) => Err(StreamFault::Memory),
    }
}

/// Reads the codec of MPEG-4 sound whose decoder has the configuration `config`.
fn read_aac(alloc: Global, config: &[u8]) -> Result<Text, StreamFault>
    ensures { MatchResult result (λ text. spec.aac config.now ≡ Ok text)
        (λ fault. (spec.aac config.now ≡ Err fault) ⊎ (fault ≡ StreamFault.Memory)) }
{
    let rest = from(13, config)?;
    let specific = descriptor(5, rest)?;
    let first = byte_at(0, specific)?;
    let second = byte_at(1, specific)?;
    match aac_text(alloc, object_type(first, second)) {
        Ok(text) => Ok(Text::from_string(text)),
        Err(AllocError) => Err(StreamFault::Memory),
    }
}

/// Returns the bytes of the decoder's configuration.
fn decoder(content: &[u8]) -> Result<&[u8], StreamFault>
    ensures { MatchResult result (λ config. spec.decoder content.now ≡ Ok config.now) (λ fault. spec.decoder content.now ≡ Err fault) }
{
    let first = from(4, content)?;
    let stream = descriptor(3, first)?;
    let second = from(3, stream)?;
    descriptor(4, second)
}

/// Returns the bytes after the tag and the size of the descriptor at the front of `bytes`, which has the tag `tag`.
fn descriptor(tag: u8, bytes: &[u8]) -> Result<&[u8], StreamFault>
    ensures { MatchResult result (λ content. spec.descriptor tag bytes.now ≡ Ok content.now) (λ fault. spec.descriptor tag bytes.now ≡ Err fault) }
{
    match bytes.split_first() {
        Some((byte, rest)) if *byte == tag => past_size(rest),
        _ => Err(StreamFault::BadBox),
    }
}

/// Returns the bytes after the size of a descriptor at the front of `bytes`.
fn past_size(bytes: &[u8]) -> Result<&[u8], StreamFault>
    ensures { MatchResult result (λ content. spec.past_size bytes.now ≡ Ok content.now) (λ fault. spec.past_size bytes.now ≡ Err fault) }
{
    let mut left = bytes;
    'sizes: while let Some((byte, rest)) = left.split_first() {
        if *byte < 128 {
            return Ok(rest);
        }
        left = rest;
    }
    Err(StreamFault::BadBox)
}

/// Returns the type of sound objects that the bytes `first` and `second` of their configuration spell.
fn object_type(first: u8, second: u8) -> u8
    ensures { result ≡ spec.object_type first second }
{
    if first / 8 == 31 {
        32 + first % 8 * 8 + second / 32
    } else {
        first / 8
    }
}

/// Returns the codec of MPEG-4 sound of objects of the type `kind`.
#[tactic(auto, unfolding(crate::specs::Aac::aac_text))]
fn aac_text(alloc: Global, kind: u8) -> Result<String, AllocError>
    ensures { IfOk result (λ t. string_bytes t ≡ spec.aac_text kind) }
{
    format!(in alloc; "mp4a.40.{kind}")
}

/// Returns the codec of other sound of the object type `kind`.
#[tactic(auto, unfolding(crate::specs::Aac::other_text))]
fn other_text(alloc: Global, kind: u8) -> Result<String, AllocError>
    ensures { IfOk result (λ t. string_bytes t ≡ spec.other_text kind) }
{
    let kind = hex_byte(alloc, kind)?;
    format!(in alloc; "mp4a.{kind}")
}
