//! The codecs of a variant, each once.
ghost use Rattle.std.specs.Prelude.{◌≡◌, ◌++◌, IfOk, OnOk, bytes_eq, string_bytes};
ghost use Rattle.std.specs.List.{list_any};
ghost use Rattle.ll_variants.specs.Lines as line;
ghost use Rattle.ll_variants.specs.Playlists as spec;

use crate::stream::Stream;
use ll_attr::Text;
use ll_codecs::CodecTrack;
use std::alloc::{AllocError, Global};

/// Returns the codecs of `stream` and, if `grouped`, of those of `streams` without pictures.
pub(crate) fn variant_codecs(
    alloc: Global,
    grouped: bool,
    streams: &[Stream],
    stream: &Stream,
) -> Result<Vec<Text>, AllocError>
    ensures { IfOk result (λ codecs. codecs.items ≡ spec.variant_codecs grouped streams.now stream.now) }
{
    let mut codecs = Vec::new(alloc);
    push_tracks(&mut codecs, stream.section.tracks())?;
    if grouped {
        push_sounds(&mut codecs, streams)?;
    }
    Ok(codecs)
}

/// Appends the codecs of those of `streams` without pictures that aren't in `codecs` yet.
fn push_sounds(codecs: &mut Vec<Text>, streams: &[Stream]) -> Result<(), AllocError>
    ensures { OnOk result (codecs.new.items ≡ spec.with_sounds codecs.old.items streams.now) }
{
    let mut left = streams;
    'streams: while let Some((stream, more)) = left.split_first() {
        if stream.is_sound() {
            push_tracks(codecs, stream.section.tracks())?;
        }
        left = more;
    }
    Ok(())
}

/// Appends the codecs of `tracks` that aren't in `codecs` yet.
fn push_tracks(codecs: &mut Vec<Text>, tracks: &[CodecTrack]) -> Result<(), AllocError>
    ensures { OnOk result (codecs.new.items ≡ spec.with_tracks codecs.old.items tracks.now) }
{
    let mut left = tracks;
    'tracks: while let Some((track, more)) = left.split_first() {
        push_codec(codecs, &track.codec)?;
        left = more;
    }
    Ok(())
}

/// Appends `codec`, unless it is in `codecs`.
fn push_codec(codecs: &mut Vec<Text>, codec: &Text) -> Result<(), AllocError>
    ensures { OnOk result (codecs.new.items ≡ spec.with_codec codecs.old.items codec.now) }
{
    if is_among(codecs, codec.as_str()) {
        return Ok(());
    }
    codecs.push(codec.copy()?)?;
    Ok(())
}

/// Returns whether one of `codecs` is `codec`.
fn is_among(codecs: &[Text], codec: &str) -> bool
    ensures { result ≡ list_any (bytes_eq codec.now) codecs.now }
{
    codecs.iter().any(|other| codec == other.as_str())
}

/// Returns `codecs` with commas between them.
pub(crate) fn joined(alloc: Global, codecs: &[Text]) -> Result<String, AllocError>
    ensures { IfOk result (λ t. string_bytes t ≡ line.joined codecs.now) }
{
    let mut text = String::new(alloc);
    if let Some((first, more)) = codecs.split_first() {
        text.push_str(first.as_str())?;
        push_further(&mut text, more)?;
    }
    Ok(text)
}

/// Appends each of `codecs` after a comma.
fn push_further(text: &mut String, codecs: &[Text]) -> Result<(), AllocError>
    ensures { OnOk result (string_bytes text.new ≡ string_bytes text.old ++ line.further codecs.now) }
{
    let mut left = codecs;
    'codecs: while let Some((codec, more)) = left.split_first() {
        text.push_str(",")?;
        text.push_str(codec.as_str())?;
        left = more;
    }
    Ok(())
}
