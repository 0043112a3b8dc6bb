//! The text of a Multivariant Playlist (section 4.4.6).
ghost use Rattle.std.specs.Prelude.{◌≡◌, ◌++◌, Any, IfOk, IsErrOf, MatchOption, OnOk, string_bytes, true};
ghost use Rattle.std.specs.List.{list_any};
ghost use Rattle.ll_variants.specs.Playlists as spec;
ghost use Rattle.ll_variants.specs.Rates.{AreLarge};

use crate::codecs::{joined, variant_codecs};
use crate::lines::{
    HEADER, codecs_text, group_text, media_text, picture_text, rates_text, uri_text,
};
use crate::rates::Rates;
use crate::stream::{Stream, VariantFault};
use std::alloc::{AllocError, Global};

/// Returns the Multivariant Playlist of `streams`, in their order.
pub fn playlist_text(alloc: Global, streams: &[Stream]) -> Result<String, VariantFault>
    ensures text { IfOk result (λ t. string_bytes t ≡ spec.playlist streams.now) }
    ensures large { IsErrOf result VariantFault.TooLarge → spec.HasLargeVariant streams.now }
{
    let grouped = is_grouped(streams);
    let mut text = String::from_str(alloc, HEADER)?;
    if grouped {
        push_sounds(alloc, &mut text, streams)?;
    }
    push_variants(alloc, &mut text, grouped, streams)?;
    Ok(text)
}

/// Returns whether some of `streams` have pictures and some don't.
fn is_grouped(streams: &[Stream]) -> bool
    ensures { result ≡ spec.is_grouped streams.now }
{
    has_sound(streams) && has_pictures(streams)
}

/// Returns whether one of `streams` has no pictures.
fn has_sound(streams: &[Stream]) -> bool
    ensures { result ≡ list_any spec.is_sound streams.now }
{
    streams.iter().any(|stream| stream.is_sound())
}

/// Returns whether one of `streams` has pictures.
fn has_pictures(streams: &[Stream]) -> bool
    ensures { result ≡ list_any spec.has_pictures streams.now }
{
    streams.iter().any(|stream| stream.has_pictures())
}

/// Appends the lines of those of `streams` without pictures.
fn push_sounds(alloc: Global, text: &mut String, streams: &[Stream]) -> Result<(), AllocError>
    ensures { OnOk result (string_bytes text.new ≡ string_bytes text.old ++ spec.sounds_text true streams.now) }
{
    let mut first = true;
    let mut left = streams;
    'streams: while let Some((stream, more)) = left.split_first() {
        if stream.is_sound() {
            text.push_str(media_text(alloc, first, stream.name.as_str())?.as_str())?;
            first = false;
        }
        left = more;
    }
    Ok(())
}

/// Appends the variants among `streams`.
fn push_variants(
    alloc: Global,
    text: &mut String,
    grouped: bool,
    streams: &[Stream],
) -> Result<(), VariantFault>
    ensures text { OnOk result (string_bytes text.new ≡ string_bytes text.old ++ spec.variants_text grouped streams.now streams.now) }
    ensures large { IsErrOf result VariantFault.TooLarge → Any (spec.IsLargeVariant grouped streams.now) streams.now }
{
    let mut left = streams;
    'streams: while let Some((stream, more)) = left.split_first() {
        if !(grouped && stream.is_sound()) {
            push_variant(alloc, text, grouped, streams, stream)?;
        }
        left = more;
    }
    Ok(())
}

/// Appends the variant `stream`, which is played with those of `streams` without pictures if it is `grouped`.
fn push_variant(
    alloc: Global,
    text: &mut String,
    grouped: bool,
    streams: &[Stream],
    stream: &Stream,
) -> Result<(), VariantFault>
    ensures text { OnOk result (string_bytes text.new ≡ string_bytes text.old ++ spec.variant_text grouped streams.now stream.now) }
    ensures large { IsErrOf result VariantFault.TooLarge → AreLarge (spec.variant_rates grouped streams.now stream.now) }
    ensures memory { IsErrOf result VariantFault.Memory → ¬ (AreLarge (spec.variant_rates grouped streams.now stream.now)) }
{
    let rates = variant_rates(grouped, streams, stream).ok_or(VariantFault::TooLarge)?;
    let codecs = variant_codecs(alloc, grouped, streams, stream)?;
    let codecs = joined(alloc, &codecs)?;
    let (picture, rate) = (stream.section.picture(), stream.section.rate());
    text.push_str(rates_text(alloc, rates)?.as_str())?;
    text.push_str(codecs_text(alloc, codecs.as_str())?.as_str())?;
    text.push_str(picture_text(alloc, picture, rate)?.as_str())?;
    text.push_str(group_text(grouped))?;
    text.push_str(uri_text(alloc, stream.name.as_str())?.as_str())?;
    Ok(())
}

/// Returns the rates of the variant `stream`, or `None` if they are above 2^64.
fn variant_rates(grouped: bool, streams: &[Stream], stream: &Stream) -> Option<Rates>
    ensures { MatchOption result (AreLarge (spec.variant_rates grouped streams.now stream.now))
        (λ rates. rates ≡ spec.variant_rates grouped streams.now stream.now) }
{
    if !grouped {
        return Some(stream.rates);
    }
    let sound = sound_rates(streams);
    let bandwidth = stream.rates.bandwidth.checked_add(sound.bandwidth)?;
    let average = stream.rates.average.checked_add(sound.average)?;
    Some(Rates { bandwidth, average })
}

/// Returns the largest rates of those of `streams` without pictures.
fn sound_rates(streams: &[Stream]) -> Rates
    ensures { result ≡ spec.sound_rates spec.no_rates streams.now }
{
    let mut rates = Rates {
        bandwidth: 0,
        average: 0,
    };
    let mut left = streams;
    'streams: while let Some((stream, more)) = left.split_first() {
        if stream.is_sound() {
            rates = larger(rates, stream.rates);
        }
        left = more;
    }
    rates
}

/// Returns the larger bandwidth and the larger average of `a` and `b`.
fn larger(a: Rates, b: Rates) -> Rates
    ensures { result ≡ spec.larger a b }
{
    Rates {
        bandwidth: a.bandwidth.max(b.bandwidth),
        average: a.average.max(b.average),
    }
}
