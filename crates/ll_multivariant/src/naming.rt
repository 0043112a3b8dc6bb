//! The renditions that a Multivariant Playlist names, with what is known of each.
ghost use Rattle.std.specs.Prelude.{◌≡◌, ◌⊎◌, ◌<◌, ◌+◌, ◌^◌, [], MatchResult, Ok, Err, List, ℕ};
ghost use Rattle.ll_codecs.specs.Sections.{section_of};
ghost use Rattle.ll_multivariant.specs.Faults.{IsBeside};
ghost use Rattle.ll_multivariant.specs.Naming as spec;

use crate::fault::{MultivariantFault, variant_fault};
use ll_attr::Text;
use ll_codecs::{Section, read_section};
use ll_mp4::StreamFault;
use ll_settings::Settings;
use ll_variants::{Addition, Stream, finished_segments, rates_of};
use std::alloc::Global;

/// A rendition that is named, and its Media Initialization Section.
#[derive(Drop)]
pub struct NamedSection {
    /// The name of the rendition.
    pub name: Text,
    /// The bytes of the section.
    pub init: Vec<u8>,
}

/// Returns the renditions of `sources`, whose channel has the settings `settings` and whose items add `additions` to segments.
#[tactic(auto, using(crate::proofs::StreamLemmas::streams_more, crate::proofs::StreamLemmas::streams_done, crate::proofs::StreamLemmas::streams_torn))]
pub(crate) fn streams_in(
    alloc: Global,
    settings: &Settings,
    additions: &[Addition],
    sources: &[NamedSection],
) -> Result<Vec<Stream>, MultivariantFault>
    ensures { MatchResult result (λ streams. spec.streams_after [] (spec.streams_in settings.now additions.now 0 sources.now) ≡ Ok streams.items)
        (λ fault. (spec.streams_after [] (spec.streams_in settings.now additions.now 0 sources.now) ≡ Err fault) ⊎ IsBeside fault) }
{
    let mut streams = Vec::new(alloc);
    let mut number = 0_u64;
    let mut left = sources;
    'sources: while let Some((source, more)) = left.split_first() {
        number += 1;
        let stream = stream_in(alloc, settings, additions, number, source)?;
        if streams.push(stream).is_err() {
            return Err(MultivariantFault::Memory);
        }
        left = more;
    }
    Ok(streams)
}

/// Returns the rendition of `source`, which has the number `number`.
fn stream_in(
    alloc: Global,
    settings: &Settings,
    additions: &[Addition],
    number: u64,
    source: &NamedSection,
) -> Result<Stream, MultivariantFault>
    ensures { MatchResult result (λ stream. spec.stream_in settings.now additions.now number source.now ≡ Ok stream)
        (λ fault. (spec.stream_in settings.now additions.now number source.now ≡ Err fault) ⊎ IsBeside fault) }
{
    let Some(rendition) = settings.rendition(source.name.as_str()) else {
        return Err(MultivariantFault::NoRendition(number));
    };
    let section = section_or(alloc, number, &source.init)?;
    let segments = match finished_segments(alloc, rendition, additions) {
        Ok(segments) => segments,
        Err(fault) => return Err(variant_fault(fault)),
    };
    if segments.is_empty() {
        return Err(MultivariantFault::NoSegment(number));
    }
    let Some(rates) = rates_of(settings.target(), &segments) else {
        return Err(MultivariantFault::TooLarge);
    };
    Ok(Stream {
        name: source.name.copy()?,
        section,
        rates,
    })
}

/// Reads the Media Initialization Section `init` of the source with the number `number`.
fn section_or(alloc: Global, number: u64, init: &[u8]) -> Result<Section, MultivariantFault>
    ensures { MatchResult result (λ section. spec.section_or (MultivariantFault.BadInit number) (section_of init.now) ≡ Ok section)
        (λ fault. (spec.section_or (MultivariantFault.BadInit number) (section_of init.now) ≡ Err fault) ⊎ IsBeside fault) }
{
    match read_section(alloc, init) {
        Ok(section) => Ok(section),
        Err(StreamFault::Memory) => Err(MultivariantFault::Memory),
        Err(_) => Err(MultivariantFault::BadInit(number)),
    }
}
