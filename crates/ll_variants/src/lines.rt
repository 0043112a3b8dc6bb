//! Writes the lines of a Multivariant Playlist (sections 4.4.6.1 and 4.4.6.2).
ghost use Rattle.std.specs.Prelude.{◌≡◌, IfOk, string_bytes};
ghost use Rattle.ll_variants.specs.Lines as spec;

use crate::rates::Rates;
use ll_codecs::Picture;
use std::alloc::{AllocError, Global};

/// The first lines.
pub(crate) const HEADER: &str = "#EXTM3U\n#EXT-X-VERSION:10\n";

/// Returns the line of the rendition `name` without pictures, which is the default one if it is `first`.
#[tactic(auto, unfolding(crate::specs::Lines::media_text))]
pub(crate) fn media_text(alloc: Global, first: bool, name: &str) -> Result<String, AllocError>
    ensures { IfOk result (λ t. string_bytes t ≡ spec.media_text first name.now) }
{
    let default = yes_no(first);
    format!(in alloc;
        "#EXT-X-MEDIA:TYPE=AUDIO,GROUP-ID=\"audio\",NAME=\"{name}\",DEFAULT={default},AUTOSELECT=YES,URI=\"{name}/live.m3u8\"\n"
    )
}

/// Returns `YES` or `NO`.
fn yes_no(yes: bool) -> &'static str
    ensures { result.now ≡ spec.yes_no yes }
{
    if yes { "YES" } else { "NO" }
}

/// Returns the tag of a variant with the attributes of `rates`.
#[tactic(auto, unfolding(crate::specs::Lines::rates_text))]
pub(crate) fn rates_text(alloc: Global, rates: Rates) -> Result<String, AllocError>
    ensures { IfOk result (λ t. string_bytes t ≡ spec.rates_text rates) }
{
    let (bandwidth, average) = (rates.bandwidth, rates.average);
    format!(in alloc; "#EXT-X-STREAM-INF:BANDWIDTH={bandwidth},AVERAGE-BANDWIDTH={average}")
}

/// Returns the attribute of `codecs`.
#[tactic(auto, unfolding(crate::specs::Lines::codecs_text))]
pub(crate) fn codecs_text(alloc: Global, codecs: &str) -> Result<String, AllocError>
    ensures { IfOk result (λ t. string_bytes t ≡ spec.codecs_text codecs.now) }
{
    format!(in alloc; ",CODECS=\"{codecs}\"")
}

/// Returns the attributes of the size of pictures and of their rate, in thousandths a second; none if there are no pictures.
pub(crate) fn picture_text(
    alloc: Global,
    picture: Option<Picture>,
    rate: Option<u64>,
) -> Result<String, AllocError>
    ensures { IfOk result (λ t. string_bytes t ≡ spec.picture_text picture rate) }
{
    let Some(picture) = picture else {
        return Ok(String::new(alloc));
    };
    let mut text = size_text(alloc, picture)?;
    text.push_str(rate_text(alloc, rate)?.as_str())?;
    Ok(text)
}

/// Returns the attribute of the size of pictures.
#[tactic(auto, unfolding(crate::specs::Lines::size_text))]
fn size_text(alloc: Global, picture: Picture) -> Result<String, AllocError>
    ensures { IfOk result (λ t. string_bytes t ≡ spec.size_text picture) }
{
    let (width, height) = (picture.width, picture.height);
    format!(in alloc; ",RESOLUTION={width}x{height}")
}

/// Returns the attribute of the rate of pictures, if it is known.
fn rate_text(alloc: Global, rate: Option<u64>) -> Result<String, AllocError>
    ensures { IfOk result (λ t. string_bytes t ≡ spec.rate_text rate) }
{
    match rate {
        Some(rate) => frames_text(alloc, rate),
        None => Ok(String::new(alloc)),
    }
}

/// Returns the attribute of the rate of pictures, `rate` thousandths a second.
#[tactic(auto, unfolding(crate::specs::Lines::frames_text))]
fn frames_text(alloc: Global, rate: u64) -> Result<String, AllocError>
    ensures { IfOk result (λ t. string_bytes t ≡ spec.frames_text rate) }
{
    let whole = rate / 1000;
    let (tenths, hundredths, thousandths) = (rate / 100 % 10, rate / 10 % 10, rate % 10);
    format!(in alloc; ",FRAME-RATE={whole}.{tenths}{hundredths}{thousandths}")
}

/// Returns the attribute of the group of the renditions without pictures, if there is one.
pub(crate) fn group_text(grouped: bool) -> &'static str
    ensures { result.now ≡ spec.group_text grouped }
{
    if grouped { ",AUDIO=\"audio\"" } else { "" }
}

/// Returns the end of a variant's line, and the line of the URI of its playlist.
#[tactic(auto, unfolding(crate::specs::Lines::uri_text))]
pub(crate) fn uri_text(alloc: Global, name: &str) -> Result<String, AllocError>
    ensures { IfOk result (λ t. string_bytes t ≡ spec.uri_text name.now) }
{
    format!(in alloc; "\n{name}/live.m3u8\n")
}
