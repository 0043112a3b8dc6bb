//! Reads the tracks of a movie, and which of them governs (section 8.3.1).
ghost use Rattle.std.specs.Prelude.{◌≡◌, ◌⊎◌, ◌/◌, ◌^◌, [], None, MatchResult, Ok, Err};
ghost use Rattle.ll_mp4.specs.Boxes.{contents_in};
ghost use Rattle.ll_mp4.specs.Movies as spec;
ghost use Rattle.ll_mp4.specs.Movies.{listed_in};
ghost use Rattle.ll_mp4.specs.Tracks.{better, chosen_after, governing_in, scales_after};
ghost use Rattle.ll_mp4.specs.declared.kind.Kind.TheVariants.{Hdlr, Trak, Trex};

use crate::boxes::{next_of, only};
use crate::fault::StreamFault;
use crate::kind::Kind;
use crate::numbers::number_at;
use crate::track::{Listed, TimeScale, Track};
use std::alloc::Global;

/// `vide`, the handler type of pictures (section 8.4.3).
const VIDEO: u32 = 0x7669_6465;

/// Reads the governing track of a movie, with its defaults.
pub(crate) fn read_governing(moov: &[u8]) -> Result<Track, StreamFault>
    ensures { result ≡ governing_in moov.now }
{
    let chosen = choose(moov)?;
    read_defaults(moov, chosen.scale)
}

/// Returns the governing track of a movie: the first with pictures, or else the first.
fn choose(moov: &[u8]) -> Result<Listed, StreamFault>
    ensures { result ≡ chosen_after None (listed_in (contents_in Trak moov.now)) }
{
    let mut chosen = None;
    let mut rest = moov;
    'tracks: while let Some((trak, after)) = next_of(Kind::Trak, rest)? {
        let track = read_listed(trak)?;
        chosen = Some(better(chosen, track));
        rest = after;
    }
    chosen.ok_or(StreamFault::Missing(Kind::Trak))
}

/// Returns which of `track` and `chosen`, the choice among the tracks before it, governs.
fn better(chosen: Option<Listed>, track: Listed) -> Listed
    ensures { result ≡ better chosen track }
{
    match chosen {
        Some(before) if before.is_video || !track.is_video => before,
        _ => track,
    }
}

/// Reads the time scales of a movie's tracks.
#[tactic(auto, using(crate::proofs::TrackLemmas::scales_more, crate::proofs::TrackLemmas::scales_done))]
pub(crate) fn read_scales(alloc: Global, moov: &[u8]) -> Result<Vec<TimeScale>, StreamFault>
    ensures { MatchResult result (λ scales. scales_after [] (listed_in (contents_in Trak moov.now)) ≡ Ok scales.items)
        (λ fault. (scales_after [] (listed_in (contents_in Trak moov.now)) ≡ Err fault) ⊎ (fault ≡ StreamFault.Memory)) }
{
    let mut scales = Vec::new(alloc);
    let mut rest = moov;
    'tracks: while let Some((trak, after)) = next_of(Kind::Trak, rest)? {
        let track = read_listed(trak)?;
        match scales.push(track.scale) {
            Ok(()) => rest = after,
            Err(_) => return Err(StreamFault::Memory),
        }
    }
    Ok(scales)
}

/// Reads a track.
fn read_listed(trak: &[u8]) -> Result<Listed, StreamFault>
    ensures { result ≡ spec.listed_of trak.now }
{
    let id = read_id(trak)?;
    let mdia = only(Kind::Mdia, trak)?;
    let scale = read_ticks(mdia)?;
    let is_video = has_pictures(mdia)?;
    Ok(Listed {
        scale: TimeScale { id, scale },
        is_video,
    })
}

/// Reads the ID of a track (section 8.3.2).
fn read_id(trak: &[u8]) -> Result<u32, StreamFault>
    ensures { result ≡ spec.id_of trak.now }
{
    let tkhd = only(Kind::Tkhd, trak)?;
    timed_field(tkhd)
}

/// Reads the number of ticks in a second (section 8.4.2). Fails with `NoTimeScale` if it is 0.
fn read_ticks(mdia: &[u8]) -> Result<u32, StreamFault>
    ensures { result ≡ spec.ticks_of mdia.now }
{
    let mdhd = only(Kind::Mdhd, mdia)?;
    match timed_field(mdhd)? {
        0 => Err(StreamFault::NoTimeScale),
        scale => Ok(scale),
    }
}

/// Returns whether a track has pictures, by its first handler (section 8.4.3).
fn has_pictures(mdia: &[u8]) -> Result<bool, StreamFault>
    ensures { result ≡ spec.has_pictures (contents_in Hdlr mdia.now) }
{
    let Some((hdlr, _)) = next_of(Kind::Hdlr, mdia)? else {
        return Ok(false);
    };
    let handler = number_at(8, hdlr)?;
    Ok(handler == VIDEO)
}

/// Reads the track with the time scale `scale` and the defaults that a movie has for it (section 8.8.1).
fn read_defaults(moov: &[u8], scale: TimeScale) -> Result<Track, StreamFault>
    ensures { result ≡ spec.defaults_in moov.now scale }
{
    let mvex = only(Kind::Mvex, moov)?;
    let trex = find_trex(scale.id, mvex)?;
    with_defaults(scale, trex)
}

/// Finds the first defaults for the track with the ID `id` (section 8.8.3).
fn find_trex(id: u32, mvex: &[u8]) -> Result<&[u8], StreamFault>
    ensures { MatchResult result (λ trex. spec.trex_for id (contents_in Trex mvex.now) ≡ Ok trex.now)
        (λ fault. spec.trex_for id (contents_in Trex mvex.now) ≡ Err fault) }
{
    let mut rest = mvex;
    'defaults: while let Some((trex, after)) = next_of(Kind::Trex, rest)? {
        if number_at(4, trex)? == id {
            return Ok(trex);
        }
        rest = after;
    }
    Err(StreamFault::Missing(Kind::Trex))
}

/// Reads the track with the time scale `scale` and the defaults of `trex`.
fn with_defaults(scale: TimeScale, trex: &[u8]) -> Result<Track, StreamFault>
    ensures { result ≡ spec.with_defaults scale trex.now }
{
    let duration = number_at(12, trex)?;
    let flags = number_at(20, trex)?;
    Ok(Track {
        id: scale.id,
        scale: scale.scale,
        duration,
        flags,
    })
}

/// Reads the 32-bit field after the two times of a header that begins with a version.
fn timed_field(content: &[u8]) -> Result<u32, StreamFault>
    ensures { result ≡ spec.timed_field content.now }
{
    let word = number_at(0, content)?;
    let place = after_times(word >> 24)?;
    number_at(place, content)
}

/// Returns the place of that field after times of 32 bits in version 0 and 64 bits in version 1; any other
/// version is `BadBox`.
fn after_times(version: u32) -> Result<u32, StreamFault>
    ensures { result ≡ spec.after_times version }
{
    match version {
        0 => Ok(12),
        1 => Ok(20),
        _ => Err(StreamFault::BadBox),
    }
}
