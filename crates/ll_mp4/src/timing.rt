//! Reads the times of a fragment (section 8.8.4): those of its movie's governing track, or the first decode time of any track.
ghost use Rattle.std.specs.Prelude.{◌≡◌, ◌/◌, ◌^◌, None};
ghost use Rattle.ll_mp4.specs.Boxes.{contents_in};
ghost use Rattle.ll_mp4.specs.DecodeTimes.{decode_time_of};
ghost use Rattle.ll_mp4.specs.DecodeTimes as decode_times;
ghost use Rattle.ll_mp4.specs.Timings as spec;
ghost use Rattle.ll_mp4.specs.declared.kind.Kind.TheVariants.{Traf};

use crate::boxes::{at_most_one, next_of, only};
use crate::fault::StreamFault;
use crate::flags as flag;
use crate::kind::Kind;
use crate::movie::Movie;
use crate::numbers::{has, large_number_at, number_at};
use crate::runs::{defaults_of, read_runs};
use crate::track::Track;

/// The times of a fragment of its movie's governing track.
#[derive(Clone, Copy)]
pub struct Timing {
    /// The decode time of its first sample, in ticks (section 8.8.12).
    pub time: Option<u64>,
    /// The duration of its samples, in ticks, at most 2^64 - 1.
    pub ticks: u64,
    /// Whether its first sample is a sync sample; if it has no samples, whether one would be by the defaults.
    pub sync: bool,
}

/// A decode time (section 8.8.12).
#[derive(Clone, Copy)]
pub struct DecodeTime {
    /// The time, in ticks.
    pub time: u64,
    /// The number of ticks in a second.
    pub scale: u32,
}

/// Reads the timing of the fragment in `unit`. Returns `None` if there is no fragment, or none of the governing track.
pub fn read_timing(movie: &Movie, unit: &[u8]) -> Result<Option<Timing>, StreamFault>
    ensures { result ≡ spec.timing_of movie.now unit.now }
{
    let Some(moof) = at_most_one(Kind::Moof, unit)? else {
        return Ok(None);
    };
    if next_of(Kind::Traf, moof)?.is_none() {
        return Err(StreamFault::Missing(Kind::Traf));
    }
    read_trafs(movie, moof)
}

/// Reads the timing of all tracks' fragments in `moof`.
fn read_trafs(movie: &Movie, moof: &[u8]) -> Result<Option<Timing>, StreamFault>
    ensures { result ≡ spec.and_trafs movie.now None (contents_in Traf moof.now) }
{
    let mut timing = None;
    let mut rest = moof;
    'tracks: while let Some((traf, after)) = next_of(Kind::Traf, rest)? {
        timing = and_traf(movie, timing, traf)?;
        rest = after;
    }
    Ok(timing)
}

/// Returns the timing after the track's fragment `traf`; `before` is the timing of those before it.
fn and_traf(
    movie: &Movie,
    before: Option<Timing>,
    traf: &[u8],
) -> Result<Option<Timing>, StreamFault>
    ensures { result ≡ spec.and_traf movie.now before traf.now }
{
    let tfhd = only(Kind::Tfhd, traf)?;
    let id = number_at(4, tfhd)?;
    let governing = movie.governing();
    if id == governing.id {
        return and_governing(&governing, before, tfhd, traf);
    }
    match movie.scale_of(id) {
        Some(_) => Ok(before),
        None => Err(StreamFault::OtherTrack),
    }
}

/// Reads the timing of the governing track's fragment. Fails with `Several(Traf)` if there was one before it.
fn and_governing(
    track: &Track,
    before: Option<Timing>,
    tfhd: &[u8],
    traf: &[u8],
) -> Result<Option<Timing>, StreamFault>
    ensures { result ≡ spec.and_governing track.now before tfhd.now traf.now }
{
    if before.is_some() {
        return Err(StreamFault::Several(Kind::Traf));
    }
    let timing = timing_in(track, tfhd, traf)?;
    Ok(Some(timing))
}

/// Reads the timing of a track's fragment with the header `tfhd`.
fn timing_in(track: &Track, tfhd: &[u8], traf: &[u8]) -> Result<Timing, StreamFault>
    ensures { result ≡ spec.timing_in track.now tfhd.now traf.now }
{
    let time = read_time(traf)?;
    let ours = defaults_of(track, tfhd)?;
    let samples = read_runs(&ours, traf)?;
    Ok(Timing {
        time,
        ticks: samples.ticks,
        sync: !has(samples.flags, flag::NON_SYNC),
    })
}

/// Reads the decode time of a track's fragment (section 8.8.12).
fn read_time(traf: &[u8]) -> Result<Option<u64>, StreamFault>
    ensures { result ≡ spec.time_of traf.now }
{
    let Some(tfdt) = at_most_one(Kind::Tfdt, traf)? else {
        return Ok(None);
    };
    let word = number_at(0, tfdt)?;
    let time = time_by(word >> 24, tfdt)?;
    Ok(Some(time))
}

/// Reads the decode time of a box of this version: 32 bits in version 0, 64 bits in version 1, `BadBox` in any other.
fn time_by(version: u32, tfdt: &[u8]) -> Result<u64, StreamFault>
    ensures { result ≡ spec.time_by version tfdt.now }
{
    match version {
        0 => Ok(number_at(4, tfdt)? as u64),
        1 => large_number_at(4, tfdt),
        _ => Err(StreamFault::BadBox),
    }
}

/// Reads the first decode time of any of the movie's tracks in the fragment of `unit`. Returns `None` if it has no fragment or no such time. Ignores
/// the faults of a track's fragment.
pub(crate) fn read_decode_time(movie: &Movie, unit: &[u8]) -> Option<DecodeTime>
    ensures { result ≡ decode_time_of movie.now unit.now }
{
    let Ok(Some(moof)) = at_most_one(Kind::Moof, unit) else {
        return None;
    };
    first_decode_time(movie, moof)
}

/// Reads the first decode time in `moof`.
fn first_decode_time(movie: &Movie, moof: &[u8]) -> Option<DecodeTime>
    ensures { result ≡ decode_times.first_decode_time movie.now (contents_in Traf moof.now) }
{
    let mut rest = moof;
    'tracks: while let Ok(Some((traf, after))) = next_of(Kind::Traf, rest) {
        if let Ok(Some(decode_time)) = decode_time_in(movie, traf) {
            return Some(decode_time);
        }
        rest = after;
    }
    None
}

/// Reads the decode time of a track's fragment, if it has one and its track is one of the movie's.
fn decode_time_in(movie: &Movie, traf: &[u8]) -> Result<Option<DecodeTime>, StreamFault>
    ensures { result ≡ decode_times.decode_time_in movie.now traf.now }
{
    let tfhd = only(Kind::Tfhd, traf)?;
    let id = number_at(4, tfhd)?;
    let time = read_time(traf)?;
    Ok(decode_time_by(movie.scale_of(id), time))
}

/// Returns the decode time `time` in a track of `scale` ticks a second, if both are known.
fn decode_time_by(scale: Option<u32>, time: Option<u64>) -> Option<DecodeTime>
    ensures { result ≡ decode_times.decode_time_by scale time }
{
    match (scale, time) {
        (Some(scale), Some(time)) => Some(DecodeTime { time, scale }),
        _ => None,
    }
}
