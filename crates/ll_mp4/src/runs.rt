//! Reads the samples of a track's fragment: their defaults, and its runs (section 8.8.6).
ghost use Rattle.std.specs.Prelude.{◌≡◌, ◌≤◌, ◌+◌, ◌*◌, IfOk, MatchResult, Ok, Err, None, length, min, true};
ghost use Rattle.ll_mp4.specs.Boxes.{contents_in};
ghost use Rattle.ll_mp4.specs.Samples as spec;
ghost use Rattle.ll_mp4.specs.Samples.{tick_limit};
ghost use Rattle.ll_mp4.specs.Numbers.{has};
ghost use Rattle.ll_mp4.specs.Runs.{after_samples, first_so_far, run_value};
ghost use Rattle.ll_mp4.specs.declared.kind.Kind.TheVariants.{Trun};

use crate::boxes::next_of;
use crate::fault::StreamFault;
use crate::flags as flag;
use crate::kind::Kind;
use crate::numbers::{has, number_at, number_or, room};
use crate::track::Track;
use byteorder::{BigEndian, ByteOrder};

/// The samples of a track's fragment, taken together.
#[derive(Clone, Copy)]
pub(crate) struct Samples {
    /// The sum of their durations, in ticks, at most 2^64 - 1.
    pub(crate) ticks: u64,
    /// The flags of the first of them, or the defaults if there is none.
    pub(crate) flags: u32,
}

/// A run of samples (section 8.8.8).
#[derive(Clone, Copy)]
struct Run<'a> {
    /// The flags that say which fields are present.
    flags: u32,
    /// The number of its samples.
    count: u32,
    /// The flags of its first sample alone, or 0 if it has none.
    first: u32,
    /// The fields of its samples.
    table: &'a [u8],
}

/// Returns `track` with the defaults of a fragment with the header `tfhd` (section 8.8.7).
pub(crate) fn defaults_of(track: &Track, tfhd: &[u8]) -> Result<Track, StreamFault>
    ensures { result ≡ spec.defaults_of track.now tfhd.now }
{
    let flags = number_at(0, tfhd)?;
    let duration_place = 8 + room(flags, flag::BASE_OFFSET, 8) + room(flags, flag::DESCRIPTION, 4);
    let flags_place = duration_place
        + room(flags, flag::DEFAULT_DURATION, 4)
        + room(flags, flag::DEFAULT_SIZE, 4);
    let duration = number_or(
        has(flags, flag::DEFAULT_DURATION),
        duration_place,
        tfhd,
        track.duration,
    )?;
    let sample_flags = number_or(
        has(flags, flag::DEFAULT_FLAGS),
        flags_place,
        tfhd,
        track.flags,
    )?;
    Ok(Track {
        duration,
        flags: sample_flags,
        ..*track
    })
}

/// Reads the samples of a track's fragment, whose box has the content `traf`.
#[tactic(auto, using(crate::proofs::RunLemmas::runs_ended, crate::proofs::RunLemmas::runs_more, crate::proofs::RunLemmas::runs_bad))]
pub(crate) fn read_runs(track: &Track, traf: &[u8]) -> Result<Samples, StreamFault>
    ensures { result ≡ after_samples 0 None (spec.runs_of track.now (contents_in Trun traf.now)) }
{
    let mut ticks = 0;
    let mut first = None;
    let mut rest = traf;
    'runs: while let Some((trun, after)) = next_of(Kind::Trun, rest)? {
        let run = read_run(trun)?;
        ticks = run_end(ticks, track, &run);
        first = first_so_far(first, track, &run);
        rest = after;
    }
    Ok(Samples {
        ticks,
        flags: first.unwrap_or(track.flags),
    })
}

/// Reads a run. Fails with `BadBox` if fields of its samples are missing.
fn read_run(trun: &[u8]) -> Result<Run<'_>, StreamFault>
    ensures run { MatchResult result (λ run. spec.run_of trun.now ≡ Ok (run_value run)) (λ fault. spec.run_of trun.now ≡ Err fault) }
    ensures enough { IfOk result (λ run. run.count * spec.width run.flags ≤ length run.table.now) }
{
    let flags = number_at(0, trun)?;
    let count = number_at(4, trun)?;
    let first_place = 8 + room(flags, flag::DATA_OFFSET, 4);
    let first = number_or(has(flags, flag::FIRST_FLAGS), first_place, trun, 0)?;
    let table = table_of(flags, count, trun)?;
    Ok(Run {
        flags,
        count,
        first,
        table,
    })
}

/// Returns the fields of `count` samples. Fails with `BadBox` if some are missing.
fn table_of(flags: u32, count: u32, trun: &[u8]) -> Result<&[u8], StreamFault>
    ensures table { MatchResult result (λ table. spec.table_of flags count trun.now ≡ Ok table.now) (λ fault. spec.table_of flags count trun.now ≡ Err fault) }
    ensures enough { IfOk result (λ table. count * spec.width flags ≤ length table.now) }
{
    let place = (8
        + room(flags, flag::DATA_OFFSET, 4)
        + room(flags, flag::FIRST_FLAGS, 4)) as usize;
    let bytes = count as usize * width(flags) as usize;
    if trun.len() < place + bytes {
        return Err(StreamFault::BadBox);
    }
    Ok(&trun[place..])
}

/// Returns the length of one sample's fields, in bytes.
fn width(flags: u32) -> u32
    ensures told { result ≡ spec.width flags }
    ensures few { result ≤ 16 }
{
    room(flags, flag::DURATION, 4)
        + room(flags, flag::SIZE, 4)
        + room(flags, flag::FLAGS, 4)
        + room(flags, flag::OFFSET, 4)
}

/// Returns the tick at which `run` ends if it begins at `from`, at most 2^64 - 1.
fn run_end(from: u64, track: &Track, run: &Run<'_>) -> u64
    requires { run.now.count * spec.width run.now.flags ≤ length run.now.table.now }
    ensures { result ≡ min (from + spec.run_ticks track.now (run_value run.now)) tick_limit }
{
    if has(run.flags, flag::DURATION) {
        samples_end(from, run)
    } else {
        from.saturating_add(run.count as u64 * track.duration as u64)
    }
}

/// Returns the tick at which `run`, whose samples have their own durations, ends if it begins at `from`, at most 2^64 - 1.
fn samples_end(from: u64, run: &Run<'_>) -> u64
    requires stand { has run.now.flags 0x000100 ≡ true }
    requires enough { run.now.count * spec.width run.now.flags ≤ length run.now.table.now }
    ensures { result ≡ min (from + spec.durations (spec.width run.now.flags) run.now.count run.now.table.now) tick_limit }
{
    let bytes = width(run.flags) as usize;
    let mut tick = from;
    let mut rest = run.table;
    'samples: for _ in 0..run.count {
        tick = tick.saturating_add(BigEndian::read_u32(rest) as u64);
        (_, rest) = rest.split_at(bytes);
    }
    tick
}

/// Returns the flags of the first sample of the runs up to `run`, or `None` if they have no samples.
fn first_so_far(first: Option<u32>, track: &Track, run: &Run<'_>) -> Option<u32>
    requires { run.now.count * spec.width run.now.flags ≤ length run.now.table.now }
    ensures { result ≡ first_so_far first track.now (run_value run.now) }
{
    if first.is_some() || run.count == 0 {
        return first;
    }
    Some(first_flags(track, run))
}

/// Returns the flags of the first sample of `run`, which has one.
fn first_flags(track: &Track, run: &Run<'_>) -> u32
    requires some { 1 ≤ run.now.count }
    requires enough { run.now.count * spec.width run.now.flags ≤ length run.now.table.now }
    ensures { result ≡ spec.first_of track.now (run_value run.now) }
{
    if has(run.flags, flag::FIRST_FLAGS) {
        return run.first;
    }
    if !has(run.flags, flag::FLAGS) {
        return track.flags;
    }
    let place = room(run.flags, flag::DURATION, 4) + room(run.flags, flag::SIZE, 4);
    BigEndian::read_u32(&run.table[place as usize..])
}
