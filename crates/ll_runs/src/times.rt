//! Decides where the fragments of a governing track begin and end, and which of them go into one part, once it is known what comes after each.
ghost use Rattle.std.specs.Prelude.{◌≡◌, ◌≢◌, ◌+◌, ◌<◌, ◌≤◌, ◌^◌, true};
ghost use Rattle.ll_runs.specs.Times as spec;
ghost use Rattle.ll_runs.specs.Times.{at_tick, by_samples, is_counted, is_nearer, judged, place_of, said_to};
ghost use Rattle.ll_runs.specs.declared.times.Next.{Next};

use crate::lengths::Lengths;
use ll_mp4::DecodeTime;

/// The most bytes of a part.
pub const SIZE_LIMIT: usize = 1_048_576;

/// The last microsecond of the year 9999, counted from 1970-01-01T00:00:00Z.
pub(crate) const LAST_MICRO: u128 = 253_402_300_799_999_999;

/// The times of a run: of the fragments between two jumps of their decode times.
#[derive(Clone, Copy)]
pub struct Times {
    /// The tick at which the run begins.
    pub base: u64,
    /// The tick at which the fragment begins that waits to be judged, or the next one if none waits.
    pub position: u64,
    /// The microsecond of the run at which the part under way begins, or the next one.
    pub start: u64,
    /// Whether that part begins with a sync sample.
    pub independent: bool,
    /// The microsecond of the run at which its segment begins.
    pub segment: u64,
    /// The duration of the fragment before, in microseconds; 0 if there is none in the run.
    pub before: u64,
    /// The end of the rendition as the run begins, in microseconds.
    pub end: u64,
    /// The tick from which the program's time is counted.
    pub origin: u64,
}

/// The successor of a fragment.
#[derive(Clone, Copy)]
pub enum Next {
    /// Nothing of this movie.
    Over,
    /// A fragment whose time goes back, to this tick.
    Back(u64),
    /// A fragment that begins at this tick.
    At(u64),
}

/// The cut before a fragment: what ends there.
#[derive(Clone, Copy)]
pub enum Cut {
    /// Nothing: it joins the part under way.
    Joins,
    /// The part under way.
    Part,
    /// The part under way, as the last of its segment.
    Segment,
}

/// The times of a fragment whose successor is known, and the cut before it.
#[derive(Clone, Copy)]
pub struct Judged {
    /// The microsecond of the run at which it begins.
    pub begin: u64,
    /// Its duration, in microseconds.
    pub lasts: u64,
    /// The microsecond of the run at which it ends, at most 2^64 - 1.
    pub end: u64,
    /// What ends before it.
    pub cut: Cut,
    /// Whether the run ends with it.
    pub ends: bool,
}

/// What counts of a fragment: the duration of its samples in ticks, whether it begins with a sync sample, and the bytes of it and of what goes with
/// it.
#[derive(Clone, Copy)]
pub struct Weight {
    pub ticks: u64,
    pub sync: bool,
    pub size: usize,
}

/// Returns `ticks` in whole microseconds; a second has `scale` ticks, never 0.
#[tactic(auto, using(crate::proofs::TimeLemmas::none_pass))]
pub fn micros(scale: u32, ticks: u128) -> u128
    requires { ticks < 2 ^ 66 }
    ensures { result ≡ spec.micros scale ticks }
{
    (ticks * 1_000_000).checked_div(scale as u128).unwrap_or(0)
}

/// Returns whether `tick` can be counted: it has 64 bits, and in microseconds is at most the last one of the year 9999.
pub fn is_counted(scale: u32, tick: u128) -> bool
    requires { tick < 2 ^ 66 }
    ensures { result ≡ spec.is_counted scale tick }
{
    tick <= u64::MAX as u128 && micros(scale, tick) <= LAST_MICRO
}

impl Times {
    /// Returns the times of a run that begins at `tick`, with the rendition ending at `end`, and times counted from `origin`.
    pub fn from(tick: u64, end: u64, origin: u64) -> Times
        ensures { result ≡ spec.times_from tick end origin }
    {
        Times {
            base: tick,
            position: tick,
            start: 0,
            independent: false,
            segment: 0,
            before: 0,
            end,
            origin,
        }
    }

    /// Returns the microsecond of the run at which `tick` is.
    pub fn at_tick(&self, scale: u32, tick: u128) -> u128
        requires { tick < 2 ^ 66 }
        ensures { result ≡ at_tick scale self.now tick }
    {
        micros(scale, tick.saturating_sub(self.base as u128))
    }

    /// Returns the duration of the samples of a fragment at the run's position, in microseconds.
    fn by_samples(&self, scale: u32, ticks: u64) -> u128
        ensures { result ≡ by_samples scale self.now ticks }
    {
        let end = self.position as u128 + ticks as u128;
        self.at_tick(scale, end)
            .saturating_sub(self.at_tick(scale, self.position as u128))
    }

    /// Returns the stated duration of that fragment, in microseconds: up to the next one, or, if none continues it, that of its samples.
    pub fn said_to(&self, scale: u32, ticks: u64, next: Next) -> u128
        ensures { result ≡ said_to scale self.now ticks next }
    {
        match next {
            Next::At(tick) => self
                .at_tick(scale, tick as u128)
                .saturating_sub(self.at_tick(scale, self.position as u128)),
            Next::Over | Next::Back(_) => self.by_samples(scale, ticks),
        }
    }
}

/// Returns the duration of a fragment, in microseconds: `said`, or, if that is longer than a part, the least of a part, its samples, and the fragment
/// before it if there is one.
fn lasts(lengths: &Lengths, scale: u32, times: &Times, ticks: u64, said: u128) -> u64
    ensures { result ≡ spec.lasts lengths.now scale times.now ticks said }
{
    if said <= lengths.part as u128 {
        return said as u64;
    }
    let usual = if times.before == 0 {
        lengths.part
    } else {
        times.before.min(lengths.part)
    };
    (usual as u128).min(times.by_samples(scale, ticks)) as u64
}

/// Returns whether the segment ends before a fragment that begins `so_far` microseconds after the segment does, and lasts `lasts`.
fn ends_segment(lengths: &Lengths, so_far: u64, lasts: u64, sync: bool) -> bool
    ensures { result ≡ spec.ends_segment lengths.now so_far lasts sync }
{
    (sync && so_far >= lengths.segment) || so_far as u128 + lasts as u128 > lengths.most as u128
}

/// Returns what ends before a fragment that begins at microsecond `begin` of the run and lasts `lasts`; the part under way has `size` bytes.
fn cut_before(
    lengths: &Lengths,
    times: &Times,
    size: usize,
    begin: u64,
    lasts: u64,
    weight: Weight,
) -> Cut
    ensures { result ≡ spec.cut_before lengths.now times.now size begin lasts weight.sync weight.size }
{
    let is_large = size as u128 + weight.size as u128 > SIZE_LIMIT as u128;
    if size == 0 || (begin <= times.start && !is_large) {
        return Cut::Joins;
    }
    let in_segment = begin.saturating_sub(times.segment);
    if ends_segment(lengths, in_segment, lasts, weight.sync) {
        return Cut::Segment;
    }
    let end = begin as u128 + lasts as u128;
    let is_long = end.saturating_sub(times.start as u128) > lengths.part as u128;
    if is_long || is_large {
        Cut::Part
    } else {
        Cut::Joins
    }
}

impl Times {
    /// Returns the times of the fragment at the run's position, the cut before it, and whether the run ends with it, if `next` comes after it; the
    /// part under way has `size` bytes.
    #[tactic(auto, using(crate::proofs::TimeLemmas::begins_early))]
    pub fn judge(
        &self,
        lengths: &Lengths,
        scale: u32,
        size: usize,
        weight: Weight,
        next: Next,
    ) -> Judged
        requires { is_counted scale (self.now.position + weight.ticks) ≡ true }
        ensures { result ≡ judged lengths.now scale self.now size weight.ticks weight.sync weight.size next }
    {
        let begin = self.at_tick(scale, self.position as u128) as u64;
        let said = self.said_to(scale, weight.ticks, next);
        let lasts = lasts(lengths, scale, self, weight.ticks, said);
        Judged {
            begin,
            lasts,
            end: begin.saturating_add(lasts),
            cut: cut_before(lengths, self, size, begin, lasts, weight),
            ends: ends_run(lengths, said, next),
        }
    }
}

/// Returns whether a run ends with a fragment of the stated duration `said`, in microseconds, if `next` comes after it.
pub fn ends_run(lengths: &Lengths, said: u128, next: Next) -> bool
    ensures { result ≡ spec.ends_run lengths.now said next }
{
    match next {
        Next::Over | Next::Back(_) => true,
        Next::At(_) => said > lengths.part as u128,
    }
}

/// Returns the successor of a fragment at tick `position` if the next one has the decode time `time`.
pub fn next_at(lengths: &Lengths, scale: u32, position: u64, time: u64) -> Next
    ensures { result ≡ spec.next_at lengths.now scale position time }
{
    let back = position.saturating_sub(time) as u128 * 1_000_000;
    if back > lengths.part as u128 * scale as u128 {
        Next::Back(time)
    } else {
        Next::At(position.max(time))
    }
}

/// Two ticks of a track with `scale` ticks in a second.
#[derive(Clone, Copy)]
pub struct Span {
    pub scale: u32,
    pub first: u64,
    pub second: u64,
}

impl Span {
    /// Returns whether `decode_time` is nearer to the second tick than to the first.
    pub fn is_nearer(&self, decode_time: Option<DecodeTime>) -> bool
        ensures { result ≡ is_nearer self.now.scale self.now.first self.now.second decode_time }
    {
        let Some(decode_time) = decode_time else {
            return false;
        };
        let time = decode_time.time as u128 * self.scale as u128;
        let first = self.first as u128 * decode_time.scale as u128;
        let second = self.second as u128 * decode_time.scale as u128;
        time.abs_diff(second) < time.abs_diff(first)
    }
}

impl Times {
    /// Returns the duration of the part under way if it ends at microsecond `end` of the run: at least one microsecond.
    pub fn duration_to(&self, end: u64) -> u64
        ensures { result ≡ spec.duration_to self.now end }
    {
        end.saturating_sub(self.start).max(1)
    }

    /// Returns the end of the rendition if the part under way ends at microsecond `end` of the run, at most 2^64 - 1.
    pub fn rendition_end(&self, end: u64) -> u64
        ensures { result ≡ spec.rendition_end self.now end }
    {
        self.end
            .saturating_add(self.start)
            .saturating_add(self.duration_to(end))
    }

    /// Returns the times with the judged fragment added; the part under way had `size` bytes before it.
    pub fn joined(self, size: usize, judged: Judged, sync: bool) -> Times
        ensures { result ≡ spec.joined_to judged.cut self size judged.begin judged.lasts sync }
    {
        let before = judged.lasts;
        match judged.cut {
            Cut::Joins => Times {
                independent: if size == 0 { sync } else { self.independent },
                before,
                ..self
            },
            Cut::Part => Times {
                start: judged.begin,
                independent: sync,
                before,
                ..self
            },
            Cut::Segment => Times {
                start: judged.begin,
                segment: judged.begin,
                independent: sync,
                before,
                ..self
            },
        }
    }

    /// Returns the times after a fragment that ends at microsecond `end` of the run; `ends` says whether the run ends with it.
    pub fn after(self, end: u64, ends: bool, next: Next) -> Times
        ensures place { next ≢ Next.Over → result.position ≡ place_of next }
        ensures times { result ≡ spec.times_after self end ends next }
    {
        match next {
            Next::Over => self,
            Next::Back(tick) => Times::from(tick, self.rendition_end(end), tick),
            Next::At(tick) if ends => Times::from(tick, self.rendition_end(end), self.origin),
            Next::At(position) => Times { position, ..self },
        }
    }

    /// Returns the microseconds from the origin of the program's time to `tick`, rounded up.
    #[tactic(auto, using(crate::proofs::TimeLemmas::since_small))]
    pub fn since_origin(&self, scale: u32, tick: u64) -> u64
        requires { is_counted scale tick ≡ true }
        ensures { result ≡ spec.since_origin scale self.now tick }
    {
        let ticks = tick.saturating_sub(self.origin) as u128;
        let whole = micros(scale, ticks);
        if whole * scale as u128 == ticks * 1_000_000 {
            whole as u64
        } else {
            (whole + 1) as u64
        }
    }
}

/// Returns the tick at which the next fragment begins, or 0 if there is none.
pub fn place_of(next: Next) -> u64
    ensures { result ≡ place_of next }
{
    match next {
        Next::Over => 0,
        Next::Back(tick) | Next::At(tick) => tick,
    }
}
