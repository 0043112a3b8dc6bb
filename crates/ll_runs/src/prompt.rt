//! Decides where parts begin and end if each fragment is a part and doesn't wait for the next one.
ghost use Rattle.std.specs.Prelude.{◌≡◌, ◌≢◌, ◌+◌, ◌<◌, ◌≤◌, ◌^◌, false, true};
ghost use Rattle.ll_runs.specs.Prompt as spec;
ghost use Rattle.ll_runs.specs.Times.{is_counted, place_of};
ghost use Rattle.ll_runs.specs.declared.times.Next.{Next};

use crate::lengths::Lengths;
use crate::times::{LAST_MICRO, Next, Times};

/// Returns where a fragment with the decode time `time`, or without one, begins after those of the run with these `times`.
pub fn next_after(lengths: &Lengths, scale: u32, times: &Times, time: Option<u64>) -> Next
    ensures next { result ≡ spec.next_after lengths.now scale times.now time }
    ensures some { result ≢ Next.Over }
{
    let place = times.position;
    let time = time.unwrap_or(place);
    let part = lengths.part as u128 * scale as u128;
    if place.saturating_sub(time) as u128 * 1_000_000 > part {
        return Next::Back(time);
    }
    let leaves_gap = time.saturating_sub(place) as u128 * 1_000_000 > part;
    Next::At(if leaves_gap { time } else { place })
}

impl Times {
    /// Returns whether the run ends before `next`.
    pub fn ends_before(&self, next: Next) -> bool
        ensures { result ≡ spec.ends_before self.now next }
    {
        match next {
            Next::Over | Next::Back(_) => true,
            Next::At(tick) => tick > self.position,
        }
    }

    /// Returns the end of the rendition after the last part, in microseconds, at most 2^64 - 1.
    pub fn end_of_parts(&self) -> u64
        ensures { result ≡ spec.end_of_parts self.now }
    {
        self.end.saturating_add(self.start)
    }

    /// Returns the times of the run that `next` belongs to: a new run if it goes back or leaves a gap.
    pub fn at(self, next: Next) -> Times
        ensures place { next ≢ Next.Over → place_of next ≤ result.position }
        ensures times { result ≡ spec.times_at self next }
    {
        match next {
            Next::Back(tick) => Times::from(tick, self.end_of_parts(), tick),
            Next::At(tick) if tick > self.position => {
                Times::from(tick, self.end_of_parts(), self.origin)
            }
            Next::Over | Next::At(_) => self,
        }
    }

    /// Returns the duration, in microseconds, of a part whose samples last `ticks`.
    #[tactic(auto, using(crate::proofs::TimeLemmas::ends_early))]
    pub fn part_lasts(&self, scale: u32, ticks: u64) -> u64
        requires { is_counted scale (self.now.position + ticks) ≡ true }
        ensures { result ≡ spec.part_lasts scale self.now ticks }
    {
        let end = self.position as u128 + ticks as u128;
        self.duration_to(self.at_tick(scale, end) as u64)
    }

    /// Returns the microsecond of the run at which a part of `lasts` microseconds ends.
    pub fn part_end(&self, lasts: u64) -> u128
        ensures end { result ≡ spec.part_end self.now lasts }
        ensures few { result < 2 ^ 65 }
    {
        self.start as u128 + lasts as u128
    }

    /// Returns whether a part of `lasts` microseconds is too long, or ends past what can be counted.
    pub fn is_past(&self, lengths: &Lengths, lasts: u64) -> bool
        ensures past { result ≡ spec.is_past lengths.now self.now lasts }
        ensures counted { result ≡ false → spec.part_end self.now lasts < 2 ^ 64 }
    {
        lasts > lengths.part || self.part_end(lasts) > LAST_MICRO
    }

    /// Returns whether a part of `lasts` microseconds finishes its segment.
    pub fn finishes(&self, lengths: &Lengths, lasts: u64) -> bool
        ensures { result ≡ spec.finishes lengths.now self.now lasts }
    {
        let so_far = self.part_end(lasts).saturating_sub(self.segment as u128);
        so_far >= lengths.segment as u128 || so_far + lengths.part as u128 > lengths.most as u128
    }

    /// Returns the times after a part of `ticks` that ends at microsecond `end` of the run; `finishes` says whether it finishes its
    /// segment.
    pub fn past(self, ticks: u64, end: u64, finishes: bool) -> Times
        requires { self.position + ticks < 2 ^ 64 }
        ensures { result ≡ spec.times_past self ticks end finishes }
    {
        Times {
            position: self.position + ticks,
            start: end,
            segment: if finishes { end } else { self.segment },
            ..self
        }
    }
}
