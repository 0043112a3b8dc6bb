//! Makes the parts of a stream if each fragment is a part and is published as it comes.
ghost use Rattle.std.specs.Prelude.{◌≡◌, ◌+◌, ◌<◌, ◌^◌, ◌++◌, ◌∷◌, [], IfOk, true};
ghost use Rattle.ll_parts.specs.Prompt as spec;
ghost use Rattle.ll_parts.specs.Prompt.{parted};
ghost use Rattle.ll_runs.specs.Prompt as runs;
ghost use Rattle.ll_runs.specs.Times.{is_counted, place_of};

use crate::bytes::Bytes;
use crate::frame::Frame;
use crate::pieces::{Piece, PieceQueue};
use ll_mp4::Timing;
use ll_runs::{Next, Times};
use std::alloc::AllocError;

impl Frame<'_> {
    /// Appends a finish to `out` if a segment is open.
    pub(crate) fn finish(&self, times: &Times, out: &mut PieceQueue) -> Result<(), AllocError>
        ensures { IfOk result (λ _. out.new ≡ out.old ++ spec.finish times.now) }
    {
        if times.start > times.segment {
            out.push(Piece::Finish)?;
        }
        Ok(())
    }

    /// Appends to `out` the pieces before `next`: if the run ends, a finish if a segment is open, a break and
    /// the initialization section.
    fn end_before(&self, times: &Times, next: Next, out: &mut PieceQueue) -> Result<(), AllocError>
        requires { is_counted self.now.heading.now.scale (place_of next) ≡ true }
        ensures { IfOk result (λ _. out.new ≡ out.old ++ spec.said_between self.now.heading.now times.now next) }
    {
        if !times.ends_before(next) {
            return Ok(());
        }
        self.finish(times, out)?;
        self.end(times, next, out)?;
        Ok(())
    }

    /// Appends a fragment's part of these `bytes`, in a run with these `times`, to `out`, and returns the times
    /// after it.
    #[tactic(auto, using(ll_runs::proofs::TimeLemmas::counted_few))]
    pub(crate) fn add_part(
        &self,
        times: Times,
        bytes: Bytes,
        timing: Timing,
        out: &mut PieceQueue,
    ) -> Result<Times, AllocError>
        requires counted { is_counted self.now.heading.now.scale (times.position + timing.ticks) ≡ true }
        requires early { runs.part_end times (runs.part_lasts self.now.heading.now.scale times timing.ticks) < 2 ^ 64 }
        ensures piece { IfOk result (λ _. out.new ≡ out.old ++ (parted self.now.lengths.now self.now.heading.now times bytes timing).piece ∷ []) }
        ensures times { IfOk result (λ after. after ≡ (parted self.now.lengths.now self.now.heading.now times bytes timing).times) }
        ensures counted { IfOk result (λ after. is_counted self.now.heading.now.scale after.position ≡ true) }
    {
        let run = Times {
            independent: timing.sync,
            ..times
        };
        let lasts = run.part_lasts(self.heading.scale, timing.ticks);
        let finishes = run.finishes(self.lengths, lasts);
        out.push(self.part(&run, bytes, lasts, finishes)?)?;
        Ok(run.past(timing.ticks, run.part_end(lasts) as u64, finishes))
    }

    /// Appends to `out` the pieces between a run with these `times` and `next`, and then a fragment's part of these `bytes`, which is at `next`.
    /// Returns the times after it.
    pub(crate) fn add_next(
        &self,
        times: &Times,
        next: Next,
        bytes: Bytes,
        timing: Timing,
        out: &mut PieceQueue,
    ) -> Result<Times, AllocError>
        requires place { is_counted self.now.heading.now.scale (place_of next) ≡ true }
        requires counted { is_counted self.now.heading.now.scale ((runs.times_at times.now next).position + timing.ticks) ≡ true }
        requires early { runs.part_end (runs.times_at times.now next) (runs.part_lasts self.now.heading.now.scale (runs.times_at times.now next) timing.ticks) < 2 ^ 64 }
        ensures pieces { IfOk result (λ _. out.new ≡ out.old ++ (spec.said_between self.now.heading.now times.now next ++ (parted self.now.lengths.now self.now.heading.now (runs.times_at times.now next) bytes timing).piece ∷ [])) }
        ensures times { IfOk result (λ after. after ≡ (parted self.now.lengths.now self.now.heading.now (runs.times_at times.now next) bytes timing).times) }
        ensures counted { IfOk result (λ after. is_counted self.now.heading.now.scale after.position ≡ true) }
    {
        self.end_before(times, next, out)?;
        self.add_part(times.at(next), bytes, timing, out)
    }
}
