//! Makes the pieces of a movie, fragment by fragment, once the next fragment of each is known.
ghost use Rattle.std.specs.Prelude.{◌≡◌, ◌≢◌, ◌+◌, ◌++◌, ◌∷◌, IfOk, true};
ghost use Rattle.ll_parts.specs.Joined as spec;
ghost use Rattle.ll_parts.specs.Joined.{group_of, step_of};
ghost use Rattle.ll_parts.specs.Pieces.{ending, part_of};
ghost use Rattle.ll_runs.specs.Times.{is_counted, place_of};
ghost use Rattle.ll_runs.specs.declared.times.Next.{Next};

use crate::bytes::Bytes;
use crate::heading::Heading;
use crate::pieces::{MediaPart, Piece, PieceQueue};
use crate::stage::{Group, Held, Onward};
use ll_runs::{Cut, Judged, Lengths, Next, Times, Weight};
use ll_shift::Shift;
use std::alloc::{AllocError, Global};

/// The values with which the pieces of a movie are made.
#[derive(Clone, Copy)]
pub(crate) struct Frame<'a> {
    pub(crate) alloc: Global,
    pub(crate) lengths: &'a Lengths,
    pub(crate) heading: &'a Heading,
}

impl Frame<'_> {
    /// Returns the part under way, of the bytes `under`, with their times moved.
    pub(crate) fn part(
        &self,
        times: &Times,
        under: Bytes,
        duration: u64,
        finishes: bool,
    ) -> Result<Piece, AllocError>
        ensures { IfOk result (λ piece. piece ≡ part_of self.now.heading.now times.now under duration finishes) }
    {
        let shift = Shift {
            base: times.base,
            scale: self.heading.scale,
            end: times.end,
        };
        let scales = self.heading.scales.as_slice();
        Ok(Piece::Media(MediaPart {
            bytes: under.moved(self.alloc, &shift, scales)?,
            duration,
            independent: times.independent,
            finishes,
        }))
    }

    /// Appends the part that ends before a fragment, if any, to `out`. Returns the bytes of the part under way with those of the fragment, `more`.
    fn cut_off(
        &self,
        times: &Times,
        under: Bytes,
        judged: Judged,
        more: Bytes,
        out: &mut PieceQueue,
    ) -> Result<Bytes, AllocError>
        ensures { IfOk result (λ bytes. (bytes ≡ spec.with_group judged.cut under more) × (out.new ≡ out.old ++ spec.said_before self.now.heading.now times.now under judged.begin judged.cut)) }
    {
        let finishes = match judged.cut {
            Cut::Joins => return under.with(more),
            Cut::Part => false,
            Cut::Segment => true,
        };
        let duration = times.duration_to(judged.begin);
        out.push(self.part(times, under, duration, finishes)?)?;
        Ok(more)
    }

    /// Appends to `out` the part under way, which ends at microsecond `end` of its run and ends its segment, and the pieces before the next run.
    fn end_run(
        &self,
        times: &Times,
        under: Bytes,
        end: u64,
        next: Next,
        out: &mut PieceQueue,
    ) -> Result<(), AllocError>
        requires { is_counted self.now.heading.now.scale (place_of next) ≡ true }
        ensures { IfOk result (λ _. out.new ≡ out.old ++ spec.said_after self.now.heading.now times.now under end true next) }
    {
        let duration = times.duration_to(end);
        out.push(self.part(times, under, duration, true)?)?;
        self.end(times, next, out)
    }

    /// Appends to `out` the pieces between a run with these `times` and the next: none if nothing comes after it, else a break and the initialization
    /// section.
    pub(crate) fn end(
        &self,
        times: &Times,
        next: Next,
        out: &mut PieceQueue,
    ) -> Result<(), AllocError>
        requires { is_counted self.now.heading.now.scale (place_of next) ≡ true }
        ensures { IfOk result (λ _. out.new ≡ out.old ++ ending self.now.heading.now times.now next) }
    {
        let since = match next {
            Next::Over => return Ok(()),
            Next::Back(_) => None,
            Next::At(tick) => Some(times.since_origin(self.heading.scale, tick)),
        };
        out.push(Piece::Break(since))?;
        out.push(Piece::Init(Bytes::of(self.alloc, self.heading.section.as_slice())?))
    }

    /// Appends to `out` the pieces that the fragment `group` completes; it begins at the position of `times`, and `next` comes after it. `under` are
    /// the bytes of the part under way. Returns what continues after it.
    pub(crate) fn step(
        &self,
        times: Times,
        under: Bytes,
        group: Group,
        next: Next,
        out: &mut PieceQueue,
    ) -> Result<Onward, AllocError>
        requires counted { is_counted self.now.heading.now.scale (times.position + group.ticks) ≡ true }
        requires place { is_counted self.now.heading.now.scale (place_of next) ≡ true }
        ensures onward { IfOk result (λ onward. onward ≡ (step_of self.now.lengths.now self.now.heading.now times under group next).onward) }
        ensures place { IfOk result (λ onward. next ≢ Next.Over → onward.times.position ≡ place_of next) }
        ensures pieces { IfOk result (λ _. out.new ≡ out.old ++ (step_of self.now.lengths.now self.now.heading.now times under group next).pieces) }
    {
        let weight = Weight {
            ticks: group.ticks,
            sync: group.sync,
            size: group.bytes.len(),
        };
        let judged = times.judge(self.lengths, self.heading.scale, under.len(), weight, next);
        self.step_by(times, under, group, next, judged, out)
    }

    /// Does the same once it is known how the fragment was `judged`.
    fn step_by(
        &self,
        times: Times,
        under: Bytes,
        group: Group,
        next: Next,
        judged: Judged,
        out: &mut PieceQueue,
    ) -> Result<Onward, AllocError>
        requires { is_counted self.now.heading.now.scale (place_of next) ≡ true }
        ensures onward { IfOk result (λ onward. onward ≡ (spec.step_by self.now.heading.now times under group next judged).onward) }
        ensures place { IfOk result (λ onward. next ≢ Next.Over → onward.times.position ≡ place_of next) }
        ensures pieces { IfOk result (λ _. out.new ≡ out.old ++ (spec.step_by self.now.heading.now times under group next judged).pieces) }
    {
        let size = under.len();
        let bytes = self.cut_off(&times, under, judged, group.bytes, out)?;
        let times = times.joined(size, judged, group.sync);
        self.go_on(times, bytes, next, judged, out)
    }

    /// Appends to `out` the pieces of the run if it ends with a fragment that was added, and returns what continues after it.
    fn go_on(
        &self,
        times: Times,
        under: Bytes,
        next: Next,
        judged: Judged,
        out: &mut PieceQueue,
    ) -> Result<Onward, AllocError>
        requires { is_counted self.now.heading.now.scale (place_of next) ≡ true }
        ensures onward { IfOk result (λ onward. onward ≡ spec.onward_after times under judged.end judged.ends next) }
        ensures place { IfOk result (λ onward. next ≢ Next.Over → onward.times.position ≡ place_of next) }
        ensures pieces { IfOk result (λ _. out.new ≡ out.old ++ spec.said_after self.now.heading.now times under judged.end judged.ends next) }
    {
        let end = times.rendition_end(judged.end);
        let onward = times.after(judged.end, judged.ends, next);
        if !judged.ends {
            return Ok(Onward {
                times: onward,
                bytes: under,
                end,
            });
        }
        self.end_run(&times, under, judged.end, next, out)?;
        Ok(Onward {
            times: onward,
            bytes: Bytes::new(self.alloc),
            end,
        })
    }

    /// Appends to `out` the pieces that `held` completes as its movie's last fragment; it begins at the position of `times`, and `under` are the bytes
    /// of the part under way. Returns the end of the rendition then, in microseconds.
    pub(crate) fn end_held(
        &self,
        times: Times,
        under: Bytes,
        held: Held,
        out: &mut PieceQueue,
    ) -> Result<u64, AllocError>
        requires { is_counted self.now.heading.now.scale (times.position + held.ticks) ≡ true }
        ensures end { IfOk result (λ end. end ≡ (step_of self.now.lengths.now self.now.heading.now times under (group_of held held.since) Next.Over).onward.end) }
        ensures pieces { IfOk result (λ _. out.new ≡ out.old ++ (step_of self.now.lengths.now self.now.heading.now times under (group_of held held.since) Next.Over).pieces) }
    {
        let count = held.since.len();
        let group = held.group(count)?;
        let onward = self.step(times, under, group, Next::Over, out)?;
        Ok(onward.end)
    }
}
