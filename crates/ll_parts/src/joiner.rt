//! Joins the elements of an encoder's stream into pieces, as they come.
ghost use Rattle.std.specs.Prelude.{◌≡◌, ◌≢◌, ◌+◌, ◌<◌, ◌≤◌, ◌^◌, ◌++◌, ◌∷◌, [], IfErr, IfOk, None, Some, length, false, true};
ghost use Rattle.ll_mp4.specs.declared.fault.StreamFault.TheVariants.{Memory};
ghost use Rattle.ll_parts.specs.Joined as spec;
ghost use Rattle.ll_parts.specs.Joined.{at_start, begun, heard, over, refusal};
ghost use Rattle.ll_runs.specs.Times.{is_counted};
ghost use Rattle.ll_runs.specs.declared.times.Next.{Next};

use crate::bytes::Bytes;
use crate::frame::Frame;
use crate::heading::{Heading, Scales};
use crate::others::{Other, Others};
use crate::pieces::{Piece, PieceQueue};
use crate::stage::{Held, Parting, Stage};
use ll_mp4::{DecodeTime, Movie, StreamFault, Timing};
use ll_runs::{
    Lengths, SIZE_LIMIT, Span, Times, ends_run, next_after, next_at, place_of, refusal_at,
    refusal_of,
};
use std::alloc::{AllocError, Global};
use std::marker::Model;
use std::mem;

/// A stream as far as it has come: what of it isn't published yet, and where its rendition ends.
#[derive(Drop)]
pub struct Joiner {
    alloc: Global,
    lengths: Lengths,
    /// The values of the last movie with which its pieces are made.
    heading: Heading,
    /// The end of the rendition as the movie began, in microseconds.
    end: u64,
    stage: Stage,
}

impl Model for Joiner {
    ghost use Rattle.ll_parts.specs.Joined.{IsCounted, Joining};

    ghost Value = { Joining };

    ghost view = { λ j. record { lengths = j.lengths; heading = j.heading; end = j.end; stage = j.stage } };

    ghost invariant = { λ j. IsCounted j.heading.scale j.stage };
}

impl Joiner {
    /// Makes a joiner for a rendition that ends at microsecond `end`, before any movie.
    pub fn new(alloc: Global, lengths: Lengths, end: u64) -> Joiner
        ensures { result ≡ at_start lengths end }
    {
        Joiner {
            alloc,
            lengths,
            heading: Heading {
                section: Bytes::new(alloc),
                scales: Scales::new(alloc),
                scale: 1,
            },
            end,
            stage: Stage::Silent(Bytes::new(alloc)),
        }
    }
}

impl Joiner {
    /// Begins `movie`, whose initialization section is `section`. Appends the last pieces of the movie before it, and then its own first, to `out`.
    pub fn begin(
        &mut self,
        section: &[u8],
        movie: &Movie,
        out: &mut PieceQueue,
    ) -> Result<(), AllocError>
        ensures { IfOk result (λ _. (out.new ≡ out.old ++ (begun self.old section.now movie.now).pieces) × (self.new ≡ (begun self.old section.now movie.now).after)) }
    {
        self.finish(out)?;
        out.push(Piece::Begin(Bytes::of(self.alloc, section)?))?;
        self.heading = Heading {
            section: Bytes::of(self.alloc, section)?,
            scales: Scales::of(self.alloc, movie.scales())?,
            scale: movie.governing().scale,
        };
        Ok(())
    }

    /// Ends the movie, and appends its last pieces to `out`.
    pub fn finish(&mut self, out: &mut PieceQueue) -> Result<(), AllocError>
        ensures pieces { IfOk result (λ _. out.new ≡ out.old ++ over self.old self.old.stage) }
        ensures after { IfOk result (λ _. self.new ≡ spec.finished self.old) }
    {
        match self.leave() {
            Stage::Silent(_) => Ok(()),
            Stage::Under(held, times, under) => {
                self.end = self.frame().end_held(times, under, held, out)?;
                Ok(())
            }
            Stage::Prompt(_, times) => {
                self.frame().finish(&times, out)?;
                self.end = times.end_of_parts();
                Ok(())
            }
        }
    }

    /// Adds a fragment of the governing track with this `timing`, and appends the pieces that it completes to `out`.
    ///
    /// # Errors
    ///
    /// `TooLong` if it ends past what can be counted, or is longer than a part is allowed to be and begins a run or is a part itself; `TooLarge` if
    /// it has more than 1,048,576 bytes with those that go with it. Then nothing changes. Or `Memory`.
    #[tactic(auto, unfolding(crate::specs::Joined::refusal))]
    pub fn hear(
        &mut self,
        bytes: &[u8],
        timing: Timing,
        out: &mut PieceQueue,
    ) -> Result<(), StreamFault>
        ensures taken { IfOk result (λ _. (out.new ≡ out.old ++ (heard self.old self.old.stage bytes.now timing).pieces) × (self.new ≡ (heard self.old self.old.stage bytes.now timing).after)) }
        ensures accepted { IfOk result (λ _. refusal self.old self.old.stage (length bytes.now) timing ≡ None) }
        ensures refused { IfErr result (λ fault. fault ≢ Memory → (refusal self.old self.old.stage (length bytes.now) timing ≡ Some fault) × (self.new ≡ self.old) × (out.new ≡ out.old)) }
    {
        match self.leave() {
            Stage::Silent(lead) => {
                if self.lengths.ahead {
                    self.hear_first(lead, bytes, timing)
                } else {
                    self.hear_first_part(lead, bytes, timing, out)
                }
            }
            Stage::Under(held, times, under) => {
                self.hear_next(held, times, under, bytes, timing, out)
            }
            Stage::Prompt(lead, times) => self.hear_part(lead, times, bytes, timing, out),
        }
    }

    /// Adds bytes without a fragment of the governing track, of which `decode_time` is the first decode time of another track's.
    ///
    /// # Errors
    ///
    /// `TooLarge` if the bytes that go with a fragment are more than 1,048,576 with them, and then nothing changes; or `Memory`.
    pub fn join(&mut self, bytes: &[u8], decode_time: Option<DecodeTime>) -> Result<(), StreamFault>
        ensures taken { IfOk result (λ _. self.new ≡ spec.on_stage self.old (spec.beside self.old.stage (record { bytes = bytes.now; decode_time = decode_time }))) }
        ensures accepted { IfOk result (λ _. spec.refusal_beside self.old.stage (length bytes.now) ≡ None) }
        ensures refused { IfErr result (λ fault. fault ≢ Memory → (spec.refusal_beside self.old.stage (length bytes.now) ≡ Some fault) × (self.new ≡ self.old)) }
    {
        if self.stage.size() + bytes.len() as u128 > SIZE_LIMIT as u128 {
            return Err(StreamFault::TooLarge);
        }
        let bytes = Bytes::of(self.alloc, bytes)?;
        match &mut self.stage {
            Stage::Silent(lead) => lead.add(bytes.as_slice())?,
            Stage::Under(held, _, _) => held.since.push(Other { bytes, decode_time })?,
            Stage::Prompt(lead, _) => lead.add(bytes.as_slice())?,
        }
        Ok(())
    }

    /// Takes the stage, and leaves an empty one.
    fn leave(&mut self) -> Stage
        ensures stage { result ≡ self.old.stage }
        ensures counted { spec.IsCounted self.old.heading.scale result }
        ensures left { self.new ≡ spec.on_stage self.old (spec.empty_stage) }
    {
        let empty = Stage::Silent(Bytes::new(self.alloc));
        mem::replace(&mut self.stage, empty)
    }

    /// Returns the values with which the movie's pieces are made.
    fn frame(&self) -> Frame<'_>
        ensures lengths { result.lengths.now ≡ self.now.lengths }
        ensures heading { result.heading.now ≡ self.now.heading }
    {
        Frame {
            alloc: self.alloc,
            lengths: &self.lengths,
            heading: &self.heading,
        }
    }

    /// Adds the first fragment of the governing track, if a part waits for the fragment after it; `lead` are the bytes of its movie before it.
    #[tactic(auto, unfolding(crate::specs::Joined::refusal))]
    fn hear_first(&mut self, lead: Bytes, bytes: &[u8], timing: Timing) -> Result<(), StreamFault>
        requires stage { self.old.stage ≡ spec.empty_stage }
        requires ahead { self.old.lengths.ahead ≡ true }
        ensures taken { IfOk result (λ _. self.new ≡ (heard self.old (spec.silent lead) bytes.now timing).after) }
        ensures accepted { IfOk result (λ _. refusal self.old (spec.silent lead) (length bytes.now) timing ≡ None) }
        ensures refused { IfErr result (λ fault. fault ≢ Memory → (refusal self.old (spec.silent lead) (length bytes.now) timing ≡ Some fault) × (self.new ≡ spec.on_stage self.old (spec.silent lead))) }
    {
        let tick = timing.time.unwrap_or(0);
        let end = tick as u128 + timing.ticks as u128;
        let size = lead.len() as u128 + bytes.len() as u128;
        if let Some(fault) = refusal_of(
            &self.lengths,
            self.heading.scale,
            true,
            timing.ticks,
            end,
            size,
        ) {
            self.stage = Stage::Silent(lead);
            return Err(fault);
        }
        let held = Held::of(self.alloc, lead, bytes, timing)?;
        let times = Times::from(tick, self.end, tick);
        self.stage = Stage::Under(held, times, Bytes::new(self.alloc));
        Ok(())
    }

    /// Adds a further fragment, after `held`, in a run with these `times`; `under` are the bytes of the part under way.
    #[tactic(auto, using(ll_runs::proofs::TimeLemmas::counted_less), unfolding(crate::specs::Joined::refusal))]
    fn hear_next(
        &mut self,
        held: Held,
        times: Times,
        under: Bytes,
        bytes: &[u8],
        timing: Timing,
        out: &mut PieceQueue,
    ) -> Result<(), StreamFault>
        requires { is_counted self.old.heading.scale (times.position + held.ticks) ≡ true }
        ensures taken { IfOk result (λ _. (out.new ≡ out.old ++ (heard self.old (spec.under held times under) bytes.now timing).pieces) × (self.new ≡ (heard self.old (spec.under held times under) bytes.now timing).after)) }
        ensures accepted { IfOk result (λ _. refusal self.old (spec.under held times under) (length bytes.now) timing ≡ None) }
        ensures refused { IfErr result (λ fault. fault ≢ Memory → (refusal self.old (spec.under held times under) (length bytes.now) timing ≡ Some fault) × (self.new ≡ spec.on_stage self.old (spec.under held times under)) × (out.new ≡ out.old)) }
    {
        let Parting { next, ends, count } = parting(
            &self.lengths,
            self.heading.scale,
            &held,
            &times,
            timing.time,
        );
        let lead = held.since.later(self.alloc, count)?;
        let end = place_of(next) as u128 + timing.ticks as u128;
        let size = lead.len() as u128 + bytes.len() as u128;
        if let Some(fault) = refusal_of(
            &self.lengths,
            self.heading.scale,
            ends,
            timing.ticks,
            end,
            size,
        ) {
            self.stage = Stage::Under(held, times, under);
            return Err(fault);
        }
        let later = Held::of(self.alloc, lead, bytes, timing)?;
        let group = held.group(count)?;
        let onward = self.frame().step(times, under, group, next, out)?;
        self.stage = Stage::Under(later, onward.times, onward.bytes);
        Ok(())
    }

    /// Adds the first fragment, if each fragment is a part; `lead` are the bytes of its movie before it.
    #[tactic(auto, unfolding(crate::specs::Joined::refusal))]
    fn hear_first_part(
        &mut self,
        mut lead: Bytes,
        bytes: &[u8],
        timing: Timing,
        out: &mut PieceQueue,
    ) -> Result<(), StreamFault>
        requires { self.old.lengths.ahead ≡ false }
        ensures taken { IfOk result (λ _. (out.new ≡ out.old ++ (heard self.old (spec.silent lead) bytes.now timing).pieces) × (self.new ≡ (heard self.old (spec.silent lead) bytes.now timing).after)) }
        ensures accepted { IfOk result (λ _. refusal self.old (spec.silent lead) (length bytes.now) timing ≡ None) }
        ensures refused { IfErr result (λ fault. fault ≢ Memory → (refusal self.old (spec.silent lead) (length bytes.now) timing ≡ Some fault) × (self.new ≡ spec.on_stage self.old (spec.silent lead)) × (out.new ≡ out.old)) }
    {
        let tick = timing.time.unwrap_or(0);
        let times = Times::from(tick, self.end, tick);
        let size = lead.len() as u128 + bytes.len() as u128;
        if let Some(fault) = refusal_at(
            &self.lengths,
            self.heading.scale,
            &times,
            timing.ticks,
            size,
        ) {
            self.stage = Stage::Silent(lead);
            return Err(fault);
        }
        lead.add(bytes)?;
        let after = self.frame().add_part(times, lead, timing, out)?;
        self.stage = Stage::Prompt(Bytes::new(self.alloc), after);
        Ok(())
    }

    /// Adds a further fragment, if each fragment is a part, in a run with these `times`; `lead` are the bytes since the one before.
    #[tactic(auto, using(ll_runs::proofs::TimeLemmas::counted_place), unfolding(crate::specs::Joined::refusal))]
    fn hear_part(
        &mut self,
        mut lead: Bytes,
        times: Times,
        bytes: &[u8],
        timing: Timing,
        out: &mut PieceQueue,
    ) -> Result<(), StreamFault>
        requires { is_counted self.old.heading.scale times.position ≡ true }
        ensures taken { IfOk result (λ _. (out.new ≡ out.old ++ (heard self.old (spec.prompt lead times) bytes.now timing).pieces) × (self.new ≡ (heard self.old (spec.prompt lead times) bytes.now timing).after)) }
        ensures accepted { IfOk result (λ _. refusal self.old (spec.prompt lead times) (length bytes.now) timing ≡ None) }
        ensures refused { IfErr result (λ fault. fault ≢ Memory → (refusal self.old (spec.prompt lead times) (length bytes.now) timing ≡ Some fault) × (self.new ≡ spec.on_stage self.old (spec.prompt lead times)) × (out.new ≡ out.old)) }
    {
        let next = next_after(&self.lengths, self.heading.scale, &times, timing.time);
        let run = times.at(next);
        let size = lead.len() as u128 + bytes.len() as u128;
        if let Some(fault) = refusal_at(
            &self.lengths,
            self.heading.scale,
            &run,
            timing.ticks,
            size,
        ) {
            self.stage = Stage::Prompt(lead, times);
            return Err(fault);
        }
        lead.add(bytes)?;
        let after = self.frame().add_next(&times, next, lead, timing, out)?;
        self.stage = Stage::Prompt(Bytes::new(self.alloc), after);
        Ok(())
    }
}

/// Returns the successor of `held` if the next fragment has the decode time `time`, and the number of the elements since that go with `held`.
fn parting(lengths: &Lengths, scale: u32, held: &Held, times: &Times, time: Option<u64>) -> Parting
    requires { is_counted scale (times.now.position + held.now.ticks) ≡ true }
    ensures parting { result ≡ spec.parting lengths.now scale held.now times.now time }
    ensures most { result.count ≤ length held.now.since }
    ensures some { result.next ≢ Next.Over }
{
    let time = time.unwrap_or(times.position.saturating_add(held.ticks));
    let next = next_at(lengths, scale, times.position, time);
    let ends = ends_run(lengths, times.said_to(scale, held.ticks, next), next);
    let span = Span {
        scale,
        first: times.position,
        second: place_of(next),
    };
    Parting {
        next,
        ends,
        count: held.since.stay(ends, span),
    }
}
