//! A stream, unit by unit: the last movie, and the pieces that each unit completes.
ghost use Rattle.std.specs.Prelude.{◌≡◌, MatchResult, IfOk, ◌++◌};
ghost use Rattle.ll_parts.specs.Joined.{finished, over};
ghost use Rattle.ll_parts.specs.Stream.{Brings, IsRefused};

use crate::joiner::Joiner;
use crate::pieces::PieceQueue;
use ll_mp4::{Element, Movie, StreamFault, read_element};
use std::alloc::{AllocError, Global};
use std::marker::Model;

/// The last movie of a stream, and what is joined of it.
#[derive(Drop)]
pub(crate) struct Stream {
    pub(crate) movie: Option<Movie>,
    pub(crate) joiner: Joiner,
}

impl Model for Stream {
    ghost use Rattle.ll_parts.specs.Stream as spec;

    ghost Value = { spec.Stream };

    ghost view = { λ s. record { movie = s.movie; joining = s.joiner } };
}

impl Stream {
    /// Adds `unit`, and appends the pieces that it completes to `out`.
    ///
    /// # Errors
    ///
    /// The unit's fault, and then nothing changes; or `Memory`.
    pub(crate) fn bring(
        &mut self,
        alloc: Global,
        unit: &[u8],
        out: &mut PieceQueue,
    ) -> Result<(), StreamFault>
        ensures { MatchResult result (λ _. Brings self.old unit.now out.old self.new out.new) (IsRefused self.old unit.now out.old self.new out.new) }
    {
        match read_element(alloc, self.movie.as_ref(), unit)? {
            Element::Movie(movie) => {
                self.joiner.begin(unit, &movie, out)?;
                self.movie = Some(movie);
                Ok(())
            }
            Element::Fragment(timing) => self.joiner.hear(unit, timing, out),
            Element::Beside(decode_time) => self.joiner.join(unit, decode_time),
        }
    }

    /// Appends to `out` the last pieces of the movie.
    pub(crate) fn finish(&mut self, out: &mut PieceQueue) -> Result<(), AllocError>
        ensures pieces { IfOk result (λ _. out.new ≡ out.old ++ over self.old.joining self.old.joining.stage) }
        ensures after { IfOk result (λ _. self.new ≡ record self.old { joining = finished self.old.joining }) }
    {
        self.joiner.finish(out)
    }
}
