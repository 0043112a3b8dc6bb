//! Cuts the bytes of an encoder, as they come, into the pieces in which they are published.
ghost use Rattle.std.specs.Prelude.{◌≡◌, ◌≢◌, ◌∷◌, ◌++◌, [], ℕ, List, IfErr, IfOk, IsErrOf, MatchOption, MatchResult, None, Ok, Some, false, true};
ghost use Rattle.ll_mp4.specs.Streams.{end_fault};
ghost use Rattle.ll_parts.specs.Stream.{advanced_cutter, begun_cutter, closed, or_no_movie, stopped, with_bytes, with_first};

use crate::joiner::Joiner;
use crate::pieces::{Piece, PieceQueue};
use crate::stream::Stream;
use ll_mp4::{Splitter, StreamFault};
use ll_runs::Lengths;
use std::alloc::Global;
use std::marker::Model;

/// An encoder's stream as far as it has come, cut into pieces.
#[derive(Drop)]
pub struct Cutter {
    alloc: Global,
    splitter: Splitter,
    stream: Stream,
    /// The pieces that weren't taken yet.
    pieces: PieceQueue,
    fault: Option<StreamFault>,
    is_over: bool,
}

impl Model for Cutter {
    ghost use Rattle.std.specs.Prelude.{◌≡◌, None, false};
    ghost use Rattle.ll_parts.specs.Stream.{CutterValue};

    ghost Value = { CutterValue };

    ghost view = { λ c. record { left = c.splitter; progress = record { stream = c.stream; pieces = c.pieces; fault = c.fault }; is_over = c.is_over } };

    ghost invariant = { λ c. c.is_over ≡ false → c.fault ≡ None };
}

impl Cutter {
    /// Makes a cutter without any bytes for a rendition that ends at microsecond `end`.
    pub fn new(alloc: Global, lengths: Lengths, end: u64) -> Cutter
        ensures { result ≡ begun_cutter lengths end }
    {
        Cutter {
            alloc,
            splitter: Splitter::new(alloc),
            stream: Stream {
                movie: None,
                joiner: Joiner::new(alloc, lengths, end),
            },
            pieces: PieceQueue::new(alloc),
            fault: None,
            is_over: false,
        }
    }

    /// Appends `bytes`, the next of the input.
    ///
    /// # Errors
    ///
    /// `Memory`, and then nothing changes.
    pub fn feed(&mut self, bytes: &[u8]) -> Result<(), StreamFault>
        ensures { MatchResult result (λ _. self.new ≡ with_bytes self.old bytes.now) (λ fault. (fault ≡ StreamFault.Memory) × (self.new ≡ self.old)) }
    {
        self.splitter.feed(bytes)
    }

    /// Takes the first piece, or returns `None` if none is there.
    pub fn pop(&mut self) -> Option<Piece>
        ensures { MatchOption result ((self.new ≡ self.old) × (self.old.progress.pieces ≡ [])) (λ piece. self.old ≡ with_first piece self.new) }
    {
        self.pieces.pop()
    }

    /// Cuts one more unit of the input, or stops at the fault that ends it, and returns whether one of them was there. `pop` then
    /// returns its pieces.
    ///
    /// # Errors
    ///
    /// `Memory`.
    pub fn advance(&mut self) -> Result<bool, StreamFault>
        ensures taken { IfOk result (λ taken. (taken, self.new) ≡ advanced_cutter self.old) }
        ensures memory { IfErr result (λ fault. fault ≡ StreamFault.Memory) }
    {
        if self.is_over {
            return Ok(false);
        }
        let taken = match self.splitter.next() {
            Ok(None) => return Ok(false),
            Ok(Some(unit)) => self.stream.bring(self.alloc, unit, &mut self.pieces),
            Err(fault) => Err(fault),
        };
        match taken {
            Ok(()) => Ok(true),
            Err(StreamFault::Memory) => Err(StreamFault::Memory),
            Err(fault) => {
                self.stop(Some(fault))?;
                Ok(true)
            }
        }
    }

    /// Ends the input, of which all units were cut. `pop` then returns its last pieces.
    ///
    /// # Errors
    ///
    /// `Memory`.
    pub fn close(&mut self) -> Result<(), StreamFault>
        ensures closed { IfOk result (λ _. self.new ≡ closed self.old) }
        ensures memory { IfErr result (λ fault. fault ≡ StreamFault.Memory) }
    {
        if self.is_over {
            return Ok(());
        }
        let fault = self.end_fault();
        self.stop(fault)
    }

    /// Returns whether the input has ended or has a fault, so that no more pieces come after those that are there.
    pub fn is_over(&self) -> bool
        ensures { result ≡ self.now.is_over }
    {
        self.is_over
    }

    /// Returns the fault that ends the input, once it is over.
    pub fn fault(&self) -> Option<StreamFault>
        ensures fault { result ≡ self.now.progress.fault }
        ensures over { self.now.is_over ≡ false → result ≡ None }
    {
        self.fault
    }

    /// Returns the fault if the input ends now.
    fn end_fault(&self) -> Option<StreamFault>
        ensures { result ≡ or_no_movie self.now.progress.stream.movie (end_fault self.now.left) }
    {
        match self.splitter.finish() {
            Err(fault) => Some(fault),
            Ok(()) if self.stream.movie.is_none() => Some(StreamFault::NoMoov),
            Ok(()) => None,
        }
    }

    /// Ends the stream with this `fault` or none, after the last pieces of its movie.
    fn stop(&mut self, fault: Option<StreamFault>) -> Result<(), StreamFault>
        ensures stopped { IfOk result (λ _. self.new ≡ record { left = self.old.left; progress = stopped self.old.progress fault; is_over = true }) }
        ensures memory { IfErr result (λ fault. fault ≡ StreamFault.Memory) }
    {
        self.is_over = true;
        self.fault = fault;
        self.stream.finish(&mut self.pieces)?;
        Ok(())
    }
}
