//! The pieces in which an encoder's stream is published, and a queue of them.
ghost use Rattle.std.specs.Prelude.{◌≡◌, ◌++◌, ◌∷◌, [], IfOk, MatchOption};

use crate::bytes::Bytes;
use std::alloc::{AllocError, Global};
use std::collections::VecDeque;
use std::marker::Model;

/// A piece of an encoder's stream, as it is published.
pub enum Piece {
    /// The beginning of a movie, with its initialization section.
    Begin(Bytes),
    /// The initialization section of the movie, again.
    Init(Bytes),
    /// A part.
    Media(MediaPart),
    /// The end of the open segment, with the part before.
    Finish,
    /// A break, with the microseconds, rounded up, from the fragment with which the movie began, or with which times last went back, to the next
    /// fragment; `None` if times go back now.
    Break(Option<u64>),
}

impl Drop for Piece {
    fn drop(self) {
        match self {
            Piece::Begin(_one) => {}
            Piece::Init(_one) => {}
            Piece::Media(_one) => {}
            Piece::Finish => {}
            Piece::Break(_) => {}
        }
    }
}

/// A part.
pub struct MediaPart {
    /// Its fragments and the bytes that go with them, with their times moved.
    pub bytes: Bytes,
    /// Its duration, in microseconds.
    pub duration: u64,
    /// Whether it begins with a sync sample of the governing track.
    pub independent: bool,
    /// Whether it is the last of its segment.
    pub finishes: bool,
}

impl Drop for MediaPart {
    fn drop(self) {
        let MediaPart {
            bytes: _bytes,
            duration: _,
            independent: _,
            finishes: _,
        } = self;
    }
}

/// The pieces to be published, the first at the front.
pub struct PieceQueue(VecDeque<Piece>);

impl Drop for PieceQueue {
    fn drop(self) {
        let PieceQueue(_all) = self;
    }
}

impl Model for PieceQueue {
    ghost use Rattle.std.specs.Prelude.{List};
    ghost use Rattle.ll_parts.specs.declared.pieces.Piece.{Piece};

    ghost Value = { List Piece };

    ghost view = { λ p. p.0.items };
}

impl PieceQueue {
    /// Makes an empty queue.
    pub fn new(alloc: Global) -> PieceQueue
        ensures { result ≡ [] }
    {
        PieceQueue(VecDeque::new(alloc))
    }

    /// Adds `piece` at the end.
    pub(crate) fn push(&mut self, piece: Piece) -> Result<(), AllocError>
        ensures { IfOk result (λ _. self.new ≡ self.old ++ piece ∷ []) }
    {
        match self.0.push_back(piece) {
            Ok(()) => Ok(()),
            Err(_) => Err(AllocError),
        }
    }

    /// Takes the first piece, or returns `None` if there is none.
    pub fn pop(&mut self) -> Option<Piece>
        ensures { MatchOption result ((self.old ≡ []) × (self.new ≡ [])) (λ piece. self.old ≡ piece ∷ self.new) }
    {
        self.0.pop_front()
    }
}
