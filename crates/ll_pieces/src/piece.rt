//! Pieces: the lines of one segment, written once.
ghost use Rattle.std.specs.Prelude.{◌≡◌, ◌≤◌, ◌++◌, IfOk, OnOk, string_bytes, true};
ghost use Rattle.std.specs.Arc.{arc_value};
ghost use Rattle.ll_attr.specs.YearEnd.{last_micro};
ghost use Rattle.ll_line.specs.Text.{text_of};
ghost use Rattle.ll_pieces.specs.Piece.{piece_lines};

use crate::segment_lines::{push_map, push_segment};
use ll_item::Part;
use ll_window::Segment;
use std::alloc::{AllocError, Global};
use std::marker::Model;
use std::sync::Arc;

/// The lines of a segment that isn't the first of a full playlist, and what they were written of. By its invariant the text is always that of
/// the segment and its parts.
pub(crate) struct Piece {
    finished: bool,
    segment: Segment,
    parts: Vec<Part>,
    text: String,
}

impl Drop for Piece {
    fn drop(self) {
        let Piece {
            finished: _,
            segment: _,
            parts: _parts,
            text: _text,
        } = self;
    }
}

impl Model for Piece {
    ghost use Rattle.std.specs.Prelude.{◌≡◌, false, string_bytes};
    ghost use Rattle.ll_line.specs.Text.{text_of};
    ghost use Rattle.ll_pieces.specs.Piece.{PieceOf, row_lines};

    ghost Value = { PieceOf };

    ghost view = { λ p. record { row = record { segment = p.segment; parts = p.parts.items }; finished = p.finished } };

    ghost invariant = { λ p. string_bytes p.text ≡ text_of (row_lines p.finished false (record { segment = p.segment; parts = p.parts.items })) };
}

impl Piece {
    /// Returns the piece of `segment`, finished or open, with the parts `parts`: another handle of `there` if that is of exactly these, or else
    /// a new one.
    pub(crate) fn of(
        alloc: Global,
        there: Option<&Arc<Piece>>,
        finished: bool,
        segment: Segment,
        parts: &[Part],
    ) -> Result<Arc<Piece>, AllocError>
        requires { segment.time ≤ last_micro }
        ensures { IfOk result (λ p. arc_value p ≡ record { row = record { segment = segment; parts = parts.now }; finished = finished }) }
    {
        match there {
            Some(piece) if piece.is(finished, segment, parts) => Arc::try_clone(piece),
            _ => Ok(Arc::new(alloc, Piece::make(alloc, finished, segment, parts)?)?),
        }
    }

    /// Writes a new piece.
    fn make(
        alloc: Global,
        finished: bool,
        segment: Segment,
        parts: &[Part],
    ) -> Result<Piece, AllocError>
        requires { segment.time ≤ last_micro }
        ensures { IfOk result (λ p. p ≡ record { row = record { segment = segment; parts = parts.now }; finished = finished }) }
    {
        let mut text = String::new(alloc);
        push_segment(&mut text, finished, segment, parts)?;
        Ok(Piece {
            finished,
            segment,
            parts: Vec::from_slice(alloc, parts)?,
            text,
        })
    }

    /// Returns whether the piece is of this segment and these parts.
    fn is(&self, finished: bool, segment: Segment, parts: &[Part]) -> bool
        ensures { result ≡ true → self.now ≡ record { row = record { segment = segment; parts = parts.now }; finished = finished } }
    {
        self.finished == finished && self.segment == segment && are_same(&self.parts, parts)
    }

    /// Returns the Media Sequence Number of the segment.
    pub(crate) fn number(&self) -> u64 {
        self.segment.number
    }

    /// Appends the lines. If the segment `leads`, as the first of a full playlist, its EXT-X-MAP line comes first; a broken segment has that
    /// line in any case, after its discontinuity.
    pub(crate) fn push(&self, text: &mut String, leads: bool) -> Result<(), AllocError>
        ensures { OnOk result (string_bytes text.new ≡ string_bytes text.old ++ text_of (piece_lines leads self.now)) }
    {
        push_map(text, leads && !self.segment.broken, self.segment.map_number)?;
        text.push_str(&self.text)
    }
}

/// Returns whether `a` and `b` are the same.
fn are_same(a: &[Part], b: &[Part]) -> bool
    ensures { result ≡ true → a.now ≡ b.now }
{
    a == b
}
