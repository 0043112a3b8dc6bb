//! The pieces of a playlist, shared by the pages of one moment and the next.
ghost use Rattle.std.specs.Prelude.{◌≡◌, ◌≤◌, ◌-◌, ◌++◌, [], None, IfOk, OnOk, string_bytes, drop, flat_map, length, map};
ghost use Rattle.std.specs.Arc.{arc_value};
ghost use Rattle.std.specs.Option.{option_map};
ghost use Rattle.ll_line.specs.Text.{text_of};
ghost use Rattle.ll_window.specs.Compact.{unfinished};
ghost use Rattle.ll_pieces.specs.Segments.{open_of, printed};
ghost use Rattle.ll_pieces.specs.Piece.{AreFinished, finished_piece, joined_lines, open_piece};
ghost use Rattle.ll_pieces.specs.Pieces.{pieces_from};
ghost use Rattle.ll_line.specs.Spelling.{open_lines, segment_lines};

use crate::piece::Piece;
use crate::view::View;
use ll_window::Window;
use std::alloc::{AllocError, Global};
use std::marker::Model;
use std::sync::Arc;

/// The lines of the last segments of a window, written once: one piece for each finished segment, and one for the open segment if there
/// is one. Pieces of later views share those of segments that stay the same.
pub struct Pieces {
    finished: Vec<Arc<Piece>>,
    unfinished: Option<Arc<Piece>>,
}

/// Crates that drop these prove nothing of what is in them.
impl Drop for Pieces {
    fn drop(self) {
        let Pieces {
            finished: _finished,
            unfinished: _unfinished,
        } = self;
    }
}

impl Model for Pieces {
    ghost use Rattle.std.specs.Prelude.{map};
    ghost use Rattle.std.specs.Arc.{arc_value};
    ghost use Rattle.std.specs.Option.{option_map};
    ghost use Rattle.ll_pieces.specs.Piece.{AreFinished, IsOpen, row_in, rows_in};
    ghost use Rattle.ll_pieces.specs.Pieces.{PiecesOf};

    ghost Value = { PiecesOf };

    ghost view = { λ p. record { finished = rows_in (map arc_value p.finished.items); unfinished = row_in (option_map arc_value p.unfinished) } };

    ghost invariant = { λ p. AreFinished (map arc_value p.finished.items) × IsOpen (option_map arc_value p.unfinished) };
}

impl Pieces {
    /// Returns no pieces.
    pub fn new(alloc: Global) -> Pieces
        ensures { result ≡ record { finished = []; unfinished = None } }
    {
        Pieces {
            finished: Vec::new(alloc),
            unfinished: None,
        }
    }

    /// Returns the pieces of `view` without its first `skipped` finished segments. They share those of `rendered` whose segment and parts are
    /// the same, and each other is written. The result doesn't depend on which views these pieces are of.
    pub fn of(
        alloc: Global,
        view: &View<'_>,
        skipped: usize,
        rendered: Rendered<'_>,
    ) -> Result<Pieces, AllocError>
        ensures { IfOk result (λ p. p ≡ pieces_from skipped view.now) }
    {
        let window = view.window();
        Ok(Pieces {
            finished: finished_of(alloc, window, skipped, rendered)?,
            unfinished: unfinished_of(alloc, window, rendered)?,
        })
    }

    /// Replaces the pieces from the first of `newer` on by `newer`. If memory runs out, or if the two aren't numbered one after another, `newer`
    /// alone is kept.
    pub fn renew(&mut self, newer: Pieces) {
        let Pieces {
            finished,
            unfinished,
        } = newer;
        self.unfinished = unfinished;
        let Some(place) = self.place_before(&finished) else {
            self.finished = finished;
            return;
        };
        self.finished.truncate(place);
        join(&mut self.finished, finished);
    }

    /// Drops the first pieces of finished segments, until there are at most `count`.
    pub fn keep_last(&mut self, count: usize)
        ensures { self.new ≡ record self.old { finished = drop (length self.old.finished - count) self.old.finished } }
    {
        let gone = self.finished.len().saturating_sub(count);
        drop_first(&mut self.finished, gone);
    }

    /// Returns the piece in the place of the finished segment `number`, as segments are numbered one after another. `Piece::of` looks whether it
    /// is the piece of that segment.
    fn numbered(&self, number: u64) -> Option<&Arc<Piece>> {
        let first = self.finished.first()?;
        let place = number.checked_sub(first.number())?;
        self.finished.get(place as usize)
    }

    /// Returns how many of these pieces come before the first of `newer`; `None` if it doesn't come after them, one number after another.
    fn place_before(&self, newer: &[Arc<Piece>]) -> Option<usize> {
        let first = self.finished.first()?;
        let place = newer.first()?.number().checked_sub(first.number())? as usize;
        if self.finished.len() < place {
            return None;
        }
        Some(place)
    }

    /// Appends the lines of all finished segments. If the first `leads`, its EXT-X-MAP line comes first.
    pub fn push_finished(&self, text: &mut String, leads: bool) -> Result<(), AllocError>
        ensures { OnOk result (string_bytes text.new ≡ string_bytes text.old
            ++ text_of (flat_map segment_lines (printed leads self.now.finished))) }
    {
        push_pieces(text, &self.finished, leads)
    }

    /// Appends the lines of the open segment, if there is one. If it `leads`, its EXT-X-MAP line comes first.
    pub fn push_unfinished(&self, text: &mut String, leads: bool) -> Result<(), AllocError>
        ensures { OnOk result (string_bytes text.new ≡ string_bytes text.old
            ++ text_of (open_lines (open_of leads self.now.unfinished))) }
    {
        match &self.unfinished {
            Some(piece) => piece.push(text, leads),
            None => Ok(()),
        }
    }
}

/// What was rendered of a rendition's segments before, each `None` if nothing was.
#[derive(Clone, Copy)]
pub struct Rendered<'a> {
    /// For other pages of the same moment.
    pub own: Option<&'a Pieces>,
    /// For the pages of the moment before it.
    pub last: Option<&'a Pieces>,
    /// For pages of earlier moments.
    pub earlier: Option<&'a Pieces>,
}

impl<'a> Rendered<'a> {
    /// Returns that nothing was rendered.
    pub fn none() -> Rendered<'a> {
        Rendered {
            own: None,
            last: None,
            earlier: None,
        }
    }

    /// Returns the newest piece in the place of the finished segment `number`.
    fn numbered(self, number: u64) -> Option<&'a Arc<Piece>> {
        piece_in(self.own, number)
            .or_else(|| piece_in(self.last, number))
            .or_else(|| piece_in(self.earlier, number))
    }

    /// Returns the newest piece of an open segment.
    fn unfinished(self) -> Option<&'a Arc<Piece>> {
        let newest = self.own.or(self.last).or(self.earlier)?;
        newest.unfinished.as_ref()
    }
}

/// Returns the piece in the place of the finished segment `number`, if there are `pieces`.
fn piece_in(pieces: Option<&Pieces>, number: u64) -> Option<&Arc<Piece>> {
    pieces?.numbered(number)
}

/// Returns the pieces of the finished segments of `window` without the first `skipped`.
fn finished_of(
    alloc: Global,
    window: &Window,
    skipped: usize,
    rendered: Rendered<'_>,
) -> Result<Vec<Arc<Piece>>, AllocError>
    ensures { IfOk result (λ pieces. map arc_value pieces.items ≡ map finished_piece (drop skipped window.now.window)) }
{
    let count = window.segment_count();
    let mut finished = Vec::with_capacity(alloc, count.saturating_sub(skipped))?;
    for place in skipped..count {
        if let Some(segment) = window.segment(place) {
            let there = rendered.numbered(segment.number);
            let parts = window.shown_parts(place);
            finished.push(Piece::of(alloc, there, true, segment, parts)?)?;
        }
    }
    Ok(finished)
}

/// Returns the piece of the open segment of `window`, if there is one.
fn unfinished_of(
    alloc: Global,
    window: &Window,
    rendered: Rendered<'_>,
) -> Result<Option<Arc<Piece>>, AllocError>
    ensures { IfOk result (λ piece. option_map arc_value piece ≡ option_map open_piece (unfinished window.now)) }
{
    let Some(segment) = window.open_segment() else {
        return Ok(None);
    };
    let there = rendered.unfinished();
    let piece = Piece::of(alloc, there, false, segment, window.open_parts())?;
    Ok(Some(piece))
}

/// Appends the lines of all `pieces`, of which the first leads if `leads`.
fn push_pieces(text: &mut String, pieces: &[Arc<Piece>], leads: bool) -> Result<(), AllocError>
    ensures { OnOk result (string_bytes text.new ≡ string_bytes text.old
        ++ text_of (joined_lines leads (map arc_value pieces.now))) }
{
    let mut first = leads;
    for piece in pieces {
        piece.push(text, first)?;
        first = false;
    }
    Ok(())
}

/// Appends `more` to `pieces`; if memory runs out, `pieces` is `more` alone.
fn join(pieces: &mut Vec<Arc<Piece>>, mut more: Vec<Arc<Piece>>)
    ensures { AreFinished (map arc_value pieces.old.items) → AreFinished (map arc_value more.items) → AreFinished (map arc_value pieces.new.items) }
{
    if pieces.append(&mut more).is_err() {
        *pieces = more;
    }
}

/// Drops the first `n` pieces.
fn drop_first(pieces: &mut Vec<Arc<Piece>>, n: usize)
    requires { n ≤ length pieces.old.items }
    ensures { pieces.new.items ≡ drop n pieces.old.items }
{
    pieces.drain(..n);
}
