//! Moves the times of a part, as it is published.
ghost use Rattle.std.specs.Prelude.{◌≡◌, ◌++◌, IfOk};
ghost use Rattle.ll_shift.specs.Found.{IsBox, box_of};
ghost use Rattle.ll_shift.specs.Moved as spec;
ghost use Rattle.ll_shift.specs.Moved.{moved};

use crate::field::push_timed;
use crate::moof::push_moof;
use crate::pieces::{Piece, cut_front, push_whole};
use crate::shift::Shift;
use crate::traf::{scale_by, word_at};
use ll_mp4::{Kind, TimeScale};
use std::alloc::AllocError;

/// The place of the time in the content of a `prft` (section 8.16.5).
const PRFT_PLACE: usize = 16;
/// The place of the time in the content of an `emsg` of version 1 (ISO/IEC 23009-1, section 5.10.3.3).
const EMSG_PLACE: usize = 8;

/// Appends the boxes of `bytes` to `out` with their times moved, so that they continue from the end of the rendition. Leaves out the indexes of
/// segments and fragments, whose numbers would be wrong. `scales` are the time scales of the movie's tracks. If it fails, `out` has some of the
/// boxes.
pub fn push_moved(
    out: &mut Vec<u8>,
    shift: &Shift,
    scales: &[TimeScale],
    bytes: &[u8],
) -> Result<(), AllocError>
    ensures { IfOk result (λ _. out.new.items ≡ out.old.items ++ moved shift.now scales.now bytes.now) }
{
    let mut rest = bytes;
    'boxes: while let Some(piece) = cut_front(rest) {
        push_box(out, shift, scales, piece)?;
        rest = piece.rest;
    }
    out.extend_from_slice(rest)
}

/// Appends a box to `out`, with its times moved, unless it is left out.
fn push_box(
    out: &mut Vec<u8>,
    shift: &Shift,
    scales: &[TimeScale],
    piece: Piece<'_>,
) -> Result<(), AllocError>
    requires { IsBox (box_of piece) }
    ensures { IfOk result (λ _. out.new.items ≡ out.old.items ++ spec.moved_box shift.now scales.now (box_of piece.entry)) }
{
    if piece.kind == Kind::Sidx.code() || piece.kind == Kind::Mfra.code() {
        return Ok(());
    }
    if piece.kind == Kind::Moof.code() {
        return push_moof(out, shift, scales, piece);
    }
    if piece.kind == Kind::Prft.code() {
        let scale = scale_by(scales, word_at(4, piece.content));
        return push_timed(out, shift, scale, PRFT_PLACE, piece);
    }
    if piece.kind == Kind::Emsg.code() {
        return push_event(out, shift, piece);
    }
    push_whole(out, piece)
}

/// Appends an event to `out`. One of version 1, which has its own time scale, has its time moved.
fn push_event(out: &mut Vec<u8>, shift: &Shift, piece: Piece<'_>) -> Result<(), AllocError>
    requires { IsBox (box_of piece) }
    ensures { IfOk result (λ _. out.new.items ≡ out.old.items ++ spec.moved_emsg shift.now (box_of piece.entry)) }
{
    match piece.content.first() {
        Some(1) => push_timed(out, shift, word_at(4, piece.content), EMSG_PLACE, piece),
        _ => push_whole(out, piece),
    }
}
