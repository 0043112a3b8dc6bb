//! Moves the times of a fragment (section 8.8.4).
ghost use Rattle.std.specs.Prelude.{◌==◌, ◌&&◌, not, ◌≡◌, ◌++◌, ◌≤◌, ◌^◌, IfOk, length, true};
ghost use Rattle.ll_mp4.specs.Kinds.{code};
ghost use Rattle.ll_mp4.specs.declared.kind.Kind.{Kind};
ghost use Rattle.ll_shift.specs.Found.{IsBox, box_of};
ghost use Rattle.ll_shift.specs.Moved as spec;

use crate::pieces::{Piece, cut_front, push_grown, push_whole};
use crate::shift::Shift;
use crate::traf::{counts_from_moof, push_traf, traf_growth};
use ll_mp4::{Kind, TimeScale};
use std::alloc::AllocError;

/// Appends a fragment to `out`, with its times moved.
pub(crate) fn push_moof(
    out: &mut Vec<u8>,
    shift: &Shift,
    scales: &[TimeScale],
    piece: Piece<'_>,
) -> Result<(), AllocError>
    requires { IsBox (box_of piece) }
    ensures { IfOk result (λ _. out.new.items ≡ out.old.items ++ spec.moved_moof shift.now scales.now (box_of piece.entry)) }
{
    let more = moof_growth(shift, scales, piece.content);
    push_grown(out, piece, more)?;
    push_boxes(out, shift, scales, more, piece.content)
}

/// Returns the number of bytes by which a fragment grows.
fn moof_growth(shift: &Shift, scales: &[TimeScale], moof: &[u8]) -> u64
    ensures told { result ≡ spec.moof_growth shift.now scales.now moof.now }
    ensures few { result ≤ length moof.now }
{
    let mut sum = 0;
    let mut rest = moof;
    'boxes: while let Some(piece) = cut_front(rest) {
        sum += box_growth(shift, scales, piece);
        rest = piece.rest;
    }
    sum
}

/// Returns the number of bytes by which a box in a fragment grows.
fn box_growth(shift: &Shift, scales: &[TimeScale], piece: Piece<'_>) -> u64
    ensures told { result ≡ spec.growth_in_moof shift.now scales.now (box_of piece.entry) }
    ensures few { result ≤ length piece.entry.content.now }
{
    if piece.kind != Kind::Traf.code() {
        return 0;
    }
    traf_growth(shift, scales, piece.content)
}

/// Appends the boxes of a fragment to `out`, with their times moved; the fragment grows by `more` bytes.
fn push_boxes(
    out: &mut Vec<u8>,
    shift: &Shift,
    scales: &[TimeScale],
    more: u64,
    moof: &[u8],
) -> Result<(), AllocError>
    requires { more ≤ 2 ^ 63 }
    ensures { IfOk result (λ _. out.new.items ≡ out.old.items ++ spec.moved_boxes shift.now scales.now more true moof.now) }
{
    let mut first = true;
    let mut rest = moof;
    'boxes: while let Some(piece) = cut_front(rest) {
        push_box(out, shift, scales, more, first, piece)?;
        first = still_first(first, piece.kind);
        rest = piece.rest;
    }
    out.extend_from_slice(rest)
}

/// Returns whether no track's fragment has come after a box of type `kind`; `first` says whether none came before it.
fn still_first(first: bool, kind: u32) -> bool
    ensures { result ≡ (first && not (kind == code Kind.Traf)) }
{
    first && kind != Kind::Traf.code()
}

/// Appends a box of a fragment to `out`, moved; `first` says whether no track's fragment came before it, and the
/// fragment grows by `more` bytes.
fn push_box(
    out: &mut Vec<u8>,
    shift: &Shift,
    scales: &[TimeScale],
    more: u64,
    first: bool,
    piece: Piece<'_>,
) -> Result<(), AllocError>
    requires proper { IsBox (box_of piece) }
    requires few { more ≤ 2 ^ 63 }
    ensures { IfOk result (λ _. out.new.items ≡ out.old.items ++ spec.moved_in_moof shift.now scales.now more first (box_of piece.entry)) }
{
    if piece.kind != Kind::Traf.code() {
        return push_whole(out, piece);
    }
    let later = if counts_from_moof(first, piece.content) {
        more
    } else {
        0
    };
    push_traf(out, shift, scales, later, piece)
}
