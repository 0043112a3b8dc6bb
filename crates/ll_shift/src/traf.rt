//! Moves the times of a track's fragment, and the offsets of its samples (section 8.8.6).
ghost use Rattle.std.specs.Prelude.{◌≡◌, ◌++◌, ◌+◌, ◌≤◌, ◌^◌, IfOk, length};
ghost use Rattle.ll_mp4.specs.Boxes.{contents_in};
ghost use Rattle.ll_mp4.specs.Movies.{scale_of};
ghost use Rattle.ll_mp4.specs.declared.kind.Kind.{Kind};
ghost use Rattle.ll_shift.specs.Found.{IsBox, box_of};
ghost use Rattle.ll_shift.specs.Moved as spec;
ghost use Rattle.ll_shift.specs.Pieces.{each, pieces};

use crate::field::{find_target, growth, push_timed};
use crate::pieces::{Piece, cut_front, push_grown, push_whole, push_word};
use crate::shift::Shift;
use byteorder::{BigEndian, ByteOrder};
use ll_mp4::{Kind, TimeScale, next_of};
use std::alloc::AllocError;

/// Flag of a track fragment's header (section 8.8.7): the base data offset is present.
const BASE_OFFSET: u32 = 0x00_0001;
/// Flag of a track fragment's header: offsets of data are counted from the `moof`.
const FROM_MOOF: u32 = 0x02_0000;
/// Flag of a run (section 8.8.8): the offset of its data is present.
const DATA_OFFSET: u32 = 0x00_0001;

/// The place of the decode time in the content of its box (section 8.8.12).
const TIME_PLACE: usize = 4;

/// Reads the 32-bit number at byte `place`, if it is there.
pub(crate) fn word_at(place: usize, bytes: &[u8]) -> Option<u32>
    requires { place ≤ 16 }
    ensures { result ≡ spec.word_at place bytes.now }
{
    if bytes.len() < place + 4 {
        return None;
    }
    Some(BigEndian::read_u32(&bytes[place..]))
}

/// Reads the 32-bit number at byte `place` of the header of a track's fragment (section 8.8.7).
fn header_word(place: usize, traf: &[u8]) -> Option<u32>
    requires { place ≤ 16 }
    ensures { result ≡ spec.first_word place (contents_in Kind.Tfhd traf.now) }
{
    match next_of(Kind::Tfhd, traf) {
        Ok(Some((tfhd, _))) => word_at(place, tfhd),
        _ => None,
    }
}

/// Returns the number of ticks in a second of the track with this ID, if it is one of the known tracks `scales`.
pub(crate) fn scale_by(scales: &[TimeScale], id: Option<u32>) -> Option<u32>
    ensures { result ≡ spec.scale_by scales.now id }
{
    match id {
        None => None,
        Some(id) => scale_of(scales, id),
    }
}

/// Returns the number of ticks in a second of the first track with the ID `id`.
fn scale_of(scales: &[TimeScale], id: u32) -> Option<u32>
    ensures { result ≡ scale_of id scales.now }
{
    scales
        .iter()
        .find(|track| track.id == id)
        .map(|track| track.scale)
}

/// Returns the number of ticks in a second of the track of the fragment `traf`, if the track is known.
fn scale_in(scales: &[TimeScale], traf: &[u8]) -> Option<u32>
    ensures { result ≡ spec.scale_in scales.now traf.now }
{
    scale_by(scales, header_word(4, traf))
}

/// Returns whether the runs of a track's fragment count the places of their samples from the `moof`; `first` says whether it is the first fragment
/// there.
pub(crate) fn counts_from_moof(first: bool, traf: &[u8]) -> bool
    ensures { result ≡ spec.counts_from_moof first traf.now }
{
    match header_word(0, traf) {
        None => false,
        Some(flags) => flags & BASE_OFFSET == 0 && (first || flags & FROM_MOOF != 0),
    }
}

/// Returns the number of bytes by which a track's fragment grows.
pub(crate) fn traf_growth(shift: &Shift, scales: &[TimeScale], traf: &[u8]) -> u64
    ensures told { result ≡ spec.traf_growth shift.now scales.now traf.now }
    ensures few { result ≤ length traf.now }
{
    let scale = scale_in(scales, traf);
    let mut sum = 0;
    let mut rest = traf;
    'boxes: while let Some(piece) = cut_front(rest) {
        sum += box_growth(shift, scale, piece);
        rest = piece.rest;
    }
    sum
}

/// Returns the number of bytes by which a box in it grows.
fn box_growth(shift: &Shift, scale: Option<u32>, piece: Piece<'_>) -> u64
    ensures told { result ≡ spec.box_growth shift.now scale (box_of piece.entry) }
    ensures few { result ≤ 4 }
{
    if piece.kind != Kind::Tfdt.code() {
        return 0;
    }
    growth(find_target(shift, scale, TIME_PLACE, piece.content))
}

/// Appends a track's fragment to `out`, with its times moved and its samples `more` bytes later.
pub(crate) fn push_traf(
    out: &mut Vec<u8>,
    shift: &Shift,
    scales: &[TimeScale],
    more: u64,
    piece: Piece<'_>,
) -> Result<(), AllocError>
    requires proper { IsBox (box_of piece) }
    requires few { more ≤ 2 ^ 63 }
    ensures { IfOk result (λ _. out.new.items ≡ out.old.items ++ spec.moved_traf shift.now scales.now more (box_of piece.entry)) }
{
    let traf = piece.content;
    push_grown(out, piece, traf_growth(shift, scales, traf))?;
    push_boxes(out, shift, scale_in(scales, traf), more, traf)
}

/// Appends the boxes of a track's fragment, whose track has `scale` ticks in a second, to `out`, with their times moved.
fn push_boxes(
    out: &mut Vec<u8>,
    shift: &Shift,
    scale: Option<u32>,
    more: u64,
    traf: &[u8],
) -> Result<(), AllocError>
    requires { more ≤ 2 ^ 63 }
    ensures { IfOk result (λ _. out.new.items ≡ out.old.items ++ each (spec.moved_in_traf shift.now scale more) traf.now) }
{
    let mut rest = traf;
    'boxes: while let Some(piece) = cut_front(rest) {
        push_box(out, shift, scale, more, piece)?;
        rest = piece.rest;
    }
    out.extend_from_slice(rest)
}

/// Appends a box of a track's fragment to `out`, with its time moved.
fn push_box(
    out: &mut Vec<u8>,
    shift: &Shift,
    scale: Option<u32>,
    more: u64,
    piece: Piece<'_>,
) -> Result<(), AllocError>
    requires proper { IsBox (box_of piece) }
    requires few { more ≤ 2 ^ 63 }
    ensures { IfOk result (λ _. out.new.items ≡ out.old.items ++ spec.moved_in_traf shift.now scale more (box_of piece.entry)) }
{
    if piece.kind == Kind::Tfdt.code() {
        return push_timed(out, shift, scale, TIME_PLACE, piece);
    }
    if piece.kind == Kind::Trun.code() {
        return push_run(out, more, piece);
    }
    push_whole(out, piece)
}

/// Appends a run whose samples are `more` bytes later to `out` (section 8.8.8).
fn push_run(out: &mut Vec<u8>, more: u64, piece: Piece<'_>) -> Result<(), AllocError>
    requires { more ≤ 2 ^ 63 }
    ensures { IfOk result (λ _. out.new.items ≡ out.old.items ++ spec.later more (box_of piece.entry)) }
{
    let trun = piece.content;
    if !has_offset(trun) {
        return push_whole(out, piece);
    }
    out.extend_from_slice(piece.header)?;
    out.extend_from_slice(&trun[..8])?;
    push_word(out, BigEndian::read_u32(&trun[8..]) as u64 + more)?;
    out.extend_from_slice(&trun[12..])
}

/// Returns whether a run has the offset of its data.
fn has_offset(trun: &[u8]) -> bool
    ensures { result ≡ spec.has_offset trun.now }
{
    trun.len() >= 12 && BigEndian::read_u32(trun) & DATA_OFFSET != 0
}
