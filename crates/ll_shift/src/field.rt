//! The fields in which boxes have times: how they are read, and written with a moved time.
ghost use Rattle.std.specs.Prelude.{◌≡◌, ◌++◌, ◌+◌, ◌≤◌, ◌^◌, IfOk, length};
ghost use Rattle.byteorder.specs.Endian.{big_bytes};
ghost use Rattle.ll_shift.specs.Found.{IsBox, box_of};
ghost use Rattle.ll_shift.specs.Times as spec;

use crate::pieces::{Piece, push_grown, push_long, push_whole, push_word};
use crate::shift::Shift;
use byteorder::{BigEndian, ByteOrder};
use std::alloc::AllocError;

/// The field in which a box has a time.
#[derive(Clone, Copy)]
pub(crate) struct Field {
    /// Whether it has 64 bits, and not 32.
    pub(crate) is_long: bool,
    pub(crate) time: u64,
}

/// The field that replaces another.
#[derive(Clone, Copy)]
pub(crate) struct Target {
    /// Whether the replaced field has 64 bits, and not 32.
    pub(crate) was_long: bool,
    /// Whether this field has 64 bits, and not 32.
    pub(crate) is_long: bool,
    pub(crate) time: u64,
}

/// Reads the time at `place` of `content`. Returns `None` if the content is too short for it or of an unknown version.
fn read_field(place: usize, content: &[u8]) -> Option<Field>
    requires { place ≤ 16 }
    ensures { result ≡ spec.field_at place content.now }
{
    if content.len() < place + 4 {
        return None;
    }
    match content[0] {
        0 => Some(Field {
            is_long: false,
            time: BigEndian::read_u32(&content[place..]) as u64,
        }),
        1 if content.len() >= place + 8 => Some(Field {
            is_long: true,
            time: BigEndian::read_u64(&content[place..]),
        }),
        _ => None,
    }
}

/// Returns the moved time at `place` of `content`, of a track with `scale` ticks in a second, or `None` if it has no time or the track isn't
/// known.
pub(crate) fn find_target(
    shift: &Shift,
    scale: Option<u32>,
    place: usize,
    content: &[u8],
) -> Option<Target>
    requires { place ≤ 16 }
    ensures { result ≡ spec.target_at shift.now scale place content.now }
{
    let scale = scale?;
    let field = read_field(place, content)?;
    let time = shift.moved_time(scale, field.time);
    Some(Target {
        was_long: field.is_long,
        is_long: field.is_long || time >= 1 << 32,
        time,
    })
}

/// Returns the number of bytes by which a field grows: 4 if it grows to 64 bits, else 0.
pub(crate) fn growth(target: Option<Target>) -> u64
    ensures told { result ≡ spec.growth target }
    ensures few { result ≤ 4 }
{
    match target {
        Some(t) if t.is_long && !t.was_long => 4,
        _ => 0,
    }
}

/// Appends `piece`, a box with a time at `place` of its content, to `out`, with its time moved.
pub(crate) fn push_timed(
    out: &mut Vec<u8>,
    shift: &Shift,
    scale: Option<u32>,
    place: usize,
    piece: Piece<'_>,
) -> Result<(), AllocError>
    requires proper { IsBox (box_of piece) }
    requires low { 4 ≤ place }
    requires high { place ≤ 16 }
    ensures { IfOk result (λ _. out.new.items ≡ out.old.items ++ spec.timed shift.now scale place (box_of piece.entry)) }
{
    let Some(target) = find_target(shift, scale, place, piece.content) else {
        return push_whole(out, piece);
    };
    push_grown(out, piece, growth(Some(target)))?;
    push_target(out, place, target, piece.content)
}

/// Appends `content` to `out`, with `target` in place of the time at `place`.
fn push_target(
    out: &mut Vec<u8>,
    place: usize,
    target: Target,
    content: &[u8],
) -> Result<(), AllocError>
    requires low { 4 ≤ place }
    requires high { place ≤ 16 }
    requires full { place + spec.width target.was_long ≤ length content.now }
    ensures { IfOk result (λ _. out.new.items ≡ out.old.items ++ spec.with_target place target content.now) }
{
    out.push(target.is_long as u8)?;
    out.extend_from_slice(&content[1..place])?;
    push_time(out, target)?;
    out.extend_from_slice(&content[place + width(target.was_long)..])
}

/// Appends the time of `target` to `out`.
fn push_time(out: &mut Vec<u8>, target: Target) -> Result<(), AllocError>
    ensures { IfOk result (λ _. out.new.items ≡ out.old.items ++ big_bytes (spec.width target.is_long) target.time) }
{
    if target.is_long {
        push_long(out, target.time)
    } else {
        push_word(out, target.time)
    }
}

/// Returns the length of a field, in bytes.
fn width(is_long: bool) -> usize
    ensures { result ≡ spec.width is_long }
{
    if is_long { 8 } else { 4 }
}
