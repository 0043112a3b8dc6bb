//! Looks at the front line of a publisher's bytes.
ghost use Rattle.std.specs.Prelude.{◌≡◌, ◌<◌, ◌≤◌, ◌==◌, ℕ, List, IfSome, MatchOption, None, false, length, nat_lt, true, if◌then◌else◌};
ghost use Rattle.std.specs.List.{position_or_len};
ghost use Rattle.std.specs.Str.Lines.{strip_carriage_return};
ghost use Rattle.ll_item.specs.Announced as told;
ghost use Rattle.ll_publish.specs.Found.{found, found_after};
ghost use Rattle.ll_publish.specs.Lines as spec;
ghost use Rattle.ll_publish.specs.Lines.{front_of, front_parts, has_end};

use crate::line::{LINE_LIMIT, Line, parts_of};
use ll_item::{MEDIA_LIMIT, announced};
use memchr::memchr;

/// A line that was found, the number of bytes that are taken out with it, and, if its rest is to be passed over, the number of bytes
/// before its end is searched for.
#[derive(Clone, Copy)]
pub(crate) struct Seen<'a> {
    pub(crate) line: Line<'a>,
    pub(crate) taken: usize,
    pub(crate) passing: Option<u64>,
}

/// Returns the front line of `bytes`, none of which are passed over, or `None` if more bytes are needed.
pub(crate) fn look(bytes: &[u8]) -> Option<Seen<'_>>
    ensures told { front_of bytes.now ≡ found result bytes.now }
    ensures within { IfSome result (λ s. s.taken ≤ length bytes.now) }
{
    let Some(end) = end_of(bytes) else {
        return look_at_open(bytes);
    };
    let line = without_return(&bytes[..end]);
    if line.len() > LINE_LIMIT {
        return Some(Seen {
            line: Line::TooLong,
            taken: end + 1,
            passing: None,
        });
    }
    let mut seen = look_at_line(line, &bytes[end + 1..])?;
    seen.taken += end + 1;
    Some(seen)
}

/// Returns the line of `bytes` in which no line ends: none, unless it is too long.
fn look_at_open(bytes: &[u8]) -> Option<Seen<'_>>
    requires { has_end bytes.now ≡ false }
    ensures told { front_of bytes.now ≡ found result bytes.now }
    ensures within { IfSome result (λ s. s.taken ≤ length bytes.now) }
{
    if without_return(bytes).len() <= LINE_LIMIT {
        return None;
    }
    Some(Seen {
        line: Line::TooLong,
        taken: bytes.len(),
        passing: Some(0),
    })
}

/// Returns the line `line`, which isn't too long and which `rest` follows.
fn look_at_line<'a>(line: &'a [u8], rest: &'a [u8]) -> Option<Seen<'a>>
    ensures told { (bytes : List ℕ) → front_parts (spec.parts line.now) rest.now bytes ≡ found_after result rest.now bytes }
    ensures within { IfSome result (λ s. s.taken ≤ length rest.now) }
{
    match parts_of(line) {
        Some((channel, item)) => look_at_item(channel, item, rest),
        None => Some(Seen {
            line: Line::Bad,
            taken: 0,
            passing: None,
        }),
    }
}

/// Returns the line with the item's line `line`, which `rest` follows, or `None` while bytes of the item are missing.
fn look_at_item<'a>(channel: &'a str, line: &'a str, rest: &'a [u8]) -> Option<Seen<'a>>
    ensures told { (bytes : List ℕ) → spec.front_item channel.now line.now (told.announced line.now) rest.now bytes ≡ found_after result rest.now bytes }
    ensures within { IfSome result (λ s. s.taken ≤ length rest.now) }
{
    match announced(line) {
        None => Some(Seen {
            line: Line::alone(channel, line),
            taken: 0,
            passing: None,
        }),
        Some((_, count)) if count > MEDIA_LIMIT => Some(Seen {
            line: Line::MediaTooLong,
            taken: 0,
            passing: Some(count),
        }),
        Some((item, count)) => look_at_bytes(channel, item, rest, count as usize),
    }
}

/// Returns the line of an item of `count` bytes, which `rest` follows, or `None` while some of them or the LF after them are missing.
fn look_at_bytes<'a>(
    channel: &'a str,
    item: &'a str,
    rest: &'a [u8],
    count: usize,
) -> Option<Seen<'a>>
    ensures told { (bytes : List ℕ)
        → (if nat_lt count (length rest.now) then spec.with_media count channel.now item.now rest.now else (None, spec.at_line bytes))
        ≡ found_after result rest.now bytes }
    ensures within { IfSome result (λ s. s.taken ≤ length rest.now) }
{
    if rest.len() <= count {
        return None;
    }
    let seen = if rest[count] == b'\n' {
        Seen {
            line: Line::Item(channel, item, &rest[..count]),
            taken: count + 1,
            passing: None,
        }
    } else {
        Seen {
            line: Line::Bad,
            taken: count,
            passing: Some(0),
        }
    };
    Some(seen)
}

/// Returns how many bytes of the front line's item haven't come, the LF after them counted: 0 if no line has ended, or if it announces
/// no bytes or too many.
pub(crate) fn missing(bytes: &[u8]) -> usize {
    let Some(end) = end_of(bytes) else {
        return 0;
    };
    let Some((_, item)) = parts_of(without_return(&bytes[..end])) else {
        return 0;
    };
    match announced(item) {
        Some((_, count)) if count <= MEDIA_LIMIT => (count as usize + 1).saturating_sub(
            bytes.len() - end - 1,
        ),
        _ => 0,
    }
}

/// Returns the index of the first LF.
pub(crate) fn end_of(bytes: &[u8]) -> Option<usize>
    ensures { MatchOption result (has_end bytes.now ≡ false)
        (λ end. (has_end bytes.now ≡ true) × (end ≡ position_or_len (λ b. b == 10) bytes.now) × (end < length bytes.now)) }
{
    memchr(b'\n', bytes)
}

/// Returns `line` without the CR that stands at its end.
fn without_return(line: &[u8]) -> &[u8]
    ensures { result.now ≡ strip_carriage_return line.now }
{
    match line {
        [text @ .., b'\r'] => text,
        _ => line,
    }
}
