//! Playlists, read line by line.
ghost use Rattle.std.specs.Prelude.{◌≡◌, ◌≢◌, ◌∷◌, ◌++◌, [], IfOk, IfErr, IsOk, IsErrOf, Ok, Err, Some, None, MatchOption, take};
ghost use Rattle.std.specs.Str.Lines.{strip_carriage_return};
ghost use Rattle.ll_attr.specs.Words.{pieces_at};
ghost use Rattle.ll_read.specs.Draft.{Draft, put};
ghost use Rattle.ll_read.specs.Drafted.{drafted, IsAfter};
ghost use Rattle.ll_line.specs.Formats.{line_in};
ghost use Rattle.ll_line.specs.Meaning.{meant};
ghost use Rattle.ll_read.specs.Ranges.{has_id, ranges_of, ranges_in};
ghost use Rattle.ll_read.specs.Reading.{at, first_line, is_new_line, next_line, playlist_in, read_from, start};

use crate::draft::Draft;
use crate::fault::ReadFault;
use crate::playlist::Playlist;
use crate::shape::{Shape, Stage};
use ll_attr::cut;
use ll_line::Line;
use std::alloc::{AllocError, Global};
use std::str;

/// Parses a Media Playlist or a Playlist Delta Update of this profile: UTF-8 (section 4), whose lines end in LF or CR LF. Fails with the first fault;
/// `Memory` comes after all others.
pub fn read(alloc: Global, bytes: &[u8]) -> Result<Playlist, ReadFault>
    ensures value { IfOk result (λ p. playlist_in bytes.now ≡ Ok p) }
    ensures refused { IfErr result (λ fault. fault ≢ ReadFault.Memory → playlist_in bytes.now ≡ Err fault) }
    ensures memory { IsErrOf result ReadFault.Memory → IsOk (playlist_in bytes.now) }
{
    let Ok(text) = str::from_utf8(bytes) else {
        return Err(ReadFault::NotPlaylist);
    };
    if first(text) == "#EXTM3U" {
        read_lines(alloc, text)
    } else {
        Err(ReadFault::NotPlaylist)
    }
}

/// Returns the first line, without its end.
fn first(text: &str) -> &str
    ensures { result.now ≡ first_line (pieces_at 10 text.now) }
{
    match cut(text, '\n') {
        Some((line, _)) => without_end(line),
        None => text,
    }
}

/// Returns a line without the CR that can stand before its LF.
pub(crate) fn without_end(line: &str) -> &str
    ensures { result.now ≡ strip_carriage_return line.now }
{
    match line.strip_suffix('\r') {
        Some(front) => front,
        None => line,
    }
}

/// Reads the playlist of the lines of `text`. Once memory is missing the draft is dropped, and the other lines are checked without it.
fn read_lines(alloc: Global, text: &str) -> Result<Playlist, ReadFault>
    ensures value { IfOk result (λ p. read_from 1 start (pieces_at 10 text.now) ≡ Ok p) }
    ensures refused { IfErr result (λ fault. fault ≢ ReadFault.Memory → read_from 1 start (pieces_at 10 text.now) ≡ Err fault) }
    ensures memory { IsErrOf result ReadFault.Memory → IsOk (read_from 1 start (pieces_at 10 text.now)) }
{
    let mut shape = Shape::start();
    let mut draft = Some(Draft::new(alloc));
    let mut rest = text;
    let mut count: usize = 0;
    loop {
        let number = count as u64 + 1;
        let Some((line, below)) = cut(rest, '\n') else {
            return ended(rest, shape, draft, number);
        };
        let Some((next, line)) = allowed(alloc, shape, &draft, text, count, without_end(line))
        else {
            return Err(ReadFault::BadLine { line: number });
        };
        shape = next;
        draft = grown(draft, alloc, &line);
        rest = below;
        count += 1;
    }
}

/// Returns the playlist, if it is complete and `rest`, what follows the last LF, is empty. `number` is that of a line at `rest`.
fn ended(rest: &str, shape: Shape, draft: Option<Draft>, number: u64) -> Result<Playlist, ReadFault>
    ensures value { (d : Draft) → drafted draft d → IfOk result (λ p. read_from number (at shape d) (rest.now ∷ []) ≡ Ok p) }
    ensures refused { (d : Draft) → IfErr result (λ fault. fault ≢ ReadFault.Memory → read_from number (at shape d) (rest.now ∷ []) ≡ Err fault) }
    ensures memory { (d : Draft) → IsErrOf result ReadFault.Memory → IsOk (read_from number (at shape d) (rest.now ∷ [])) }
{
    match shape.stage {
        Stage::AtEnd if rest.is_empty() => match draft {
            Some(draft) => Ok(draft.playlist),
            None => Err(ReadFault::Memory),
        },
        _ => Err(ReadFault::BadLine { line: number }),
    }
}

/// Parses a line, which follows the first `count` lines of `text`. Returns it with the shape after it, or `None` if it isn't allowed there.
fn allowed<'a>(
    alloc: Global,
    shape: Shape,
    draft: &Option<Draft>,
    text: &str,
    count: usize,
    line: &'a str,
) -> Option<(Shape, Line<'a>)>
    ensures { (d : Draft) → IsAfter (take count (pieces_at 10 text.now)) draft.now d → MatchOption result (next_line (at shape d) (line_in line.now) ≡ None)
        (λ s. (next_line (at shape d) (line_in line.now) ≡ Some (at s.0 (put (meant s.1) d)))
        × ((put (meant s.1) d).playlist.ranges ≡ d.playlist.ranges ++ ranges_in (line_in line.now))) }
{
    let line = Line::read(alloc, line)?;
    let is_new = is_new(alloc, draft, text, count, &line);
    let shape = shape.next(&line, is_new)?;
    Some((shape, line))
}

/// Returns the draft with one more line, or `None` once memory is missing.
fn grown(draft: Option<Draft>, alloc: Global, line: &Line<'_>) -> Option<Draft>
    ensures { (d : Draft) → drafted draft d → drafted result (put (meant line.now) d) }
{
    let mut draft = draft?;
    match draft.put(alloc, line) {
        Ok(()) => Some(draft),
        Err(AllocError) => None,
    }
}

/// Returns whether the first `count` lines of `text` have no date range with the id of `line`, if that is a date range. Without a draft they are read
/// again.
fn is_new(alloc: Global, draft: &Option<Draft>, text: &str, count: usize, line: &Line<'_>) -> bool
    ensures { (d : Draft) → IsAfter (take count (pieces_at 10 text.now)) draft.now d → result ≡ is_new_line (meant line.now) d.playlist }
{
    match (line, draft) {
        (Line::DateRange(range), Some(draft)) => !draft.playlist.has_range(range.id),
        (Line::DateRange(range), None) => !stands_before(alloc, text, count, range.id),
        _ => true,
    }
}

/// Returns whether one of the first `count` lines of `text` is a date range with this id.
fn stands_before(alloc: Global, text: &str, count: usize, id: &str) -> bool
    ensures { result ≡ has_id id.now (ranges_of (take count (pieces_at 10 text.now))) }
{
    let mut left = count;
    let mut rest = text;
    while 0 < left {
        let Some((line, below)) = cut(rest, '\n') else {
            return has_this_id(alloc, without_end(rest), id);
        };
        if has_this_id(alloc, without_end(line), id) {
            return true;
        }
        rest = below;
        left -= 1;
    }
    false
}

/// Returns whether a line is a date range with this id.
fn has_this_id(alloc: Global, line: &str, id: &str) -> bool
    ensures { result ≡ has_id id.now (ranges_in (line_in line.now)) }
{
    match Line::read(alloc, line) {
        Some(Line::DateRange(range)) => id == range.id,
        _ => false,
    }
}
