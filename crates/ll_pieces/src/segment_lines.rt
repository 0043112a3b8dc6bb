//! Writing of the lines of one segment that isn't the first of a full playlist.
ghost use Rattle.std.specs.Prelude.{◌≡◌, ◌≤◌, ◌/◌, ◌++◌, OnOk, false, string_bytes, map};
ghost use Rattle.ll_attr.specs.YearEnd.{last_micro};
ghost use Rattle.ll_line.specs.Line as says;
ghost use Rattle.ll_line.specs.Text.{text_of};
ghost use Rattle.ll_pieces.specs.Segments.{block_of, finished_of, map_of, part_lines};
ghost use Rattle.ll_pieces.specs.Piece.{row_lines};
ghost use Rattle.ll_line.specs.Spelling.{block_lines, break_lines, map_lines, segment_lines};

use ll_attr::Micros;
use ll_format::UtcTime;
use ll_item::Part;
use ll_line::{DateTime, Line, PartLine, Uri, push_line};
use ll_window::Segment;
use std::alloc::AllocError;

/// Appends the lines of `segment`, finished or open, with the parts `parts`.
pub(crate) fn push_segment(
    text: &mut String,
    finished: bool,
    segment: Segment,
    parts: &[Part],
) -> Result<(), AllocError>
    requires { segment.time ≤ last_micro }
    ensures { OnOk result (string_bytes text.new ≡ string_bytes text.old
        ++ text_of (row_lines finished false (record { segment = segment; parts = parts.now }))) }
{
    if finished {
        push_finished(text, segment, parts)
    } else {
        push_block(text, segment, parts)
    }
}

/// Appends the lines of a finished segment.
fn push_finished(text: &mut String, segment: Segment, parts: &[Part]) -> Result<(), AllocError>
    requires { segment.time ≤ last_micro }
    ensures { OnOk result (string_bytes text.new ≡ string_bytes text.old
        ++ text_of (segment_lines (finished_of false (record { segment = segment; parts = parts.now })))) }
{
    push_block(text, segment, parts)?;
    let uri = Uri::Segment {
        number: segment.number,
    };
    push_line(text, &Line::Duration(Micros(segment.duration)))?;
    push_line(text, &Line::Uri(uri))
}

/// Appends the lines of a segment before its EXTINF line.
fn push_block(text: &mut String, segment: Segment, parts: &[Part]) -> Result<(), AllocError>
    requires { segment.time ≤ last_micro }
    ensures { OnOk result (string_bytes text.new ≡ string_bytes text.old
        ++ text_of (block_lines (block_of false (record { segment = segment; parts = parts.now })))) }
{
    push_break(text, segment.broken)?;
    push_map(text, segment.broken, segment.map_number)?;
    let time = utc_time(segment.time);
    push_line(text, &Line::Time(DateTime::Utc(&time)))?;
    push_parts(text, segment.number, parts)
}

/// Appends the line of a discontinuity, if the segment is `broken`.
fn push_break(text: &mut String, broken: bool) -> Result<(), AllocError>
    ensures { OnOk result (string_bytes text.new ≡ string_bytes text.old ++ text_of (break_lines broken)) }
{
    if broken {
        push_line(text, &Line::Discontinuity)
    } else {
        Ok(())
    }
}

/// Appends the EXT-X-MAP line of the map number `number`, if it is `needed`.
pub(crate) fn push_map(text: &mut String, needed: bool, number: u64) -> Result<(), AllocError>
    ensures { OnOk result (string_bytes text.new ≡ string_bytes text.old ++ text_of (map_lines (map_of needed number))) }
{
    if needed {
        push_line(text, &Line::Map(Uri::Map { number }))
    } else {
        Ok(())
    }
}

/// Appends a line for each part of the segment with the Media Sequence Number `number`.
fn push_parts(text: &mut String, number: u64, parts: &[Part]) -> Result<(), AllocError>
    ensures { OnOk result (string_bytes text.new ≡ string_bytes text.old ++ text_of (map says.Part (part_lines number 0 parts.now))) }
{
    for (index, part) in parts.iter().enumerate() {
        let index = index as u64;
        let line = PartLine {
            duration: Micros(part.duration),
            uri: Uri::Part { number, index },
            independent: part.independent,
        };
        push_line(text, &Line::Part(line))?;
    }
    Ok(())
}

/// Returns the time `micros` microseconds after 1970-01-01T00:00:00Z, cut to milliseconds.
fn utc_time(micros: u64) -> UtcTime
    requires { micros ≤ last_micro }
    ensures { result ≡ micros / 1000 }
{
    UtcTime::at(micros / 1_000).unwrap()
}
