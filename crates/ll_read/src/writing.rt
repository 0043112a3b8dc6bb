//! Playlists, written line by line.
ghost use Rattle.std.specs.Prelude.{◌≡◌, ◌++◌, ◌∷◌, IfOk, OnOk, map, string_bytes, flat_map};
ghost use Rattle.std.specs.Option.{option_map};
ghost use Rattle.ll_line.specs.Line as says;
ghost use Rattle.ll_line.specs.Text.{line_text, text_of};
ghost use Rattle.ll_line.specs.Spelling.{spelling, head_lines, header_lines, tail_lines, skip_lines, break_lines, map_lines, block_lines, segment_lines, open_lines, last_line};

use crate::playlist::{Block, Finished, Header, Playlist, Report, Skip};
use ll_attr::{Micros, Text};
use ll_line::{Control, DateTime, Line, Uri, push_line, push_skip};
use std::alloc::{AllocError, Global};

impl Playlist {
    /// Writes the text of the playlist, with LF at the end of each line (section 4).
    pub fn write(&self, alloc: Global) -> Result<Text, AllocError>
        ensures { IfOk result (λ text. text ≡ spelling self.now) }
    {
        let mut text = String::new(alloc);
        self.push_head(&mut text)?;
        self.push_ranges(&mut text)?;
        self.push_skip(alloc, &mut text)?;
        push_segments(&mut text, &self.segments)?;
        self.push_tail(&mut text)?;
        Ok(Text::from_string(text))
    }

    /// Appends the lines before all date ranges and segments.
    pub fn push_head(&self, text: &mut String) -> Result<(), AllocError>
        ensures { OnOk result (string_bytes text.new ≡ string_bytes text.old ++ text_of (head_lines self.now)) }
    {
        self.header.push_lines(text)?;
        push_line(text, &Line::MediaSequence(self.sequence))?;
        push_line(text, &Line::DiscontinuitySequence(self.discontinuity))
    }

    /// Appends a line for each date range.
    pub fn push_ranges(&self, text: &mut String) -> Result<(), AllocError>
        ensures { OnOk result (string_bytes text.new ≡ string_bytes text.old ++ text_of (map says.DateRange self.now.ranges)) }
    {
        for place in 0..self.ranges() {
            if let Some(range) = self.range(place) {
                push_line(text, &Line::DateRange(range))?;
            }
        }
        Ok(())
    }

    /// Appends the line that stands for skipped segments, if there is one.
    fn push_skip(&self, alloc: Global, text: &mut String) -> Result<(), AllocError>
        ensures { OnOk result (string_bytes text.new ≡ string_bytes text.old ++ text_of (skip_lines self.now.skipped)) }
    {
        match &self.skipped {
            Some(skip) => push_skip_line(alloc, text, skip),
            None => Ok(()),
        }
    }

    /// Appends the lines after all finished segments.
    #[tactic(auto, using(ll_line::proofs::Texts::tail_texts))]
    pub fn push_tail(&self, text: &mut String) -> Result<(), AllocError>
        ensures { OnOk result (string_bytes text.new ≡ string_bytes text.old ++ text_of (tail_lines self.now)) }
    {
        push_open(text, self.open_block.as_ref())?;
        push_reports(text, &self.reports)?;
        push_last_line(text, self.hint.as_ref())
    }
}

impl Header {
    /// Appends the lines of the header.
    fn push_lines(&self, text: &mut String) -> Result<(), AllocError>
        ensures { OnOk result (string_bytes text.new ≡ string_bytes text.old ++ text_of (header_lines self.now)) }
    {
        let control = Control {
            hold_back: Micros(self.hold_back),
            skip_until: Micros(self.skip_until),
            skips_date_ranges: self.skips_date_ranges,
        };
        push_line(text, &Line::First)?;
        push_line(text, &Line::Version(self.version))?;
        push_line(text, &Line::TargetDuration(self.target))?;
        push_line(text, &Line::ServerControl(control))?;
        push_line(text, &Line::PartTarget(Micros(self.part_target)))
    }
}

impl Block {
    /// Appends the lines of the block.
    fn push_lines(&self, text: &mut String) -> Result<(), AllocError>
        ensures { OnOk result (string_bytes text.new ≡ string_bytes text.old ++ text_of (block_lines self.now)) }
    {
        push_break(text, self.broken)?;
        push_map(text, self.map.as_ref())?;
        push_line(text, &Line::Time(DateTime::Text(self.time.as_str())))?;
        self.push_parts(text)
    }

    /// Appends a line for each part.
    pub fn push_parts(&self, text: &mut String) -> Result<(), AllocError>
        ensures { OnOk result (string_bytes text.new ≡ string_bytes text.old ++ text_of (map says.Part self.now.parts)) }
    {
        for part in &self.parts {
            let line = ll_line::PartLine {
                duration: Micros(part.duration),
                uri: Uri::Text(part.uri.as_str()),
                independent: part.independent,
            };
            push_line(text, &Line::Part(line))?;
        }
        Ok(())
    }
}

impl Finished {
    /// Appends the lines of the segment.
    fn push_lines(&self, text: &mut String) -> Result<(), AllocError>
        ensures { OnOk result (string_bytes text.new ≡ string_bytes text.old ++ text_of (segment_lines self.now)) }
    {
        self.block.push_lines(text)?;
        push_line(text, &Line::Duration(Micros(self.duration)))?;
        push_line(text, &Line::Uri(Uri::Text(self.uri.as_str())))
    }
}

/// Appends the line of a discontinuity, if the segment begins with one.
fn push_break(text: &mut String, broken: bool) -> Result<(), AllocError>
    ensures { OnOk result (string_bytes text.new ≡ string_bytes text.old ++ text_of (break_lines broken)) }
{
    if broken {
        push_line(text, &Line::Discontinuity)
    } else {
        Ok(())
    }
}

/// Appends the line of a map, if there is one.
fn push_map(text: &mut String, uri: Option<&Text>) -> Result<(), AllocError>
    ensures { OnOk result (string_bytes text.new ≡ string_bytes text.old ++ text_of (map_lines (option_map (λ uri. uri.now) uri.entry))) }
{
    match uri {
        Some(uri) => push_line(text, &Line::Map(Uri::Text(uri.as_str()))),
        None => Ok(()),
    }
}

/// Appends the line of a skip.
fn push_skip_line(alloc: Global, text: &mut String, skip: &Skip) -> Result<(), AllocError>
    ensures { OnOk result (string_bytes text.new ≡ string_bytes text.old ++ line_text (says.Skipped skip.now)) }
{
    let removed = match &skip.removed {
        Some(ids) => Some(ids.as_slice()),
        None => None,
    };
    push_skip(alloc, text, skip.count, removed)
}

/// Appends the lines of finished segments.
fn push_segments(text: &mut String, segments: &[Finished]) -> Result<(), AllocError>
    ensures { OnOk result (string_bytes text.new ≡ string_bytes text.old ++ text_of (flat_map segment_lines segments.now)) }
{
    for segment in segments {
        segment.push_lines(text)?;
    }
    Ok(())
}

/// Appends the lines of the open segment, if there is one.
fn push_open(text: &mut String, block: Option<&Block>) -> Result<(), AllocError>
    ensures { OnOk result (string_bytes text.new ≡ string_bytes text.old ++ text_of (open_lines (option_map (λ block. block.now) block.entry))) }
{
    match block {
        Some(block) => block.push_lines(text),
        None => Ok(()),
    }
}

/// Appends a line for each Rendition Report.
fn push_reports(text: &mut String, reports: &[Report]) -> Result<(), AllocError>
    ensures { OnOk result (string_bytes text.new ≡ string_bytes text.old ++ text_of (map says.RenditionReport reports.now)) }
{
    for report in reports {
        let line = ll_line::Report {
            uri: Uri::Text(report.uri.as_str()),
            number: report.number,
            index: report.index,
        };
        push_line(text, &Line::RenditionReport(line))?;
    }
    Ok(())
}

/// Appends the Preload Hint, or the end if there is none.
fn push_last_line(text: &mut String, hint: Option<&Text>) -> Result<(), AllocError>
    ensures { OnOk result (string_bytes text.new ≡ string_bytes text.old ++ line_text (last_line (option_map (λ uri. uri.now) hint.entry))) }
{
    match hint {
        Some(uri) => push_line(text, &Line::Hint(Uri::Text(uri.as_str()))),
        None => push_line(text, &Line::EndList),
    }
}
