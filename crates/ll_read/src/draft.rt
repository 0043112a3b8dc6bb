//! The playlist that the lines so far make up.
ghost use Rattle.std.specs.Prelude.{◌≡◌, ◌++◌, ◌∷◌, [], IfOk, map, false};
ghost use Rattle.std.specs.Option.{option_map};
ghost use Rattle.ll_read.specs.Draft.{blank, closed, plain, with_part};
ghost use Rattle.ll_read.specs.Draft as spec;
ghost use Rattle.ll_read.specs.Drafted.{takes_memory};
ghost use Rattle.ll_line.specs.Line as line;
ghost use Rattle.ll_format.specs.Words.{cut_at};
ghost use Rattle.ll_line.specs.Meaning.{date_time_text, meant, part_meant, report_meant, skip_meant};
ghost use Rattle.ll_line.specs.Uris.{uri_text};
ghost use Rattle.ll_read.specs.Ranges.{range_at, has_id};

use crate::playlist::{Block, Finished, Header, PartLine, Playlist, Report, Skip};
use indexmap::IndexMap;
use ll_attr::{Text, cut};
use ll_line::{DateTime, Line, Uri};
use std::alloc::{AllocError, Global};
use std::marker::Model;

/// The playlist so far, and what the lines so far say of its next segment.
#[derive(Drop)]
pub(crate) struct Draft {
    pub(crate) playlist: Playlist,
    /// Whether the next segment begins with a discontinuity.
    pub(crate) broken: bool,
    /// The URI of the next segment's Media Initialization Section.
    pub(crate) map: Option<Text>,
    /// The segment under way, whose URI hasn't come yet.
    pub(crate) segment: Option<Block>,
    /// The duration of the segment under way, in microseconds.
    pub(crate) duration: u64,
}

impl Model for Draft {
    ghost use Rattle.ll_read.specs.Draft.{Draft};

    ghost Value = { Draft };

    ghost view = { λ d. record { playlist = d.playlist; broken = d.broken; map = d.map; segment = d.segment; duration = d.duration } };
}

impl Draft {
    /// Returns the draft before the first line. It takes no memory.
    pub(crate) fn new(alloc: Global) -> Draft
        ensures { result ≡ plain blank }
    {
        let header = Header {
            version: 0,
            target: 0,
            hold_back: 0,
            skip_until: 0,
            skips_date_ranges: false,
            part_target: 0,
        };
        let playlist = Playlist {
            header,
            sequence: 0,
            discontinuity: 0,
            ranges: IndexMap::new(alloc),
            skipped: None,
            segments: Vec::new(alloc),
            open_block: None,
            reports: Vec::new(alloc),
            hint: None,
        };
        Draft {
            playlist,
            broken: false,
            map: None,
            segment: None,
            duration: 0,
        }
    }

    /// Adds a line, whether it is allowed there or not. After a failure the draft is of no use. The id of a date range must be new, else it fails
    /// too.
    pub(crate) fn put(&mut self, alloc: Global, line: &Line<'_>) -> Result<(), AllocError>
        ensures { IfOk result (λ u. self.new ≡ spec.put (meant line.now) self.old) }
    {
        match line {
            Line::DateRange(range) => {
                if self.playlist.has_range(range.id) {
                    return Err(AllocError);
                }
                put_range(&mut self.playlist.ranges, alloc, range.id, range.attributes)
            }
            Line::Skipped(skip) => self.skip(alloc, skip),
            Line::Map(uri) => {
                self.map = Some(uri_copy(alloc, uri)?);
                Ok(())
            }
            Line::Time(time) => self.open(alloc, time),
            Line::Part(part) => self.add_part(alloc, part),
            Line::Uri(uri) => self.finish_segment(alloc, uri),
            Line::RenditionReport(report) => self.add_report(alloc, report),
            Line::Hint(uri) => self.add_hint(alloc, uri),
            _ => {
                self.set(line);
                Ok(())
            }
        }
    }

    /// Adds a line that takes no memory.
    fn set(&mut self, line: &Line<'_>)
        requires { takes_memory (meant line.now) ≡ false }
        ensures { self.new ≡ spec.put (meant line.now) self.old }
    {
        match line {
            Line::Version(version) => self.playlist.header.version = *version,
            Line::TargetDuration(target) => self.playlist.header.target = *target,
            Line::ServerControl(control) => {
                self.playlist.header.hold_back = control.hold_back.0;
                self.playlist.header.skip_until = control.skip_until.0;
                self.playlist.header.skips_date_ranges = control.skips_date_ranges;
            }
            Line::PartTarget(part_target) => self.playlist.header.part_target = part_target.0,
            Line::MediaSequence(number) => self.playlist.sequence = *number,
            Line::DiscontinuitySequence(number) => self.playlist.discontinuity = *number,
            Line::Discontinuity => self.broken = true,
            Line::Duration(duration) => self.duration = duration.0,
            Line::EndList => self.close(),
            _ => {}
        }
    }

    /// Adds the line of a skip: how many segments are skipped, and which removed date ranges it lists.
    fn skip(&mut self, alloc: Global, skip: &ll_line::Skip<'_>) -> Result<(), AllocError>
        ensures { IfOk result (λ u. self.new ≡ spec.put (line.Skipped (skip_meant skip.now)) self.old) }
    {
        let removed = removed_ids(alloc, skip.removed)?;
        self.playlist.skipped = Some(Skip {
            count: skip.count,
            removed,
        });
        Ok(())
    }

    /// Begins a segment at `time`.
    fn open(&mut self, alloc: Global, time: &DateTime<'_>) -> Result<(), AllocError>
        ensures { IfOk result (λ u. self.new ≡ spec.put (line.Time (date_time_text time.now)) self.old) }
    {
        let time = Text::from_string(format!(in alloc; "{time}")?);
        self.segment = Some(Block {
            broken: self.broken,
            map: self.map.take(),
            time,
            parts: Vec::new(alloc),
        });
        self.broken = false;
        Ok(())
    }

    /// Adds a part to the segment under way.
    fn add_part(&mut self, alloc: Global, part: &ll_line::PartLine<'_>) -> Result<(), AllocError>
        ensures { IfOk result (λ u. self.new ≡ spec.put (line.Part (part_meant part.now)) self.old) }
    {
        let part = PartLine {
            duration: part.duration.0,
            uri: uri_copy(alloc, &part.uri)?,
            independent: part.independent,
        };
        put_part(&mut self.segment, part)
    }

    /// Finishes the segment under way, with its URI.
    fn finish_segment(&mut self, alloc: Global, uri: &Uri<'_>) -> Result<(), AllocError>
        ensures { IfOk result (λ u. self.new ≡ spec.put (line.Uri (uri_text uri.now)) self.old) }
    {
        let uri = uri_copy(alloc, uri)?;
        let duration = self.duration;
        self.duration = 0;
        let Some(block) = self.segment.take() else {
            return Ok(());
        };
        self.playlist.segments.push(Finished {
            block,
            duration,
            uri,
        })?;
        Ok(())
    }

    /// Adds a Rendition Report, after which the segment under way stays open.
    fn add_report(&mut self, alloc: Global, report: &ll_line::Report<'_>) -> Result<(), AllocError>
        ensures { IfOk result (λ u. self.new ≡ spec.put (line.RenditionReport (report_meant report.now)) self.old) }
    {
        self.close();
        let report = Report {
            uri: uri_copy(alloc, &report.uri)?,
            number: report.number,
            index: report.index,
        };
        self.playlist.reports.push(report)?;
        Ok(())
    }

    /// Adds the Preload Hint, after which the segment under way stays open.
    fn add_hint(&mut self, alloc: Global, uri: &Uri<'_>) -> Result<(), AllocError>
        ensures { IfOk result (λ u. self.new ≡ spec.put (line.Hint (uri_text uri.now)) self.old) }
    {
        self.close();
        self.playlist.hint = Some(uri_copy(alloc, uri)?);
        Ok(())
    }

    /// Makes the segment under way, if there is one, the open segment.
    fn close(&mut self)
        ensures { self.new ≡ closed self.old }
    {
        if let Some(block) = self.segment.take() {
            self.playlist.open_block = Some(block);
        }
    }
}

/// Returns a URI as a text of its own.
fn uri_copy(alloc: Global, uri: &Uri<'_>) -> Result<Text, AllocError>
    ensures { IfOk result (λ text. text ≡ uri_text uri.now) }
{
    Ok(Text::from_string(format!(in alloc; "{uri}")?))
}

/// Adds a date range with a new id after the others.
fn put_range(
    ranges: &mut IndexMap<String, Text>,
    alloc: Global,
    id: &str,
    attributes: &str,
) -> Result<(), AllocError>
    requires { has_id id.now (map range_at ranges.old.entries) ≡ false }
    ensures { IfOk result (λ u. map range_at ranges.new.entries ≡ map range_at ranges.old.entries
        ++ (record { id = id.now; attributes = attributes.now }) ∷ []) }
{
    let key = String::from_str(alloc, id)?;
    let attributes = Text::from_str(alloc, attributes)?;
    match ranges.insert(key, attributes) {
        Ok(_) => Ok(()),
        Err(_) => Err(AllocError),
    }
}

/// Adds a part to a segment, if there is one.
fn put_part(segment: &mut Option<Block>, part: PartLine) -> Result<(), AllocError>
    ensures { IfOk result (λ u. segment.new ≡ option_map (with_part part) segment.old) }
{
    if let Some(block) = segment {
        block.parts.push(part)?;
    }
    Ok(())
}

/// Returns the ids that a skip line lists, or `None` if it has no list.
fn removed_ids(alloc: Global, removed: Option<&str>) -> Result<Option<Vec<Text>>, AllocError>
    ensures { IfOk result (λ r. option_map (λ ids. ids.items) r ≡ option_map (λ ids. cut_at 9 ids.now) removed.entry) }
{
    match removed {
        Some(ids) => Ok(Some(split_ids(alloc, ids)?)),
        None => Ok(None),
    }
}

/// Splits a text into the ids between its tabs.
fn split_ids(alloc: Global, text: &str) -> Result<Vec<Text>, AllocError>
    ensures { IfOk result (λ ids. ids.items ≡ cut_at 9 text.now) }
{
    let mut ids = Vec::new(alloc);
    if text.is_empty() {
        return Ok(ids);
    }
    let mut rest = text;
    while let Some((id, more)) = cut(rest, '\t') {
        ids.push(Text::from_str(alloc, id)?)?;
        rest = more;
    }
    ids.push(Text::from_str(alloc, rest)?)?;
    Ok(ids)
}
