//! Writing of full playlists and delta updates.
ghost use Rattle.std.specs.Prelude.{◌≡◌, ◌==◌, ◌++◌, IfOk, OnOk, drop, string_bytes, map};
ghost use Rattle.ll_page.specs.Full.{full_text, full_playlist, header_of, report_by, reports_of, hint_of, sequence_of, range_line};
ghost use Rattle.ll_page.specs.Delta.{delta_text, delta_by, ranges_left, ids_removed};
ghost use Rattle.ll_pieces.specs.View.{asked};
ghost use Rattle.ll_page.specs.Page.{text_in};
ghost use Rattle.ll_pieces.specs.Pieces.{pieces_from};
ghost use Rattle.ll_line.specs.Line as says;
ghost use Rattle.ll_line.specs.Text.{line_text, text_of};
ghost use Rattle.ll_line.specs.Spelling.{spelling, head_lines, header_lines, last_line};

use ll_attr::{Micros, Text};
use ll_item::SkipKind;
use ll_line::{Control, Line, Report, Uri, push_line, push_skip};
use ll_pieces::{Pieces, Rendered, View};
use ll_range::Ranges;
use ll_settings::Settings;
use ll_window::{PartPosition, Window};
use std::alloc::{AllocError, Global};

/// Returns the text of the full Media Playlist of `view` (section 4.4): the header; the date ranges in order of adding; of each segment of the
/// window its discontinuity, map, time, parts, EXTINF and URI; the same of the open segment up to its parts; the Rendition Reports of the
/// others that have a part; and the Preload Hint or the end. Each line ends in LF.
pub fn full(alloc: Global, view: &View<'_>) -> Result<Text, AllocError>
    ensures { IfOk result (λ text. text ≡ full_text view.now) }
{
    let (text, _) = written(alloc, view, None, Rendered::none())?;
    Ok(Text::from_string(text))
}

/// Returns the text of the delta update of `view` (section 6.2.5.1): the full playlist, with one EXT-X-SKIP line in place of the segments that are
/// skipped (section 4.4.5.2). Of the others only broken ones have an EXT-X-MAP line. If no segment is skipped, it is the full playlist. An update
/// of kind `V2` also skips the date ranges that were added longer ago than the Skip Boundary, and lists the ids of the recent removals.
pub fn delta(alloc: Global, view: &View<'_>, kind: SkipKind) -> Result<Text, AllocError>
    ensures { IfOk result (λ text. text ≡ delta_text kind view.now) }
{
    let (text, _) = written(alloc, view, Some(kind), Rendered::none())?;
    Ok(Text::from_string(text))
}

/// Returns the text of the delta update of kind `form`, or for `None` of the full playlist, and the pieces that it is joined from, which share
/// those of `rendered`.
pub(crate) fn written(
    alloc: Global,
    view: &View<'_>,
    form: Option<SkipKind>,
    rendered: Rendered<'_>,
) -> Result<(String, Pieces), AllocError>
    ensures { IfOk result (λ made. string_bytes made.0 ≡ text_in form view.now) }
{
    let (kind, skipped) = match form {
        None => (SkipKind::Yes, 0),
        Some(kind) => (kind, view.window().skip_count()),
    };
    let pieces = Pieces::of(alloc, view, skipped, rendered)?;
    let text = playlist(alloc, view, &pieces, kind, skipped)?;
    Ok((text, pieces))
}

/// Returns the text of the playlist that skips `skipped` segments and, if that isn't 0, the date ranges that an update of this kind skips, joined
/// from the pieces of `view`.
fn playlist(
    alloc: Global,
    view: &View<'_>,
    pieces: &Pieces,
    kind: SkipKind,
    skipped: usize,
) -> Result<String, AllocError>
    requires { pieces.now ≡ pieces_from skipped view.now }
    ensures { IfOk result (λ text. string_bytes text ≡ spelling (delta_by kind skipped view.now)) }
{
    let mut text = String::new(alloc);
    push_head(&mut text, view)?;
    if skipped == 0 {
        push_ranges(&mut text, view.ranges(), 0)?;
    } else {
        push_skipped(&mut text, alloc, view, kind, skipped)?;
    }
    pieces.push_finished(&mut text, skipped == 0)?;
    pieces.push_unfinished(&mut text, view.window().segment_count() == 0)?;
    push_reports(&mut text, view)?;
    push_last_line(&mut text, view.window())?;
    Ok(text)
}

/// Appends the lines before all date ranges and segments.
fn push_head(text: &mut String, view: &View<'_>) -> Result<(), AllocError>
    ensures { OnOk result (string_bytes text.new ≡ string_bytes text.old ++ text_of (head_lines (full_playlist view.now))) }
{
    let window = view.window();
    push_header(text, view.settings())?;
    push_line(text, &Line::MediaSequence(sequence(window)))?;
    push_line(text, &Line::DiscontinuitySequence(window.discontinuity()))
}

/// Appends the lines that depend on the settings alone.
fn push_header(text: &mut String, settings: &Settings) -> Result<(), AllocError>
    ensures { OnOk result (string_bytes text.new ≡ string_bytes text.old ++ text_of (header_lines (header_of settings.now))) }
{
    let part_target = settings.part_target();
    let control = Control {
        hold_back: Micros(3 * part_target),
        skip_until: Micros(settings.skip() * 1_000_000),
        skips_date_ranges: true,
    };
    push_line(text, &Line::First)?;
    push_line(text, &Line::Version(10))?;
    push_line(text, &Line::TargetDuration(settings.target()))?;
    push_line(text, &Line::ServerControl(control))?;
    push_line(text, &Line::PartTarget(Micros(part_target)))
}

/// Returns the Media Sequence Number of the first finished segment; without one, of the open segment or else the next.
fn sequence(window: &Window) -> u64
    ensures { result ≡ sequence_of window.now window.now.window }
{
    match window.segment(0) {
        Some(segment) => segment.number,
        None => window.next_number(),
    }
}

/// Appends the lines of the date ranges and of the `skipped` segments, at least one, in an update of this kind.
fn push_skipped(
    text: &mut String,
    alloc: Global,
    view: &View<'_>,
    kind: SkipKind,
    skipped: usize,
) -> Result<(), AllocError>
    ensures { OnOk result (string_bytes text.new ≡ string_bytes text.old
        ++ (text_of (map says.DateRange (map range_line (ranges_left kind (asked view.now))))
        ++ line_text (says.Skipped (record { count = skipped; removed = ids_removed kind (asked view.now) })))) }
{
    let (ranges, end) = (view.ranges(), view.window().end_time());
    match kind {
        SkipKind::Yes => {
            push_ranges(text, ranges, 0)?;
            push_skip(alloc, text, skipped as u64, None)
        }
        SkipKind::V2 => {
            let removed = ranges.recent(alloc, end)?;
            push_ranges(text, ranges, ranges.skipped(end))?;
            push_skip(alloc, text, skipped as u64, Some(removed.as_slice()))
        }
    }
}

/// Appends a line for each date range but the first `skipped`.
fn push_ranges(text: &mut String, ranges: &Ranges, skipped: usize) -> Result<(), AllocError>
    ensures { OnOk result (string_bytes text.new ≡ string_bytes text.old ++ text_of (map says.DateRange (map range_line (drop skipped ranges.now.listed)))) }
{
    for place in skipped..ranges.count() {
        if let Some(range) = ranges.listed(place) {
            push_range(text, range)?;
        }
    }
    Ok(())
}

/// Appends the line of a date range.
fn push_range(text: &mut String, range: ll_range::DateRange<'_>) -> Result<(), AllocError>
    ensures { OnOk result (string_bytes text.new ≡ string_bytes text.old
        ++ line_text (says.DateRange (range_line (record { id = range.entry.id.now; attributes = range.entry.attributes.now; added = range.entry.added })))) }
{
    let line = Line::DateRange(ll_line::DateRange {
        id: range.id,
        attributes: range.attributes,
    });
    push_line(text, &line)
}

/// Appends the Rendition Report of each other rendition that has a part.
fn push_reports(text: &mut String, view: &View<'_>) -> Result<(), AllocError>
    ensures { OnOk result (string_bytes text.new ≡ string_bytes text.old ++ text_of (map says.RenditionReport (reports_of view.now))) }
{
    let (names, asked) = (view.settings().renditions(), view.rendition());
    for (rendition, kept) in view.renditions().iter().enumerate() {
        let Some(name) = names.get(rendition) else {
            return Ok(());
        };
        push_report(text, rendition == asked, name, kept.window.last())?;
    }
    Ok(())
}

/// Appends the Rendition Report of the rendition called `name`, unless the playlist is its own or it has no part.
fn push_report(
    text: &mut String,
    is_asked: bool,
    name: &Text,
    last: Option<PartPosition>,
) -> Result<(), AllocError>
    ensures { OnOk result (string_bytes text.new ≡ string_bytes text.old
        ++ text_of (map says.RenditionReport (report_by is_asked name.now last))) }
{
    if is_asked {
        return Ok(());
    }
    if let Some(last) = last {
        let report = Report {
            uri: Uri::Rendition {
                name: name.as_str(),
            },
            number: last.number,
            index: last.index,
        };
        push_line(text, &Line::RenditionReport(report))?;
    }
    Ok(())
}

/// Appends the Preload Hint of the next part, or the end.
fn push_last_line(text: &mut String, window: &Window) -> Result<(), AllocError>
    ensures { OnOk result (string_bytes text.new ≡ string_bytes text.old ++ line_text (last_line (hint_of window.now))) }
{
    if window.ended() {
        push_line(text, &Line::EndList)
    } else {
        let (number, index) = (window.next_number(), window.open_parts().len() as u64);
        push_line(text, &Line::Hint(Uri::Part { number, index }))
    }
}
