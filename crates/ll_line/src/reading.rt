//! Parsing of lines, from left to right.
ghost use Rattle.std.specs.Prelude.{◌≡◌};
ghost use Rattle.std.specs.Option.{option_map};
ghost use Rattle.ll_line.specs.Formats as spec;
ghost use Rattle.ll_line.specs.Formats.{line, said, said_by, ServerControlTag, PartTargetTag, DateRangeTag, SkippedTag, MapTag, TimeTag, PartTag, DurationTag, RenditionReportTag, HintTag};
ghost use Rattle.ll_line.specs.Meaning.{meant};

use crate::fields::{attributes_at, count_at, read_count, removed_at};
use crate::line::{Control, DateRange, Line, PartLine, Report, Skip};
use crate::time::DateTime;
use crate::uri::Uri;
use ll_attr::{AttrList, Micros, after};
use ll_format::{duration_at, flag_at, is_rest, is_uri, quoted_at, until, uri_at};
use std::alloc::Global;

impl Line<'_> {
    /// Parses a line without its end. Returns `None` if it is no line of this profile, never because memory ran out.
    pub fn read(alloc: Global, text: &str) -> Option<Line<'_>>
        ensures { option_map meant result ≡ line.read text.now }
    {
        if !text.starts_with('#') {
            return segment_uri(text);
        }
        let (name, rest) = until(text, ':');
        match after(rest, ":") {
            Some(said) => tagged(alloc, name, said),
            None => alone(text),
        }
    }
}

/// Parses the URI of a segment.
fn segment_uri(text: &str) -> Option<Line<'_>>
    ensures { option_map meant result ≡ spec.uri_said text.now }
{
    if is_uri(text) {
        Some(Line::Uri(Uri::Text(text)))
    } else {
        None
    }
}

/// Parses a tag without a value.
fn alone(text: &str) -> Option<Line<'_>>
    ensures { option_map meant result ≡ spec.said_alone text.now }
{
    match text {
        "#EXTM3U" => Some(Line::First),
        "#EXT-X-DISCONTINUITY" => Some(Line::Discontinuity),
        "#EXT-X-ENDLIST" => Some(Line::EndList),
        _ => None,
    }
}

/// Parses a line with the tag `tag`, a colon and the value `text`.
fn tagged<'a>(alloc: Global, tag: &str, text: &'a str) -> Option<Line<'a>>
    ensures { option_map meant result ≡ said_by tag.now text.now }
{
    match tag {
        "#EXT-X-VERSION" => Some(Line::Version(read_count(text)?)),
        "#EXT-X-TARGETDURATION" => Some(Line::TargetDuration(read_count(text)?)),
        "#EXT-X-SERVER-CONTROL" => control(text),
        "#EXT-X-PART-INF" => part_target(text),
        "#EXT-X-MEDIA-SEQUENCE" => Some(Line::MediaSequence(read_count(text)?)),
        "#EXT-X-DISCONTINUITY-SEQUENCE" => Some(Line::DiscontinuitySequence(read_count(text)?)),
        "#EXT-X-DATERANGE" => date_range(alloc, text),
        "#EXT-X-SKIP" => skip(text),
        "#EXT-X-MAP" => map(text),
        "#EXT-X-PROGRAM-DATE-TIME" => time(text),
        "#EXT-X-PART" => part(text),
        "#EXTINF" => segment_duration(text),
        "#EXT-X-RENDITION-REPORT" => report(text),
        "#EXT-X-PRELOAD-HINT" => hint(text),
        _ => None,
    }
}

/// Parses the value of EXT-X-SERVER-CONTROL.
fn control(text: &str) -> Option<Line<'_>>
    ensures { option_map meant result ≡ said ServerControlTag text.now }
{
    let (hold_back, rest) = duration_at(after(text, "CAN-BLOCK-RELOAD=YES,PART-HOLD-BACK=")?)?;
    let (skip_until, rest) = duration_at(after(rest, ",CAN-SKIP-UNTIL=")?)?;
    let (skips_date_ranges, rest) = flag_at(rest, ",CAN-SKIP-DATERANGES=YES");
    if !rest.is_empty() {
        return None;
    }
    let (hold_back, skip_until) = (Micros(hold_back), Micros(skip_until));
    Some(Line::ServerControl(Control {
        hold_back,
        skip_until,
        skips_date_ranges,
    }))
}

/// Parses the value of EXT-X-PART-INF.
fn part_target(text: &str) -> Option<Line<'_>>
    ensures { option_map meant result ≡ said PartTargetTag text.now }
{
    let (duration, rest) = duration_at(after(text, "PART-TARGET=")?)?;
    if !rest.is_empty() {
        return None;
    }
    Some(Line::PartTarget(Micros(duration)))
}

/// Parses the value of EXT-X-DATERANGE, an attribute list whose first attribute is ID.
fn date_range(alloc: Global, text: &str) -> Option<Line<'_>>
    ensures { option_map meant result ≡ said DateRangeTag text.now }
{
    if let Some(_) = AttrList::first_fault(alloc, text) {
        return None;
    }
    let (id, rest) = quoted_at(after(text, "ID=\"")?)?;
    let (attributes, rest) = attributes_at(rest)?;
    let attributes = or_empty(attributes);
    if !rest.is_empty() {
        return None;
    }
    Some(Line::DateRange(DateRange { id, attributes }))
}

/// Returns `text`, or the empty text for `None`.
fn or_empty(text: Option<&str>) -> &str
    ensures { result.now ≡ spec.text_or_empty (option_map (λ t. t.now) text.entry) }
{
    match text {
        Some(text) => text,
        None => "",
    }
}

/// Parses the value of EXT-X-SKIP.
fn skip(text: &str) -> Option<Line<'_>>
    ensures { option_map meant result ≡ said SkippedTag text.now }
{
    let (count, rest) = count_at(after(text, "SKIPPED-SEGMENTS=")?)?;
    let (removed, rest) = removed_at(rest)?;
    if !rest.is_empty() {
        return None;
    }
    Some(Line::Skipped(Skip { count, removed }))
}

/// Parses the value of EXT-X-MAP.
fn map(text: &str) -> Option<Line<'_>>
    ensures { option_map meant result ≡ said MapTag text.now }
{
    let (uri, rest) = uri_at(after(text, "URI=\"")?)?;
    if !rest.is_empty() {
        return None;
    }
    Some(Line::Map(Uri::Text(uri)))
}

/// Parses the value of EXT-X-PROGRAM-DATE-TIME.
fn time(text: &str) -> Option<Line<'_>>
    ensures { option_map meant result ≡ said TimeTag text.now }
{
    if is_rest(text) {
        Some(Line::Time(DateTime::Text(text)))
    } else {
        None
    }
}

/// Parses the value of EXT-X-PART.
fn part(text: &str) -> Option<Line<'_>>
    ensures { option_map meant result ≡ said PartTag text.now }
{
    let (duration, rest) = duration_at(after(text, "DURATION=")?)?;
    let (uri, rest) = uri_at(after(rest, ",URI=\"")?)?;
    let (independent, rest) = flag_at(rest, ",INDEPENDENT=YES");
    if !rest.is_empty() {
        return None;
    }
    Some(Line::Part(PartLine {
        duration: Micros(duration),
        uri: Uri::Text(uri),
        independent,
    }))
}

/// Parses the value of EXTINF, which has no title.
fn segment_duration(text: &str) -> Option<Line<'_>>
    ensures { option_map meant result ≡ said DurationTag text.now }
{
    let (duration, rest) = duration_at(text)?;
    let rest = after(rest, ",")?;
    if !rest.is_empty() {
        return None;
    }
    Some(Line::Duration(Micros(duration)))
}

/// Parses the value of EXT-X-RENDITION-REPORT.
fn report(text: &str) -> Option<Line<'_>>
    ensures { option_map meant result ≡ said RenditionReportTag text.now }
{
    let (uri, rest) = uri_at(after(text, "URI=\"")?)?;
    let (number, rest) = count_at(after(rest, ",LAST-MSN=")?)?;
    let (index, rest) = count_at(after(rest, ",LAST-PART=")?)?;
    if !rest.is_empty() {
        return None;
    }
    let uri = Uri::Text(uri);
    Some(Line::RenditionReport(Report { uri, number, index }))
}

/// Parses the value of EXT-X-PRELOAD-HINT.
fn hint(text: &str) -> Option<Line<'_>>
    ensures { option_map meant result ≡ said HintTag text.now }
{
    let (uri, rest) = uri_at(after(text, "TYPE=PART,URI=\"")?)?;
    if !rest.is_empty() {
        return None;
    }
    Some(Line::Hint(Uri::Text(uri)))
}
