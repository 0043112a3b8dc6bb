//! Writing of lines.
ghost use Rattle.std.specs.Prelude.{◌≡◌, ◌++◌, OnOk, Some, string_bytes};
ghost use Rattle.std.specs.Option.{option_map};
ghost use Rattle.ll_format.specs.Format as format;
ghost use Rattle.ll_format.specs.Words.{cut_at};
ghost use Rattle.ll_line.specs.Formats as spec;
ghost use Rattle.ll_line.specs.Formats.{line};
ghost use Rattle.ll_line.specs.Text.{line_text};
ghost use Rattle.ll_line.specs.Meaning.{meant, control_meant, range_meant, skip_meant, part_meant, report_meant};

use crate::line::{Control, DateRange, Line, PartLine, Report, Skip};
use std::alloc::AllocError;
use std::fmt;

/// Appends `line` with LF at its end.
#[tactic(auto, unfolding(crate::specs::Text::line_text))]
pub fn push_line(text: &mut String, line: &Line<'_>) -> Result<(), AllocError>
    ensures { OnOk result (string_bytes text.new ≡ string_bytes text.old ++ line_text (meant line.now)) }
{
    write!(text, "{line}\n")
}

impl fmt::Display for Line<'_> {
    ghost output = { λ l. Some (line.print (meant l)) };

    fn fmt<W: fmt::Write>(&self, f: &mut fmt::Formatter<W>) -> fmt::Result {
        match self {
            Line::First => f.write_str("#EXTM3U"),
            Line::Version(version) => write!(f, "#EXT-X-VERSION:{version}"),
            Line::TargetDuration(seconds) => write!(f, "#EXT-X-TARGETDURATION:{seconds}"),
            Line::ServerControl(control) => write!(f, "#EXT-X-SERVER-CONTROL:{control}"),
            Line::PartTarget(target) => write!(f, "#EXT-X-PART-INF:PART-TARGET={target}"),
            Line::MediaSequence(number) => write!(f, "#EXT-X-MEDIA-SEQUENCE:{number}"),
            Line::DiscontinuitySequence(n) => write!(f, "#EXT-X-DISCONTINUITY-SEQUENCE:{n}"),
            Line::DateRange(range) => write!(f, "#EXT-X-DATERANGE:{range}"),
            Line::Skipped(skip) => write!(f, "#EXT-X-SKIP:{skip}"),
            Line::Discontinuity => f.write_str("#EXT-X-DISCONTINUITY"),
            Line::Map(uri) => write!(f, "#EXT-X-MAP:URI=\"{uri}\""),
            Line::Time(time) => write!(f, "#EXT-X-PROGRAM-DATE-TIME:{time}"),
            Line::Part(part) => write!(f, "#EXT-X-PART:{part}"),
            Line::Duration(duration) => write!(f, "#EXTINF:{duration},"),
            Line::Uri(uri) => write!(f, "{uri}"),
            Line::RenditionReport(report) => write!(f, "#EXT-X-RENDITION-REPORT:{report}"),
            Line::Hint(uri) => write!(f, "#EXT-X-PRELOAD-HINT:TYPE=PART,URI=\"{uri}\""),
            Line::EndList => f.write_str("#EXT-X-ENDLIST"),
        }
    }
}

impl fmt::Display for Control {
    ghost output = { λ c. Some (spec.control.print (control_meant c)) };

    fn fmt<W: fmt::Write>(&self, f: &mut fmt::Formatter<W>) -> fmt::Result {
        let (hold_back, skip_until) = (self.hold_back, self.skip_until);
        let skips = flag_text(self.skips_date_ranges, ",CAN-SKIP-DATERANGES=YES");
        write!(
            f,
            "CAN-BLOCK-RELOAD=YES,PART-HOLD-BACK={hold_back},CAN-SKIP-UNTIL={skip_until}{skips}"
        )
    }
}

impl fmt::Display for DateRange<'_> {
    ghost output = { λ r. Some (spec.date_range.print (range_meant r)) };

    fn fmt<W: fmt::Write>(&self, f: &mut fmt::Formatter<W>) -> fmt::Result {
        let (id, attributes) = (self.id, self.attributes);
        let comma = comma_before(attributes);
        write!(f, "ID=\"{id}\"{comma}{attributes}")
    }
}

impl fmt::Display for Skip<'_> {
    ghost output = { λ s. Some (spec.skip.print (skip_meant s)) };

    fn fmt<W: fmt::Write>(&self, f: &mut fmt::Formatter<W>) -> fmt::Result {
        let count = self.count;
        let (key, ids, end) = removed_text(self.removed);
        write!(f, "SKIPPED-SEGMENTS={count}{key}{ids}{end}")
    }
}

impl fmt::Display for PartLine<'_> {
    ghost output = { λ p. Some (spec.part.print (part_meant p)) };

    fn fmt<W: fmt::Write>(&self, f: &mut fmt::Formatter<W>) -> fmt::Result {
        let (duration, uri) = (self.duration, self.uri);
        let flag = flag_text(self.independent, ",INDEPENDENT=YES");
        write!(f, "DURATION={duration},URI=\"{uri}\"{flag}")
    }
}

impl fmt::Display for Report<'_> {
    ghost output = { λ r. Some (spec.report.print (report_meant r)) };

    fn fmt<W: fmt::Write>(&self, f: &mut fmt::Formatter<W>) -> fmt::Result {
        let (uri, number, index) = (self.uri, self.number, self.index);
        write!(f, "URI=\"{uri}\",LAST-MSN={number},LAST-PART={index}")
    }
}

/// Returns the text before the ids of RECENTLY-REMOVED-DATERANGES, the ids, and the text after them, all empty if there is no list.
#[tactic(auto, using(ll_format::proofs::SeparatedLaws::joined_again))]
fn removed_text(removed: Option<&str>) -> (&str, &str, &str)
    ensures { result.0.now ++ (result.1.now ++ result.2.now) ≡ spec.removed.print (option_map (λ ids. cut_at 9 ids.now) removed.entry) }
{
    match removed {
        Some(ids) => (",RECENTLY-REMOVED-DATERANGES=\"", ids, "\""),
        None => ("", "", ""),
    }
}

/// Returns the comma before `attributes`, empty if there are none.
fn comma_before(attributes: &str) -> &'static str
    ensures { result.now ++ attributes.now ≡ spec.attributes_text attributes.now }
{
    if attributes.is_empty() { "" } else { "," }
}

/// Returns `text` if `stands`, else the empty text.
fn flag_text<'a>(stands: bool, text: &'a str) -> &'a str
    ensures { result.now ≡ format.flag_text text.now stands }
{
    if stands { text } else { "" }
}
