//! The order in which lines are allowed in a playlist.
ghost use Rattle.std.specs.Prelude.{◌≡◌};
ghost use Rattle.ll_line.specs.Meaning.{meant};
ghost use Rattle.ll_read.specs.Shape as spec;

use ll_line::Line;

/// The place of the next line in a playlist.
#[derive(Clone, Copy)]
pub(crate) enum Stage {
    /// Before the first line.
    AtStart,
    /// After the first line, and so on for each line of the header.
    AfterFirst,
    AfterVersion,
    AfterTargetDuration,
    AfterControl,
    AfterPartTarget,
    AfterMediaSequence,
    /// After the header or a date range.
    InRanges,
    /// After the skip line, or the URI of a segment.
    BetweenSegments,
    /// After a discontinuity, with which a segment begins.
    AfterDiscontinuity,
    /// After a map.
    AfterMap,
    /// After a segment's time.
    InSegment,
    /// After a part.
    InParts,
    /// After a segment's duration.
    AfterDuration,
    /// After a Rendition Report.
    InReports,
    /// After the last line.
    AtEnd,
}

/// What decides which line is allowed next in a playlist, and nothing more.
#[derive(Clone, Copy)]
pub(crate) struct Shape {
    pub(crate) stage: Stage,
    /// Whether the segments can end here: after a skip line not before a finished segment has come.
    pub(crate) may_end: bool,
}

impl Shape {
    /// Returns the shape before the first line.
    pub(crate) fn start() -> Shape
        ensures { result ≡ spec.at_start }
    {
        Shape {
            stage: Stage::AtStart,
            may_end: true,
        }
    }

    /// Returns the shape after one more line, or `None` if it isn't allowed here. `is_new` says whether the id of a date range is new.
    pub(crate) fn next(self, line: &Line<'_>, is_new: bool) -> Option<Shape>
        ensures { result ≡ spec.shape_next self (meant line.now) is_new }
    {
        match self.stage {
            Stage::InRanges => self.in_ranges(line, is_new),
            Stage::BetweenSegments => self.between_segments(line),
            Stage::InParts => self.in_parts(line),
            Stage::InReports => self.after_segments(line),
            _ => self.in_order(line),
        }
    }

    /// Returns the shape after the next line of the header, or of a segment outside its parts.
    fn in_order(self, line: &Line<'_>) -> Option<Shape>
        ensures { result ≡ spec.in_order self.stage (meant line.now) self }
    {
        match (self.stage, line) {
            (Stage::AtStart, Line::First) => Some(self.to(Stage::AfterFirst)),
            (Stage::AfterFirst, Line::Version(9 | 10)) => Some(self.to(Stage::AfterVersion)),
            (Stage::AfterVersion, Line::TargetDuration(_)) => {
                Some(self.to(Stage::AfterTargetDuration))
            }
            (Stage::AfterTargetDuration, Line::ServerControl(_)) => {
                Some(self.to(Stage::AfterControl))
            }
            (Stage::AfterControl, Line::PartTarget(_)) => Some(self.to(Stage::AfterPartTarget)),
            (Stage::AfterPartTarget, Line::MediaSequence(_)) => {
                Some(self.to(Stage::AfterMediaSequence))
            }
            (Stage::AfterMediaSequence, Line::DiscontinuitySequence(_)) => {
                Some(self.to(Stage::InRanges))
            }
            (Stage::AfterDiscontinuity, Line::Map(_)) => Some(self.to(Stage::AfterMap)),
            (Stage::AfterMap, Line::Time(_)) => Some(self.to(Stage::InSegment)),
            (Stage::InSegment, Line::Part(_)) => Some(self.to(Stage::InParts)),
            (Stage::InSegment, Line::Duration(_)) => Some(self.to(Stage::AfterDuration)),
            (Stage::AfterDuration, Line::Uri(_)) => Some(Shape {
                stage: Stage::BetweenSegments,
                may_end: true,
            }),
            _ => None,
        }
    }

    /// Returns the shape after a line that follows the header or a date range. The first segment of a full playlist has a map, and a delta update has
    /// a finished segment of its own.
    fn in_ranges(self, line: &Line<'_>, is_new: bool) -> Option<Shape>
        ensures { result ≡ spec.in_ranges (meant line.now) is_new self }
    {
        match line {
            Line::DateRange(_) if is_new => Some(self),
            Line::DateRange(_) => None,
            Line::Skipped(skip) if 1 <= skip.count => Some(Shape {
                stage: Stage::BetweenSegments,
                may_end: false,
            }),
            Line::Skipped(_) => None,
            Line::Discontinuity => Some(self.to(Stage::AfterDiscontinuity)),
            Line::Map(_) => Some(self.to(Stage::AfterMap)),
            _ => self.after_segments(line),
        }
    }

    /// Returns the shape after a line that follows the skip line or a segment.
    fn between_segments(self, line: &Line<'_>) -> Option<Shape>
        ensures { result ≡ spec.between_segments (meant line.now) self }
    {
        match line {
            Line::Discontinuity => Some(self.to(Stage::AfterDiscontinuity)),
            Line::Time(_) => Some(self.to(Stage::InSegment)),
            _ if self.may_end => self.after_segments(line),
            _ => None,
        }
    }

    /// Returns the shape after a line that follows a part; its segment can stay open.
    fn in_parts(self, line: &Line<'_>) -> Option<Shape>
        ensures { result ≡ spec.in_parts (meant line.now) self }
    {
        match line {
            Line::Part(_) => Some(self),
            Line::Duration(_) => Some(self.to(Stage::AfterDuration)),
            _ if self.may_end => self.after_segments(line),
            _ => None,
        }
    }

    /// Returns the shape after a line that follows all segments.
    fn after_segments(self, line: &Line<'_>) -> Option<Shape>
        ensures { result ≡ spec.after_segments (meant line.now) self }
    {
        match line {
            Line::RenditionReport(_) => Some(self.to(Stage::InReports)),
            Line::Hint(_) | Line::EndList => Some(self.to(Stage::AtEnd)),
            _ => None,
        }
    }

    /// Returns the shape at `stage`.
    fn to(self, stage: Stage) -> Shape
        ensures { result ≡ spec.to stage self }
    {
        Shape { stage, ..self }
    }
}
