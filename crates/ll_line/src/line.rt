//! The contents of a line. Texts are borrowed.

use crate::time::DateTime;
use crate::uri::Uri;
use ll_attr::Micros;

/// EXT-X-SERVER-CONTROL (section 4.4.3.8).
#[derive(Clone, Copy)]
pub struct Control {
    /// The distance from the end of the playlist that players keep (PART-HOLD-BACK).
    pub hold_back: Micros,
    /// The Skip Boundary (CAN-SKIP-UNTIL).
    pub skip_until: Micros,
    /// Whether a delta update may skip date ranges (CAN-SKIP-DATERANGES).
    pub skips_date_ranges: bool,
}

/// EXT-X-DATERANGE (section 4.4.5.1).
#[derive(Clone, Copy)]
pub struct DateRange<'a> {
    /// The value of the ID attribute.
    pub id: &'a str,
    /// The other attributes, as an attribute list is spelled.
    pub attributes: &'a str,
}

/// EXT-X-SKIP (section 4.4.5.2).
#[derive(Clone, Copy)]
pub struct Skip<'a> {
    /// The number of segments that are skipped.
    pub count: u64,
    /// The ids of date ranges that were removed recently, separated by tabs, if the line has RECENTLY-REMOVED-DATERANGES.
    pub removed: Option<&'a str>,
}

/// EXT-X-PART (section 4.4.4.9).
#[derive(Clone, Copy)]
pub struct PartLine<'a> {
    /// The duration (DURATION).
    pub duration: Micros,
    /// The URI of the part.
    pub uri: Uri<'a>,
    /// Whether the part can be played without one before it (INDEPENDENT).
    pub independent: bool,
}

/// EXT-X-RENDITION-REPORT (section 4.4.5.4): the position of another rendition.
#[derive(Clone, Copy)]
pub struct Report<'a> {
    /// The URI of the rendition's playlist.
    pub uri: Uri<'a>,
    /// The Media Sequence Number of the rendition's last segment with a part (LAST-MSN).
    pub number: u64,
    /// The Part Index of the last part of that segment (LAST-PART).
    pub index: u64,
}

/// A line of a playlist, without its end and whatever its place.
#[derive(Clone, Copy)]
pub enum Line<'a> {
    /// EXTM3U (section 4.4.1.1).
    First,
    /// EXT-X-VERSION (section 4.4.1.2).
    Version(u64),
    /// EXT-X-TARGETDURATION in seconds (section 4.4.3.1).
    TargetDuration(u64),
    ServerControl(Control),
    /// EXT-X-PART-INF (section 4.4.3.7).
    PartTarget(Micros),
    /// EXT-X-MEDIA-SEQUENCE (section 4.4.3.2).
    MediaSequence(u64),
    /// EXT-X-DISCONTINUITY-SEQUENCE (section 4.4.3.3).
    DiscontinuitySequence(u64),
    DateRange(DateRange<'a>),
    Skipped(Skip<'a>),
    /// EXT-X-DISCONTINUITY (section 4.4.4.3).
    Discontinuity,
    /// EXT-X-MAP: its URI (section 4.4.4.5).
    Map(Uri<'a>),
    /// EXT-X-PROGRAM-DATE-TIME (section 4.4.4.6).
    Time(DateTime<'a>),
    Part(PartLine<'a>),
    /// EXTINF (section 4.4.4.1).
    Duration(Micros),
    /// The URI of a segment.
    Uri(Uri<'a>),
    RenditionReport(Report<'a>),
    /// EXT-X-PRELOAD-HINT: its URI (section 4.4.5.3).
    Hint(Uri<'a>),
    /// EXT-X-ENDLIST (section 4.4.3.4).
    EndList,
}
