//! Media Segments, without their parts.

/// A Media Segment, finished or open (section 4.4.4).
#[derive(Clone, Copy, PartialEq, Eq)]
pub struct Segment {
    /// The Media Sequence Number (EXT-X-MEDIA-SEQUENCE, section 4.4.3.2).
    pub number: u64,
    /// Whether the segment begins with a discontinuity: a break came right before its first part (EXT-X-DISCONTINUITY,
    /// section 4.4.4.3).
    pub broken: bool,
    /// The number of the segment's Media Initialization Section (EXT-X-MAP, section 4.4.4.5): how many segments are broken, up to
    /// and with this one.
    pub map_number: u64,
    /// The time at which the segment begins, in microseconds since 1970-01-01T00:00:00Z (EXT-X-PROGRAM-DATE-TIME, section 4.4.4.6).
    pub time: u64,
    /// The duration of the segment's parts together, in microseconds (EXTINF, section 4.4.4.1).
    pub duration: u64,
}
