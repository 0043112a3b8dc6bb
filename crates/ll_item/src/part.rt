//! Partial Segments, as their renditions keep them.

/// A Partial Segment as its rendition keeps it: without its bytes (EXT-X-PART, section 4.4.4.9).
#[derive(Clone, Copy, PartialEq, Eq)]
pub struct Part {
    /// The duration in microseconds.
    pub duration: u64,
    /// Whether the part can be played without one before it (INDEPENDENT=YES).
    pub independent: bool,
    /// Whether the part is the last of its segment.
    pub finish: bool,
    /// Whether a break came between the part before and this one (EXT-X-DISCONTINUITY, section 4.4.4.3).
    pub after_break: bool,
    /// The time that a break right before the part set, if one did: milliseconds since 1970-01-01T00:00:00Z.
    pub restart: Option<u64>,
}
