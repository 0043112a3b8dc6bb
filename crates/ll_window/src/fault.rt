//! The rules that refuse an item, and the errors of adding one.

/// A rule that refuses an item after those before it. If several apply, the first in this order counts.
#[derive(Clone, Copy, Debug)]
pub enum WindowFault {
    /// An item after the end of its rendition (EXT-X-ENDLIST, section 4.4.3.4).
    Ended,
    /// A part of 0 microseconds.
    BadDuration,
    /// A part longer than the part target duration (EXT-X-PART-INF, section 4.4.3.7), or with which its segment lasts longer than the
    /// target duration, rounded to whole seconds and half a second upwards (EXT-X-TARGETDURATION, section 4.4.3.1).
    TooLong,
    /// A break while a segment is open (EXT-X-DISCONTINUITY, section 4.4.4.3).
    OpenSegment,
    /// A finish while no segment is open.
    NoSegment,
    /// A part of a segment whose Media Sequence Number is above 2^60 (EXT-X-MEDIA-SEQUENCE, section 4.4.3.2).
    CountEnd,
    /// A part that ends after the year 9999, or a break that sets a time after it.
    TimeEnd,
    /// A break that sets a time before that at which the next part would begin without it.
    TimeBack,
}

/// Why an item isn't added.
#[derive(Clone, Copy, Debug)]
pub enum PushError {
    /// The first rule that refuses the item.
    Refused(WindowFault),
    /// Out of memory, although no rule refuses the item.
    Memory,
}
