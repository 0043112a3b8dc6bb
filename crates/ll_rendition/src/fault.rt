//! Why a channel refuses an item.

/// Why a channel doesn't accept an item. If several apply, the first in this order counts.
#[derive(Clone, Copy, Debug, PartialEq, Eq)]
pub enum PublishFault {
    /// The channel has no rendition with that index.
    NoRendition,
    /// An item after the end of its rendition (EXT-X-ENDLIST, section 4.4.3.4).
    Ended,
    /// A part of 0 microseconds.
    BadDuration,
    /// A part longer than the part target duration, or with which its segment lasts longer than the target duration.
    TooLong,
    /// A break while a segment is open.
    OpenSegment,
    /// A finish while no segment is open.
    NoSegment,
    /// A part of a segment whose Media Sequence Number is above 2^60.
    CountEnd,
    /// A part that ends after the year 9999, or a break that sets a time after it.
    TimeEnd,
    /// A break that sets a time before that at which the next part would begin without it.
    TimeBack,
    /// A date range whose id is listed or was removed recently.
    IdTaken,
    /// A date range whose id or an attribute isn't allowed, or that lacks START-DATE.
    BadAttribute,
    /// The removal of a date range that isn't listed.
    IdUnknown,
    /// The channel has taken 2^60 events.
    RecordFull,
    /// Out of memory.
    Memory,
}
