//! The lengths by which a stream is cut.

/// The lengths of parts and segments, in microseconds.
#[derive(Clone, Copy)]
pub struct Lengths {
    /// The longest part.
    pub part: u64,
    /// The length from which on a segment ends: before the next sync sample, or, if parts don't wait, with the part that reaches it.
    pub segment: u64,
    /// The longest segment.
    pub most: u64,
    /// Whether a part waits for the fragment after it; if not, each fragment is a part.
    pub ahead: bool,
}
