//! Where and how an encoder's output is published.
use ll_announce::Names;
use ll_parts::Lengths;

/// Where and how an encoder's output is published.
#[derive(Clone, Copy)]
pub struct Target<'a> {
    /// The channel and the rendition.
    pub names: Names<'a>,
    /// The durations of parts and segments.
    pub lengths: Lengths,
    /// Whether the rendition is ended after the last part.
    pub ends: bool,
}
