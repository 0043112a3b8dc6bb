//! Positions of parts.

/// The position of a part among all parts of its rendition.
#[derive(Clone, Copy, Debug)]
pub struct PartPosition {
    /// The Media Sequence Number of the part's segment (section 4.4.3.2).
    pub number: u64,
    /// The Part Index, from 0 in each segment (section 4.4.4.9).
    pub index: u64,
}
