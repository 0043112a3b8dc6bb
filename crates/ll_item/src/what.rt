//! The files of a rendition, as a request asks for them.

/// What a request asks for of a rendition.
#[derive(Clone, Copy, PartialEq, Eq)]
pub enum What {
    /// The Media Playlist.
    Playlist,
    /// The segment with this Media Sequence Number.
    Segment(u64),
    /// In the segment with this Media Sequence Number, the part with this Part Index.
    Part(u64, u64),
    /// The Media Initialization Section with this map number, the `k` of `init<k>.mp4`.
    Init(u64),
}
