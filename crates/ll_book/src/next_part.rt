//! A part that an item adds to its rendition.
use ll_item::Media;

/// A part that comes: its place and its bytes.
pub struct NextPart {
    /// The Media Sequence Number of its segment.
    pub number: u64,
    /// Its Part Index.
    pub index: u64,
    /// Its bytes.
    pub media: Media,
}

impl Drop for NextPart {
    fn drop(self) {
        let NextPart {
            number: _,
            index: _,
            media: _media,
        } = self;
    }
}
