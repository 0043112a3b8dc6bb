//! Items' bytes and their places.
use crate::side::Side;

/// The place of an item's bytes among those of its rendition.
#[derive(Clone, Copy)]
pub struct Extent {
    /// The file.
    pub side: Side,
    /// The number of bytes before them in the file.
    pub offset: u64,
    /// The number of bytes.
    pub length: u64,
}

/// The bytes of one item.
#[derive(Clone, Copy)]
pub struct StoredItem {
    /// The number of the item in its channel.
    pub count: u64,
    /// Where they are.
    pub place: Extent,
}

/// A part whose bytes are kept.
#[derive(Clone, Copy)]
pub(crate) struct KeptPart {
    /// The Media Sequence Number of its segment.
    pub(crate) number: u64,
    /// Its bytes.
    pub(crate) stored: StoredItem,
}

/// A Media Initialization Section whose bytes are kept (EXT-X-MAP, section 4.4.4.5).
#[derive(Clone, Copy)]
pub struct StoredSection {
    /// Its map number.
    pub(crate) map: u64,
    /// Its bytes.
    pub stored: StoredItem,
}
