//! What an item adds to the bytes that are kept of a channel.
use crate::brought::Brought;

/// What an item adds to the bytes that are kept of its channel.
#[derive(Drop)]
pub struct Arrival {
    /// The index of the item's rendition.
    pub(crate) rendition: usize,
    /// The map number that an initialization section gets if the item is one.
    pub(crate) map: u64,
    /// What the item adds.
    pub(crate) brought: Brought,
}
