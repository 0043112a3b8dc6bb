//! Media that a player gets.
use ll_item::What;
use ll_store::Blocks;

/// A segment, a part or a Media Initialization Section, as a player gets it. Its bytes are shared with all who hold them.
pub struct MediaReply {
    /// Its bytes.
    pub bytes: Blocks,
    /// The number of items that the channel had accepted.
    pub number: u64,
    /// The index of its rendition.
    pub rendition: usize,
    /// The file of the rendition that it is.
    pub what: What,
}

impl Drop for MediaReply {
    fn drop(self) {
        let MediaReply {
            bytes: _bytes,
            number: _,
            rendition: _,
            what: _,
        } = self;
    }
}
