//! The items that a publisher announces.
ghost use Rattle.std.specs.Prelude.{◌≡◌, IfOk};
ghost use Rattle.ll_item.specs.Items.{is_about_ranges, rendition_of};

use crate::media::Media;
use ll_attr::{AttrList, Text};
use std::alloc::AllocError;

/// An item that a publisher announces.
pub enum Item {
    /// The next Partial Segment of a rendition (EXT-X-PART, section 4.4.4.9).
    Part(PartItem),
    /// The Media Initialization Section of the segment that the next part belongs to, and of those after it until the next break
    /// (EXT-X-MAP, section 4.4.4.5).
    Init {
        /// The index of the rendition in the settings.
        rendition: usize,
        /// The bytes of the section.
        media: Media,
    },
    /// The end of the open segment with the part that was announced last.
    Finish {
        /// The index of the rendition in the settings.
        rendition: usize,
    },
    /// A discontinuity between the last segment and the next one (EXT-X-DISCONTINUITY, section 4.4.4.3).
    Break {
        /// The index of the rendition in the settings.
        rendition: usize,
        /// The time at which the next segment begins, if the break sets one: milliseconds since 1970-01-01T00:00:00Z (EXT-X-PROGRAM-DATE-TIME,
        /// section 4.4.4.6).
        time: Option<u64>,
    },
    /// The end of the rendition (EXT-X-ENDLIST, section 4.4.3.4). It finishes an open segment.
    End {
        /// The index of the rendition in the settings.
        rendition: usize,
    },
    /// A date range that playlists list from now on (EXT-X-DATERANGE, section 4.4.5.1).
    Range {
        /// The index of the rendition in the settings.
        rendition: usize,
        /// The date range's ID, which no other one that is listed has.
        id: Text,
        /// The other attributes of the date range, in the order in which playlists have them.
        attributes: AttrList,
    },
    /// The removal of a date range, which playlists list no longer.
    Unrange {
        /// The index of the rendition in the settings.
        rendition: usize,
        /// The date range's ID.
        id: Text,
    },
}

impl Drop for Item {
    fn drop(self) {
        match self {
            Item::Part(_part) => {}
            Item::Init {
                rendition: _,
                media: _media,
            } => {}
            Item::Finish { rendition: _ }
            | Item::Break {
                rendition: _,
                time: _,
            }
            | Item::End { rendition: _ } => {}
            Item::Range {
                rendition: _,
                id: _id,
                attributes: _attributes,
            } => {}
            Item::Unrange {
                rendition: _,
                id: _id,
            } => {}
        }
    }
}

/// A Partial Segment as it is announced (EXT-X-PART, section 4.4.4.9).
pub struct PartItem {
    /// The index of the rendition in the settings.
    pub rendition: usize,
    /// The duration in microseconds (DURATION).
    pub duration: u64,
    /// Whether the part can be played without one before it (INDEPENDENT).
    pub independent: bool,
    /// Whether the part is the last of its segment.
    pub finish: bool,
    /// The bytes of the part.
    pub media: Media,
}

impl Drop for PartItem {
    fn drop(self) {
        let PartItem {
            rendition: _,
            duration: _,
            independent: _,
            finish: _,
            media: _media,
        } = self;
    }
}

impl PartItem {
    /// Copies the part. The copy shares its bytes.
    pub fn copy(&self) -> Result<PartItem, AllocError>
        ensures { IfOk result (λ part. part ≡ self.now) }
    {
        Ok(PartItem {
            rendition: self.rendition,
            duration: self.duration,
            independent: self.independent,
            finish: self.finish,
            media: self.media.again()?,
        })
    }
}

/// Why a line is no item.
#[derive(Clone, Copy, Debug)]
pub enum ItemFault {
    /// The line has the form of no item.
    BadLine,
    /// The channel has no rendition of that name.
    NoRendition,
    /// The list of a date range can't be parsed, or doesn't begin with a quoted ID.
    BadAttribute,
    /// Out of memory.
    Memory,
}

impl From<AllocError> for ItemFault {
    ghost use Rattle.ll_item.specs.declared.item.ItemFault.TheVariants.{Memory};

    ghost from_gives = { λ error fault. fault ≡ Memory };

    fn from(_error: AllocError) -> ItemFault {
        ItemFault::Memory
    }
}

impl Item {
    /// Returns the index of the item's rendition in the settings.
    pub fn rendition(&self) -> usize
        ensures { result ≡ rendition_of self.now }
    {
        match self {
            Item::Part(part) => part.rendition,
            Item::Init { rendition, .. }
            | Item::Finish { rendition }
            | Item::Break { rendition, .. }
            | Item::End { rendition }
            | Item::Range { rendition, .. }
            | Item::Unrange { rendition, .. } => *rendition,
        }
    }

    /// Returns whether the item adds a date range or removes one.
    pub fn is_about_ranges(&self) -> bool
        ensures { result ≡ is_about_ranges self.now }
    {
        matches!(self, Item::Range { .. } | Item::Unrange { .. })
    }

    /// Copies the item. The copy shares its bytes.
    pub fn copy(&self) -> Result<Item, AllocError>
        ensures { IfOk result (λ item. item ≡ self.now) }
    {
        Ok(match self {
            Item::Part(part) => Item::Part(part.copy()?),
            Item::Init { rendition, media } => Item::Init {
                rendition: *rendition,
                media: media.again()?,
            },
            Item::Finish { rendition } => Item::Finish {
                rendition: *rendition,
            },
            Item::Break { rendition, time } => Item::Break {
                rendition: *rendition,
                time: *time,
            },
            Item::End { rendition } => Item::End {
                rendition: *rendition,
            },
            Item::Range {
                rendition,
                id,
                attributes,
            } => Item::Range {
                rendition: *rendition,
                id: id.copy()?,
                attributes: attributes.copy()?,
            },
            Item::Unrange { rendition, id } => Item::Unrange {
                rendition: *rendition,
                id: id.copy()?,
            },
        })
    }
}
