//! What an item adds to the bytes that are kept of its rendition.
ghost use Rattle.std.specs.Prelude.{◌≡◌, IfOk};
ghost use Rattle.ll_store.specs.Step.{brought_by};

use ll_item::{Item, Media};
use std::alloc::AllocError;

/// What an item adds to the bytes that are kept of its rendition.
#[derive(Drop)]
pub enum Brought {
    /// A part.
    Part {
        /// The bytes of the part.
        media: Media,
        /// Whether the part is the last of its segment.
        finish: bool,
    },
    /// A Media Initialization Section.
    Section {
        /// The bytes of the section.
        media: Media,
    },
    /// A finish or the end of the rendition, which finish an open segment.
    Closes,
    /// No bytes.
    Nothing,
}

impl Brought {
    /// Returns what `item` adds, with another handle of its bytes.
    pub fn by(item: &Item) -> Result<Brought, AllocError>
        ensures { IfOk result (λ brought. brought ≡ brought_by item.now) }
    {
        Ok(match item {
            Item::Part(part) => Brought::Part {
                media: part.media.again()?,
                finish: part.finish,
            },
            Item::Init { media, .. } => Brought::Section {
                media: media.again()?,
            },
            Item::Finish { .. } | Item::End { .. } => Brought::Closes,
            Item::Break { .. } | Item::Range { .. } | Item::Unrange { .. } => Brought::Nothing,
        })
    }
}
