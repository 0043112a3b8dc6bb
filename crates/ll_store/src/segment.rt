//! The bytes of finished segments and of Media Initialization Sections, as they are kept.
use ll_item::Media;
use std::marker::Model;

/// The bytes of a finished segment, part by part.
pub(crate) struct SegmentMedia {
    pub(crate) parts: Vec<Media>,
    /// The number of bytes of all parts.
    pub(crate) size: u64,
}

impl Drop for SegmentMedia {
    fn drop(self) {
        let SegmentMedia {
            parts: _parts,
            size: _,
        } = self;
    }
}

impl Model for SegmentMedia {
    ghost use Rattle.std.specs.Prelude.{◌≡◌, ℕ, List, length};
    ghost use Rattle.std.specs.List.{concat};

    ghost Value = { List (List ℕ) };

    ghost view = { λ s. s.parts.items };

    ghost invariant = { λ s. s.size ≡ length (concat s.parts.items) };
}

/// A Media Initialization Section: the bytes that were announced last for a map number.
pub(crate) struct Section {
    pub(crate) number: u64,
    pub(crate) bytes: Media,
}

impl Drop for Section {
    fn drop(self) {
        let Section {
            number: _,
            bytes: _bytes,
        } = self;
    }
}
