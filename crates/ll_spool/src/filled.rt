//! An item with its bytes.
ghost use Rattle.std.specs.Prelude.{◌≡◌, length};
ghost use Rattle.ll_item.specs.Items.{blank, media_of};

use ll_item::{Item, Media, PartItem};

/// Returns `item` with the bytes `media`, if it is one that has bytes.
pub(crate) fn filled(item: Item, media: Media) -> Item
    ensures same { length media ≡ length (media_of item) → blank result ≡ blank item }
    ensures filled { length media ≡ length (media_of item) → media_of result ≡ media }
{
    match &item {
        Item::Part(part) => Item::Part(PartItem {
            rendition: part.rendition,
            duration: part.duration,
            independent: part.independent,
            finish: part.finish,
            media,
        }),
        Item::Init { rendition, .. } => Item::Init {
            rendition: *rendition,
            media,
        },
        _ => item,
    }
}

/// Returns the number of bytes of `item`.
pub(crate) fn item_len(item: &Item) -> u64
    ensures { result ≡ length (media_of item.now) }
{
    match item {
        Item::Part(PartItem { media, .. }) | Item::Init { media, .. } => media.len(),
        Item::Finish { .. }
        | Item::Break { .. }
        | Item::End { .. }
        | Item::Range { .. }
        | Item::Unrange { .. } => 0,
    }
}
