//! The bytes of items.
ghost use Rattle.std.specs.Prelude.{◌≡◌, MatchOption, [], ◌≢◌};
ghost use Rattle.ll_item.specs.Items as spec;

use ll_item::{Item, Media, PartItem};

/// Returns the bytes of `item`, or `None` if it has none.
pub fn media_of(item: &Item) -> Option<&Media>
    ensures { MatchOption result (spec.media_of item.now ≡ []) (λ media. (media.now ≡ spec.media_of item.now) × (media.now ≢ [])) }
{
    let media = match item {
        Item::Part(PartItem { media, .. }) | Item::Init { media, .. } => media,
        Item::Finish { .. }
        | Item::Break { .. }
        | Item::End { .. }
        | Item::Range { .. }
        | Item::Unrange { .. } => return None,
    };
    if media.len() == 0 { None } else { Some(media) }
}
