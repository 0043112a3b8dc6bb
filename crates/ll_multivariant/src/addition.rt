//! What an item adds to the segments of its rendition.
ghost use Rattle.std.specs.Prelude.{◌≡◌};
ghost use Rattle.ll_multivariant.specs.Additions as spec;

use ll_item::{Item, PartItem};
use ll_variants::{Addition, Size};

/// Returns what `item` adds: a part its bytes and its duration; a finish and an end the end of the open segment.
pub(crate) fn addition_of(item: &Item) -> Addition
    ensures { result ≡ spec.addition_of item.now }
{
    match item {
        Item::Part(part) => part_addition(part),
        Item::Finish { rendition } | Item::End { rendition } => empty_addition(*rendition, true),
        Item::Init { rendition, .. }
        | Item::Break { rendition, .. }
        | Item::Range { rendition, .. }
        | Item::Unrange { rendition, .. } => empty_addition(*rendition, false),
    }
}

/// Returns what `part` adds.
fn part_addition(part: &PartItem) -> Addition
    ensures { result ≡ spec.part_addition part.now }
{
    Addition {
        rendition: part.rendition,
        size: Size {
            bytes: part.media.len(),
            duration: part.duration,
        },
        ends: part.finish,
    }
}

/// Returns what an item without bytes adds: the end of the open segment, if it `ends` that.
fn empty_addition(rendition: usize, ends: bool) -> Addition
    ensures { result ≡ spec.empty_addition rendition ends }
{
    Addition {
        rendition,
        size: Size::none(),
        ends,
    }
}
