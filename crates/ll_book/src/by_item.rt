//! The releases that an item makes, and how they are carried out.
ghost use Rattle.std.specs.Prelude.{◌≡◌, IfOk};
ghost use Rattle.ll_book.specs.Releases as spec;

use crate::book::Book;
use crate::holders::Holders;
use crate::next_part::NextPart;
use crate::release::Release;
use ll_item::Item;
use ll_page_cache::{Pages, Rendered};
use ll_window::Window;
use std::alloc::{AllocError, Global};

/// Returns the first release of `item`: a part releases the requests that await it or an earlier one, a finish those that await its segment or an
/// earlier one, and the end all of its rendition. `window` is that of the rendition before the item.
pub fn first_release(window: &Window, item: &Item) -> Option<Release>
    ensures { result ≡ spec.first_release window.now item.now }
{
    match item {
        Item::Part(part) => Some(Release::Part(
            part.rendition,
            window.next_number(),
            window.open_parts().len() as u64,
        )),
        Item::Finish { rendition } if !window.open_parts().is_empty() => {
            Some(Release::Segment(*rendition, window.next_number()))
        }
        Item::End { rendition } => Some(Release::All(*rendition)),
        _ => None,
    }
}

/// Returns the second release of `item`: a finishing part also releases the requests that await its segment or an earlier one.
pub fn second_release(window: &Window, item: &Item) -> Option<Release>
    ensures { result ≡ spec.second_release window.now item.now }
{
    match item {
        Item::Part(part) if part.finish => {
            Some(Release::Segment(part.rendition, window.next_number()))
        }
        _ => None,
    }
}

/// Returns the part that `item` is, with another handle of its bytes, or `None` for any other item.
pub fn part_of(window: &Window, item: &Item) -> Result<Option<NextPart>, AllocError>
    ensures { IfOk result (λ part. part ≡ spec.part_of window.now item.now) }
{
    match item {
        Item::Part(part) => Ok(Some(NextPart {
            number: window.next_number(),
            index: window.open_parts().len() as u64,
            media: part.media.again()?,
        })),
        _ => Ok(None),
    }
}

/// Makes the replies of the release `which`, if there is one, as [`Book::holders`] does.
pub fn holders_for(
    book: &Book,
    alloc: Global,
    which: Option<Release>,
    pages: &mut Pages,
    before: Rendered<'_>,
    part: &Option<NextPart>,
) -> Result<Option<Holders>, AllocError>
    ensures holders { IfOk result (λ found. spec.HasHolders (record { pages = pages.old; part = part.now }) which book.now found) }
    ensures pages { pages.new ≡ pages.old }
{
    match which {
        Some(which) => Ok(Some(book.holders(alloc, which, pages, before, part)?)),
        None => Ok(None),
    }
}

/// Carries out the release `which`, if there is one. [`holders_for`] made `holders` for it.
pub fn release_with(book: &mut Book, which: Option<Release>, holders: Option<Holders>)
    requires those { spec.HasThose which holders book.old }
    ensures { book.new ≡ spec.released_with which holders book.old }
{
    let (Some(which), Some(holders)) = (which, holders) else {
        return;
    };
    match which {
        Release::Part(rendition, msn, part) => book.release_part(rendition, msn, part, holders),
        Release::Segment(rendition, msn) => book.release_segment(rendition, msn, holders),
        Release::All(rendition) => book.release_all(rendition, holders),
    };
}

/// Returns whether there is a release `which` and it would take any request.
pub fn takes_any(book: &Book, which: Option<Release>) -> bool
    ensures { result ≡ spec.takes_any which book.now }
{
    match which {
        Some(which) => book.takes_any(which),
        None => false,
    }
}
