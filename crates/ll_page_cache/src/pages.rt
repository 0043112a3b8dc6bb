//! The playlists of one rendition at one moment.
ghost use Rattle.std.specs.Prelude.{◌≡◌, ◌<◌, ◌≤◌, IfOk, MatchOption, length};
ghost use Rattle.ll_page_cache.specs.Pages.{Is, page_in};

use ll_item::SkipKind;
use ll_page::{Page, Shown};
use ll_pieces::{Pieces, Rendered};
use std::alloc::{AllocError, Global};
use std::marker::Model;

/// The pages of one rendition at one moment. The text of each form is written once, when it is first asked for; after that its page is shared.
pub struct Pages {
    shown: Shown,
    rendition: usize,
    /// What was rendered for these pages.
    pieces: Pieces,
    full: Option<Page>,
    delta: Option<Page>,
    delta_v2: Option<Page>,
}

/// Crates that drop these prove nothing of what is in them.
impl Drop for Pages {
    fn drop(self) {
        let Pages {
            shown: _shown,
            rendition: _,
            pieces: _pieces,
            full: _full,
            delta: _delta,
            delta_v2: _delta_v2,
        } = self;
    }
}

impl Model for Pages {
    ghost use Rattle.std.specs.Prelude.{◌≡◌, ◌<◌, None, Some, length};
    ghost use Rattle.ll_item.specs.declared.skip_kind.SkipKind.TheVariants.{Yes, V2};
    ghost use Rattle.ll_page_cache.specs.Pages.{PagesOf, Is};

    ghost Value = { PagesOf };

    ghost view = { λ p. record { moment = p.shown; rendition = p.rendition } };

    ghost invariant = { λ p. (p.rendition < length p.shown.renditions)
        × Is (record { moment = p.shown; rendition = p.rendition }) None p.full
        × Is (record { moment = p.shown; rendition = p.rendition }) (Some Yes) p.delta
        × Is (record { moment = p.shown; rendition = p.rendition }) (Some V2) p.delta_v2 };
}

impl Pages {
    /// Returns the pages of `rendition` of the channel `shown`, none of them written yet, or `None` if there is no such rendition.
    pub fn new(alloc: Global, shown: Shown, rendition: usize) -> Option<Pages>
        ensures { MatchOption result (length shown.renditions ≤ rendition)
            (λ p. (rendition < length shown.renditions) × (p ≡ record { moment = shown; rendition = rendition })) }
    {
        if shown.renditions().len() <= rendition {
            return None;
        }
        Some(Pages {
            shown,
            rendition,
            pieces: Pieces::new(alloc),
            full: None,
            delta: None,
            delta_v2: None,
        })
    }

    /// Returns what was rendered for these pages.
    pub fn pieces(&self) -> &Pieces {
        &self.pieces
    }

    /// Returns what was rendered for these pages, for those of a later moment.
    pub fn into_pieces(self) -> Pieces {
        let Pages {
            shown: _shown,
            rendition: _,
            pieces,
            full: _full,
            delta: _delta,
            delta_v2: _delta_v2,
        } = self;
        pieces
    }

    /// Returns the channel at that moment.
    pub fn shown(&self) -> &Shown
        ensures { result.now ≡ self.now.moment }
    {
        &self.shown
    }

    /// Returns the index of the rendition.
    pub fn rendition(&self) -> usize
        ensures { result ≡ self.now.rendition }
    {
        self.rendition
    }

    /// Returns how many items the channel has accepted.
    pub fn count(&self) -> u64
        ensures { result ≡ self.now.moment.count }
    {
        self.shown.count()
    }

    /// Returns the page in this form. It shares the lines of segments that were rendered for these pages, or else `before`.
    pub fn page(
        &mut self,
        alloc: Global,
        form: Option<SkipKind>,
        before: Rendered<'_>,
    ) -> Result<Page, AllocError>
        ensures page { IfOk result (λ p. p ≡ page_in self.old form) }
        ensures unchanged { self.new ≡ self.old }
    {
        let Pages {
            shown,
            rendition,
            pieces,
            full,
            delta,
            delta_v2,
        } = self;
        match form {
            None => shared(alloc, shown, *rendition, pieces, before, form, full),
            Some(SkipKind::Yes) => shared(alloc, shown, *rendition, pieces, before, form, delta),
            Some(SkipKind::V2) => shared(alloc, shown, *rendition, pieces, before, form, delta_v2),
        }
    }
}

/// Returns the page in this form, from `place` if it was made before; `place` holds it afterwards.
fn shared(
    alloc: Global,
    shown: &Shown,
    rendition: usize,
    pieces: &mut Pieces,
    before: Rendered<'_>,
    form: Option<SkipKind>,
    place: &mut Option<Page>,
) -> Result<Page, AllocError>
    requires there { rendition < length shown.now.renditions }
    requires made { Is (record { moment = shown.now; rendition = rendition }) form place.old }
    ensures page { IfOk result (λ p. p ≡ page_in (record { moment = shown.now; rendition = rendition }) form) }
    ensures kept { Is (record { moment = shown.now; rendition = rendition }) form place.new }
{
    if let Some(page) = place {
        return page.again();
    }
    let rendered = Rendered {
        own: Some(&*pieces),
        ..before
    };
    let (page, written) = Page::make_from(alloc, shown, rendition, form, rendered)?.unwrap();
    pieces.renew(written);
    *place = Some(page.again()?);
    Ok(page)
}
