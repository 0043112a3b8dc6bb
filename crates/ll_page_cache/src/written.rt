//! The playlists of a channel that were written since its last item, and what is rendered for its next ones.
ghost use Rattle.std.specs.Prelude.{◌≡◌, ◌<◌, [], IfOk, length, position};
ghost use Rattle.ll_page.specs.Page.{seen_of};
ghost use Rattle.ll_page_cache.specs.Stored.{AreFew};
ghost use Rattle.ll_page_cache.specs.Written.{AreWritten, is_of};

use crate::pages::Pages;
use ll_item::SkipKind;
use ll_page::{Page, Rendition, Shown};
use ll_pieces::{Pieces, Rendered};
use std::alloc::{AllocError, Global};
use std::marker::Model;

/// What was written of a channel since its last item, and what was rendered before it. Each form of a rendition's playlist is written once, when it
/// is first asked for; after that its page is shared.
#[derive(Drop)]
pub struct Written {
    /// The pages of each rendition of which a playlist was asked for.
    pages: Vec<Pages>,
    /// What was rendered of the segments of each rendition, for its next playlist.
    pieces: Vec<Pieces>,
}

impl Model for Written {
    ghost use Rattle.ll_page_cache.specs.Written.{WrittenOf};

    ghost Value = { WrittenOf };

    ghost view = { λ w. record { pages = w.pages.items; pieces = w.pieces.items } };
}

impl Written {
    /// Returns the value for a channel with these renditions, of which nothing is written.
    pub fn new(alloc: Global, renditions: &[Rendition]) -> Result<Written, AllocError>
        ensures pages { IfOk result (λ w. w.pages ≡ []) }
        ensures pieces { IfOk result (λ w. AreFew w.pieces renditions.now) }
    {
        Ok(Written {
            pages: Vec::new(alloc),
            pieces: no_pieces(alloc, renditions)?,
        })
    }

    /// Returns the page of `rendition` in `form`, when the channel is as `shown`. What was rendered of its segments before, if anything, is shared.
    pub fn page(
        &mut self,
        alloc: Global,
        shown: &Shown,
        rendition: usize,
        form: Option<SkipKind>,
    ) -> Result<Page, AllocError>
        requires there { rendition < length shown.now.renditions }
        requires current { AreWritten shown.now self.old.pages }
        ensures page { IfOk result (λ p. p ≡ record { seen = seen_of shown.now rendition; form = form }) }
        ensures current { AreWritten shown.now self.new.pages }
        ensures pieces { self.new.pieces ≡ self.old.pieces }
    {
        let found = place_of(&self.pages, rendition);
        let before = Rendered {
            earlier: self.pieces.get(rendition),
            ..Rendered::none()
        };
        if let Some(place) = found {
            return self.pages[place].page(alloc, form, before);
        }
        let (pages, page) = first_page(alloc, shown, rendition, form, before)?;
        self.pages.push(pages)?;
        Ok(page)
    }

    /// Returns what was rendered of the segments of `rendition`, for its pages of the next moment.
    pub fn rendered(&self, rendition: usize) -> Rendered<'_> {
        let last = match place_of(&self.pages, rendition) {
            Some(place) => Some(self.pages[place].pieces()),
            None => None,
        };
        Rendered {
            own: None,
            last,
            earlier: self.pieces.get(rendition),
        }
    }

    /// Replaces all pages by `pages`, those of a later moment. What the old ones had rendered of segments that `renditions` still show is kept.
    pub fn renew(&mut self, pages: Vec<Pages>, renditions: &[Rendition])
        requires { length self.old.pieces ≡ length renditions.now }
        ensures pages { self.new.pages ≡ pages.items }
        ensures pieces { AreFew self.new.pieces renditions.now }
    {
        self.drop_pages(renditions);
        self.pages = pages;
    }

    /// Drops all pages. What they had rendered of segments that `renditions` still show is kept.
    pub fn drop_pages(&mut self, renditions: &[Rendition])
        requires { length self.old.pieces ≡ length renditions.now }
        ensures pages { self.new.pages ≡ [] }
        ensures pieces { AreFew self.new.pieces renditions.now }
    {
        leave(&mut self.pages, &mut self.pieces);
        trim(&mut self.pieces, renditions);
    }
}

/// Makes the pages of a rendition that has none, and of these the page in `form`.
fn first_page(
    alloc: Global,
    shown: &Shown,
    rendition: usize,
    form: Option<SkipKind>,
    before: Rendered<'_>,
) -> Result<(Pages, Page), AllocError>
    requires { rendition < length shown.now.renditions }
    ensures pages { IfOk result (λ made. made.0 ≡ record { moment = shown.now; rendition = rendition }) }
    ensures page { IfOk result (λ made. made.1 ≡ record { seen = seen_of shown.now rendition; form = form }) }
{
    let mut pages = Pages::new(alloc, shown.again()?, rendition).unwrap();
    let page = pages.page(alloc, form, before)?;
    Ok((pages, page))
}

/// Drops all pages, and keeps what they had rendered, for the pages of a later moment.
fn leave(pages: &mut Vec<Pages>, pieces: &mut Vec<Pieces>)
    ensures pages { pages.new.items ≡ [] }
    ensures pieces { length pieces.new.items ≡ length pieces.old.items }
{
    while let Some(last) = pages.pop() {
        if let Some(place) = pieces.get_mut(last.rendition()) {
            place.renew(last.into_pieces());
        }
    }
}

/// Drops what is rendered of segments that `renditions` no longer show.
fn trim(pieces: &mut Vec<Pieces>, renditions: &[Rendition])
    requires { length pieces.old.items ≡ length renditions.now }
    ensures { AreFew pieces.new.items renditions.now }
{
    for place in 0..renditions.len() {
        pieces[place].keep_last(renditions[place].window.segment_count());
    }
}

/// Returns the place of a rendition's pages in `pages`.
fn place_of(pages: &[Pages], rendition: usize) -> Option<usize>
    ensures { result ≡ position (is_of rendition) pages.now }
{
    pages.iter().position(|one| one.rendition() == rendition)
}

/// Returns a place for what is rendered of each rendition, with nothing in it yet.
fn no_pieces(alloc: Global, renditions: &[Rendition]) -> Result<Vec<Pieces>, AllocError>
    ensures { IfOk result (λ pieces. AreFew pieces.items renditions.now) }
{
    let mut pieces = Vec::with_capacity(alloc, renditions.len())?;
    for _ in 0..renditions.len() {
        pieces.push(Pieces::new(alloc))?;
    }
    Ok(pieces)
}
