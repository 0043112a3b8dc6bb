//! Pages: playlists that were written and are shared.
ghost use Rattle.std.specs.Prelude.{◌≡◌, ◌<◌, ◌≤◌, IfOk, MatchOption, length};
ghost use Rattle.std.specs.Arc.{arc_str_bytes};
ghost use Rattle.ll_page.specs.Page.{page_text, seen_of};
ghost use Rattle.ll_pieces.specs.View.{update_in};

use crate::playlist::written;
use crate::shown::Shown;
use ll_item::SkipKind;
use ll_pieces::{Pieces, Rendered, View};
use std::alloc::{AllocError, Global};
use std::marker::Model;
use std::sync::ArcStr;

/// The text of a playlist and the view that it was written of, both shared. By its invariant the text is always that of the view.
pub struct Page {
    text: ArcStr,
    shown: Shown,
    rendition: usize,
    form: Option<SkipKind>,
}

/// Crates that drop a page prove nothing of what is in it.
impl Drop for Page {
    fn drop(self) {
        let Page {
            text: _text,
            shown: _shown,
            rendition: _,
            form: _,
        } = self;
    }
}

impl Model for Page {
    ghost use Rattle.std.specs.Prelude.{◌≡◌, ◌<◌, length};
    ghost use Rattle.std.specs.Arc.{arc_str_bytes};
    ghost use Rattle.ll_pieces.specs.View.{Paged};
    ghost use Rattle.ll_page.specs.Page.{page_text, seen_of};

    ghost Value = { Paged };

    ghost view = { λ p. record { seen = seen_of p.shown p.rendition; form = p.form } };

    ghost invariant = { λ p. (p.rendition < length p.shown.renditions)
        × (arc_str_bytes p.text ≡ page_text (record { seen = seen_of p.shown p.rendition; form = p.form })) };
}

impl Page {
    /// Returns the page of the rendition with the index `rendition`, or `None` if there is none: the delta update of kind `form`, or for `None` the full
    /// playlist. The page shares `shown`.
    pub fn make(
        alloc: Global,
        shown: &Shown,
        rendition: usize,
        form: Option<SkipKind>,
    ) -> Result<Option<Page>, AllocError>
        ensures { IfOk result (λ found. MatchOption found (length shown.now.renditions ≤ rendition)
            (λ p. (rendition < length shown.now.renditions) × (p ≡ record { seen = seen_of shown.now rendition; form = form }))) }
    {
        match Page::make_from(alloc, shown, rendition, form, Rendered::none())? {
            Some((page, _)) => Ok(Some(page)),
            None => Ok(None),
        }
    }

    /// Returns the same page as `make`, and the pieces that it is joined from, which share those of `rendered`: no line of a segment that they
    /// have is written again.
    pub fn make_from(
        alloc: Global,
        shown: &Shown,
        rendition: usize,
        form: Option<SkipKind>,
        rendered: Rendered<'_>,
    ) -> Result<Option<(Page, Pieces)>, AllocError>
        ensures { IfOk result (λ found. MatchOption found (length shown.now.renditions ≤ rendition)
            (λ made. (rendition < length shown.now.renditions) × (made.0 ≡ record { seen = seen_of shown.now rendition; form = form }))) }
    {
        let Some(view) = shown.view(rendition) else {
            return Ok(None);
        };
        let (text, pieces) = written(alloc, &view, form, rendered)?;
        let page = Page {
            text: ArcStr::from_string(text)?,
            shown: shown.again()?,
            rendition,
            form,
        };
        Ok(Some((page, pieces)))
    }

    /// Returns the text, as `full` or `delta` writes it of the view.
    pub fn text(&self) -> &str
        ensures { result.now ≡ page_text self.now }
    {
        &self.text
    }

    /// Returns another handle of the text alone, which doesn't keep the view alive.
    pub fn shared_text(&self) -> Result<ArcStr, AllocError>
        ensures { IfOk result (λ t. arc_str_bytes t ≡ page_text self.now) }
    {
        self.text.clone()
    }

    /// Returns how many items the channel had accepted at the moment of the page.
    pub fn number(&self) -> u64
        ensures { result ≡ self.now.seen.count }
    {
        self.view().count()
    }

    /// Returns the index of the rendition.
    pub fn rendition(&self) -> usize
        ensures { result ≡ self.now.seen.rendition }
    {
        self.rendition
    }

    /// Returns the kind of delta update that was asked for, or `None` for the full playlist.
    pub fn form(&self) -> Option<SkipKind>
        ensures { result ≡ self.now.form }
    {
        self.form
    }

    /// Returns the kind of delta update that the text is, or `None` if it is a full playlist, also because an update was asked for and no segment
    /// is skipped.
    pub fn update(&self) -> Option<SkipKind>
        ensures { result ≡ update_in self.now }
    {
        self.view().update(self.form)
    }

    /// Returns the view whose playlist the page is.
    pub fn view(&self) -> View<'_>
        ensures { result ≡ self.now.seen }
    {
        self.shown.view(self.rendition).unwrap()
    }

    /// Returns another handle of the same page.
    pub fn again(&self) -> Result<Page, AllocError>
        ensures { IfOk result (λ p. p ≡ self.now) }
    {
        Ok(Page {
            text: self.text.clone()?,
            shown: self.shown.again()?,
            rendition: self.rendition,
            form: self.form,
        })
    }
}
