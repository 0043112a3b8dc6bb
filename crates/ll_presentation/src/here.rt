//! What a request would find if it were made now, and the reply that it would get.
ghost use Rattle.std.specs.Prelude.{◌≡◌, ◌<◌, IfOk, IfSome, List, MatchOption, None, Some, is_some, length, option_map, true};
ghost use Rattle.ll_item.specs.declared.item.Item.{Item};
ghost use Rattle.ll_presentation.specs.Here.{media_here, page_now, reply_here};
ghost use Rattle.ll_presentation.specs.PresentationValue.{Shows};
ghost use Rattle.ll_verdict.specs.Outcome.{outcome_of};
ghost use Rattle.ll_verdict.specs.Verdict.{piece_of, wanted_of};
ghost use Rattle.ll_verdict.specs.Verdict as verdict;
ghost use Rattle.ll_pieces.specs.View.{update_in};
ghost use Rattle.ll_window.specs.Segments.{own};

use crate::presentation::Presentation;
use ll_directive::Want;
use ll_item::{SkipKind, What};
use ll_page::Page;
use ll_store::{Found, find_at};
use ll_verdict::{MediaReply, Outcome, Reply, Wanted, is_far, is_hinted, is_there};
use std::alloc::AllocError;

impl Presentation {
    /// Returns what `want` asks of its rendition, or `None` if the channel has none of that name.
    pub fn wanted(&self, want: &Want) -> Option<Wanted>
        ensures value { result ≡ wanted_of self.now.settings want.now }
        ensures within { IfSome result (λ a. a.rendition < length self.now.renditions) }
    {
        let rendition = self.shown.settings().rendition(want.rendition())?;
        Some(Wanted {
            rendition,
            what: want.what(),
            awaited: want.awaited(),
            form: want.skip(),
        })
    }

    /// Returns whether what a request awaits is there, or its rendition has ended.
    pub fn is_there(&self, wanted: &Wanted) -> bool
        requires { wanted.now.rendition < length self.now.renditions }
        ensures { (items : List Item) → Shows self.now items → result ≡ verdict.is_there self.now.settings items wanted.now }
    {
        is_there(
            &self.shown.renditions()[wanted.rendition].window,
            wanted.awaited,
        )
    }

    /// Returns whether what a request awaits is too far ahead to be waited for.
    pub fn is_far(&self, wanted: &Wanted) -> bool
        requires { wanted.now.rendition < length self.now.renditions }
        ensures { (items : List Item) → Shows self.now items
            → result ≡ verdict.far self.now.settings (own wanted.now.rendition items) wanted.now.awaited }
    {
        is_far(
            &self.shown.renditions()[wanted.rendition].window,
            wanted.awaited,
        )
    }

    /// Returns whether what a request awaits is the next part of its rendition.
    pub fn is_hinted(&self, wanted: &Wanted) -> bool
        requires { wanted.now.rendition < length self.now.renditions }
        ensures { (items : List Item) → Shows self.now items
            → result ≡ verdict.is_hinted self.now.settings (own wanted.now.rendition items) wanted.now.awaited }
    {
        is_hinted(
            &self.shown.renditions()[wanted.rendition].window,
            wanted.awaited,
        )
    }

    /// Returns whether the requested media is there.
    pub fn has_media(&self, wanted: &Wanted) -> bool
        ensures { result ≡ is_some (media_here self.now wanted.now) }
    {
        self.media(wanted).is_some()
    }

    /// Returns the outcome of a reply with the requested playlist, delta update or media, or `None` if the media isn't there.
    pub fn outcome(&self, wanted: &Wanted) -> Option<Outcome>
        requires { wanted.now.rendition < length self.now.renditions }
        ensures { result ≡ option_map outcome_of (reply_here self.now wanted.now) }
    {
        match wanted.what {
            What::Playlist => Some(Outcome::Text(self.count(), self.update(wanted))),
            _ => Some(Outcome::Media(self.count(), self.media(wanted)?.len())),
        }
    }

    /// Returns the requested playlist, delta update or media as it is now.
    pub fn reply(&mut self, wanted: &Wanted) -> Result<Reply, AllocError>
        requires within { wanted.now.rendition < length self.old.renditions }
        requires here { is_some (reply_here self.old wanted.now) ≡ true }
        ensures reply { IfOk result (λ reply. reply_here self.old wanted.now ≡ Some reply) }
        ensures unchanged { self.new ≡ self.old }
    {
        match wanted.what {
            What::Playlist => Ok(Reply::Text(self.page(wanted)?)),
            _ => Ok(Reply::Media(self.piece(wanted)?)),
        }
    }

    /// Returns the requested media, or `None` if it isn't there.
    fn media(&self, wanted: &Wanted) -> Option<Found<'_>>
        ensures { MatchOption result (media_here self.now wanted.now ≡ None) (λ found. media_here self.now wanted.now ≡ Some found) }
    {
        find_at(
            self.shown.renditions(),
            &self.stores,
            wanted.rendition,
            wanted.what,
        )
    }

    /// Returns the requested media as it is now, shared.
    fn piece(&self, wanted: &Wanted) -> Result<MediaReply, AllocError>
        requires { is_some (media_here self.now wanted.now) ≡ true }
        ensures { IfOk result (λ piece. option_map (piece_of self.now.count wanted.now) (media_here self.now wanted.now) ≡ Some piece) }
    {
        // Serves the proof alone.
        let _ = &self.shown;
        let Some(found) = self.media(wanted) else {
            unreachable!();
        };
        Ok(MediaReply {
            bytes: found.share(self.alloc)?,
            number: self.shown.count(),
            rendition: wanted.rendition,
            what: wanted.what,
        })
    }

    /// Returns which delta update the requested playlist is now, or `None` if it is a full one.
    fn update(&self, wanted: &Wanted) -> Option<SkipKind>
        requires { wanted.now.rendition < length self.now.renditions }
        ensures { result ≡ update_in (page_now self.now wanted.now) }
    {
        self.shown.view(wanted.rendition)?.update(wanted.form)
    }

    /// Returns the playlist or delta update as it is now. It is kept until the next item, and shared by all who ask for it until then.
    fn page(&mut self, wanted: &Wanted) -> Result<Page, AllocError>
        requires { wanted.now.rendition < length self.old.renditions }
        ensures page { IfOk result (λ p. p ≡ page_now self.old wanted.now) }
        ensures unchanged { self.new ≡ self.old }
    {
        let (rendition, form) = (wanted.rendition, wanted.form);
        self.written.page(self.alloc, &self.shown, rendition, form)
    }
}
