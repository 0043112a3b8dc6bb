//! Views: what a playlist is written of.
ghost use Rattle.std.specs.Prelude.{◌≡◌, ◌<◌, ◌≤◌, MatchOption, length};
ghost use Rattle.ll_pieces.specs.View.{asked, update_in};

use ll_item::SkipKind;
use ll_range::Ranges;
use ll_rendition::Rendition;
use ll_settings::Settings;
use ll_window::Window;
use std::marker::Model;

/// What a playlist is written of: a channel's settings, what is kept of each of its renditions, the rendition that is asked
/// for, and how many items the channel has accepted.
#[derive(Drop)]
pub struct View<'a> {
    settings: &'a Settings,
    renditions: &'a [Rendition],
    rendition: usize,
    count: u64,
}

impl<'a> Model for View<'a> {
    ghost use Rattle.std.specs.Prelude.{◌<◌, length};
    ghost use Rattle.ll_pieces.specs.View.{Seen};

    ghost Value = { Seen };

    ghost view = { λ v. record { settings = v.settings.now; renditions = v.renditions.now; rendition = v.rendition; count = v.count } };

    ghost invariant = { λ v. v.rendition < length v.renditions.now };
}

impl<'a> View<'a> {
    /// Returns the view of the rendition with the index `rendition`, or `None` if there is none.
    pub fn new(
        settings: &'a Settings,
        renditions: &'a [Rendition],
        rendition: usize,
        count: u64,
    ) -> Option<View<'a>>
        ensures { MatchOption result (length renditions.now ≤ rendition)
            (λ v. (rendition < length renditions.now)
            × (v ≡ record { settings = settings.now; renditions = renditions.now; rendition = rendition; count = count })) }
    {
        if renditions.len() <= rendition {
            return None;
        }
        Some(View {
            settings,
            renditions,
            rendition,
            count,
        })
    }

    /// Returns the settings of the channel.
    pub fn settings(&self) -> &'a Settings
        ensures { result.now ≡ self.now.settings }
    {
        self.settings
    }

    /// Returns the window of the rendition that is asked for.
    pub fn window(&self) -> &'a Window
        ensures { result.now ≡ (asked self.now).window }
    {
        &self.asked().window
    }

    /// Returns the date ranges of the rendition that is asked for.
    pub fn ranges(&self) -> &'a Ranges
        ensures { result.now ≡ (asked self.now).ranges }
    {
        &self.asked().ranges
    }

    /// Returns what is kept of each rendition, in the order of the settings.
    pub fn renditions(&self) -> &'a [Rendition]
        ensures { result.now ≡ self.now.renditions }
    {
        self.renditions
    }

    /// Returns the index of the rendition that is asked for.
    pub fn rendition(&self) -> usize
        ensures { result ≡ self.now.rendition }
    {
        self.rendition
    }

    /// Returns how many items the channel has accepted, of all renditions.
    pub fn count(&self) -> u64
        ensures { result ≡ self.now.count }
    {
        self.count
    }

    /// Returns the kind of delta update that the playlist is if `form` is asked for, or `None` if it is a full playlist, also because no segment is
    /// skipped.
    pub fn update(&self, form: Option<SkipKind>) -> Option<SkipKind>
        ensures { result ≡ update_in (record { seen = self.now; form = form }) }
    {
        let kind = form?;
        if self.window().skip_count() == 0 {
            return None;
        }
        Some(kind)
    }

    /// Returns what is kept of the rendition that is asked for.
    #[tactic(auto, using(crate::proofs::PlaceLemmas::at_place_is))]
    fn asked(&self) -> &'a Rendition
        ensures { result.now ≡ asked self.now }
    {
        &self.renditions[self.rendition]
    }
}
