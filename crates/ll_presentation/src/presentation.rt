//! What is kept of a channel's items, and what can be read of it.
ghost use Rattle.std.specs.Prelude.{◌≡◌, ◌<◌, ◌≤◌, [], IfOk, List, MatchOption, length};
ghost use Rattle.std.specs.Arc.{arc_value};
ghost use Rattle.ll_item.specs.declared.item.Item.{Item};
ghost use Rattle.ll_pieces.specs.View as view;
ghost use Rattle.ll_presentation.specs.PresentationValue.{Shows, presentation_of};
ghost use Rattle.ll_verdict.specs.Standing.{standing};

use ll_page::{Rendition, Shown};
use ll_page_cache::{Rendered, Written};
use ll_range::Ranges;
use ll_settings::Settings;
use ll_store::{Store, new_stores};
use ll_verdict::Standing;
use ll_window::Window;
use std::alloc::{AllocError, Global};
use std::marker::Model;
use std::sync::Arc;

/// What is kept of a channel's items: for each rendition, what playlists still show, and its bytes for players.
pub struct Presentation {
    pub(crate) alloc: Global,
    /// The channel as it is now, shared with its pages.
    pub(crate) shown: Shown,
    /// The bytes that each rendition has for players. Pages hold none of them.
    pub(crate) stores: Vec<Store>,
    pub(crate) written: Written,
}

/// Crates that drop a presentation prove nothing of what is in it.
impl Drop for Presentation {
    fn drop(self) {
        let Presentation {
            alloc: _,
            shown: _shown,
            stores: _stores,
            written: _written,
        } = self;
    }
}

impl Model for Presentation {
    ghost use Rattle.ll_presentation.specs.Current.{IsCurrent};
    ghost use Rattle.ll_presentation.specs.PresentationValue.{PresentationValue};
    ghost use Rattle.ll_store.specs.Stores.{all_kept};

    ghost Value = { PresentationValue };

    ghost view = { λ p. record {
      settings = p.shown.settings;
      renditions = p.shown.renditions;
      stores = all_kept p.stores.items;
      count = p.shown.count;
    } };

    ghost invariant = { λ p. IsCurrent (record {
      settings = p.shown.settings;
      renditions = p.shown.renditions;
      stores = all_kept p.stores.items;
      count = p.shown.count;
    }) p.written };
}

impl Presentation {
    /// Returns what is kept of a channel of `settings` without items.
    pub fn new(alloc: Global, settings: Settings) -> Result<Presentation, AllocError>
        ensures { IfOk result (λ p. p ≡ presentation_of settings []) }
    {
        let settings = Arc::new(alloc, settings)?;
        let renditions = no_items(alloc, &settings)?;
        let written = Written::new(alloc, &renditions)?;
        let stores = new_stores(alloc, &settings)?;
        Ok(Presentation {
            alloc,
            shown: Shown::new(alloc, &settings, renditions, 0)?,
            stores,
            written,
        })
    }

    /// Returns the settings of the channel.
    pub fn settings(&self) -> &Settings
        ensures { result.now ≡ self.now.settings }
    {
        self.shown.settings()
    }

    /// Returns how many items the channel has accepted.
    pub fn count(&self) -> u64
        ensures { result ≡ self.now.count }
    {
        self.shown.count()
    }

    /// Returns what is kept of each rendition, in the order of the settings.
    pub fn renditions(&self) -> &[Rendition]
        ensures { result.now ≡ self.now.renditions }
    {
        self.shown.renditions()
    }

    /// Returns where the rendition of index `rendition` stands, or `None` if the channel has no such rendition.
    pub fn standing(&self, rendition: usize) -> Option<Standing>
        ensures { (items : List Item) → Shows self.now items
            → MatchOption result (length self.now.settings.renditions ≤ rendition)
            (λ s. (rendition < length self.now.settings.renditions) × (s ≡ standing self.now.settings items rendition)) }
    {
        let kept = self.shown.renditions().get(rendition)?;
        Some(Standing::of(self.shown.count(), kept))
    }

    /// Returns what was rendered of the segments of `rendition`, for its pages of the next moment.
    pub fn rendered(&self, rendition: usize) -> Rendered<'_> {
        self.written.rendered(rendition)
    }
}

/// Returns what is kept of each rendition of a channel without items, in the order of `settings`.
fn no_items(alloc: Global, settings: &Arc<Settings>) -> Result<Vec<Rendition>, AllocError>
    ensures { IfOk result (λ kept. kept.items ≡ view.renditions (arc_value settings.now) []) }
{
    let names = settings.renditions();
    let mut renditions = Vec::with_capacity(alloc, names.len())?;
    for name in names {
        renditions.push(Rendition {
            window: Window::of(alloc, Arc::try_clone(settings)?),
            ranges: Ranges::new(alloc, settings),
        })?;
    }
    Ok(renditions)
}
