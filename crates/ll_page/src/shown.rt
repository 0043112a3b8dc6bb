//! A channel at one moment, which its pages share.
ghost use Rattle.std.specs.Prelude.{◌≡◌, ◌+◌, ◌<◌, ◌≤◌, ◌^◌, IfOk, MatchOption, None, OnErr, OnOk, length, slice_get};
ghost use Rattle.std.specs.Arc.{arc_value};
ghost use Rattle.ll_item.specs.Items.{rendition_of};
ghost use Rattle.ll_page.specs.Page.{seen_of};
ghost use Rattle.ll_pieces.specs.View.{GoOn};
ghost use Rattle.ll_rendition.specs.Refusal.{refusal_at};

use ll_item::Item;
use ll_pieces::View;
use ll_rendition::Rendition;
use ll_settings::Settings;
use std::alloc::{AllocError, Global};
use std::marker::Model;
use std::sync::Arc;

/// A channel at one moment: its settings, what is kept of each of its renditions, and how many items it has accepted. Pages share it.
pub struct Shown {
    kept: Arc<ChannelMoment>,
}

/// The values that are shared.
#[derive(Drop)]
struct ChannelMoment {
    alloc: Global,
    settings: Arc<Settings>,
    renditions: Vec<Rendition>,
    count: u64,
}

impl Model for ChannelMoment {
    ghost use Rattle.std.specs.Arc.{arc_value};
    ghost use Rattle.ll_page.specs.Page.{Moment};

    ghost Value = { Moment };

    ghost view = { λ k. record { settings = arc_value k.settings; renditions = k.renditions.items; count = k.count } };
}

/// Crates that drop a channel prove nothing of what is in it.
impl Drop for Shown {
    fn drop(self) {
        let Shown { kept: _kept } = self;
    }
}

impl Model for Shown {
    ghost use Rattle.std.specs.Arc.{arc_value};
    ghost use Rattle.ll_page.specs.Page.{Moment};

    ghost Value = { Moment };

    ghost view = { λ s. arc_value s.kept };
}

impl Clone for ChannelMoment {
    ghost use Rattle.std.specs.Prelude.{◌≡◌};

    ghost is_clone = { λ k l. l ≡ k };

    fn clone(&self) -> Result<ChannelMoment, AllocError> {
        Ok(ChannelMoment {
            alloc: self.alloc,
            settings: Arc::try_clone(&self.settings)?,
            renditions: Rendition::copy_all(self.alloc, &self.renditions)?,
            count: self.count,
        })
    }
}

impl ChannelMoment {
    /// Adds an item that no rule refuses to its rendition, and counts it.
    fn accept(&mut self, item: Item) -> Result<(), AllocError>
        requires allowed { refusal_at (slice_get self.old.renditions (rendition_of item)) item ≡ None }
        requires few { self.old.count < 2 ^ 60 }
        ensures goes_on { OnOk result (GoOn self.old.renditions self.new.renditions item) }
        ensures many { length self.new.renditions ≡ length self.old.renditions }
        ensures accepted { OnOk result (self.new ≡ record self.old { renditions = self.new.renditions; count = self.old.count + 1 }) }
        ensures unchanged { OnErr result (self.new ≡ self.old) }
    {
        accept_at(&mut self.renditions, item)?;
        self.count += 1;
        Ok(())
    }
}

impl Shown {
    /// Returns a channel with `settings`, which it shares, and `renditions`, which has accepted `count` items.
    pub fn new(
        alloc: Global,
        settings: &Arc<Settings>,
        renditions: Vec<Rendition>,
        count: u64,
    ) -> Result<Shown, AllocError>
        ensures { IfOk result (λ s. s ≡ record { settings = arc_value settings.now; renditions = renditions.items; count = count }) }
    {
        let kept = ChannelMoment {
            alloc,
            settings: Arc::try_clone(settings)?,
            renditions,
            count,
        };
        Ok(Shown {
            kept: Arc::new(alloc, kept)?,
        })
    }

    /// Returns a channel with copies of `settings` and `renditions`, which has accepted `count` items.
    pub fn of(
        alloc: Global,
        settings: &Settings,
        renditions: &[Rendition],
        count: u64,
    ) -> Result<Shown, AllocError>
        ensures { IfOk result (λ s. s ≡ record { settings = settings.now; renditions = renditions.now; count = count }) }
    {
        let settings = Arc::new(alloc, settings.copy(alloc)?)?;
        Shown::new(
            alloc,
            &settings,
            Rendition::copy_all(alloc, renditions)?,
            count,
        )
    }

    /// Returns the settings of the channel.
    pub fn settings(&self) -> &Settings
        ensures { result.now ≡ self.now.settings }
    {
        &self.kept.settings
    }

    /// Returns what is kept of each rendition, in the order of the settings.
    pub fn renditions(&self) -> &[Rendition]
        ensures { result.now ≡ self.now.renditions }
    {
        &self.kept.renditions
    }

    /// Returns the number of items that the channel has accepted.
    pub fn count(&self) -> u64
        ensures { result ≡ self.now.count }
    {
        self.kept.count
    }

    /// Returns the view of the rendition with the index `rendition`, if there is one.
    pub fn view(&self, rendition: usize) -> Option<View<'_>>
        ensures { MatchOption result (length self.now.renditions ≤ rendition)
            (λ v. (rendition < length self.now.renditions) × (v ≡ seen_of self.now rendition)) }
    {
        let kept = &*self.kept;
        View::new(&kept.settings, &kept.renditions, rendition, kept.count)
    }

    /// Returns another handle of the same channel.
    pub fn again(&self) -> Result<Shown, AllocError>
        ensures { IfOk result (λ s. s ≡ self.now) }
    {
        Ok(Shown {
            kept: Arc::try_clone(&self.kept)?,
        })
    }

    /// Adds an item that no rule refuses. If others share the channel, it is copied first, and theirs stays as it was. If memory runs out,
    /// nothing changes.
    pub fn accept(&mut self, item: Item) -> Result<(), AllocError>
        requires allowed { refusal_at (slice_get self.old.renditions (rendition_of item)) item ≡ None }
        requires few { self.old.count < 2 ^ 60 }
        ensures goes_on { OnOk result (GoOn self.old.renditions self.new.renditions item) }
        ensures many { length self.new.renditions ≡ length self.old.renditions }
        ensures accepted { OnOk result (self.new ≡ record self.old { renditions = self.new.renditions; count = self.old.count + 1 }) }
        ensures unchanged { OnErr result (self.new ≡ self.old) }
    {
        Arc::make_mut(&mut self.kept)?.accept(item)
    }
}

/// Adds an item that no rule refuses to its rendition.
fn accept_at(renditions: &mut Vec<Rendition>, item: Item) -> Result<(), AllocError>
    requires { refusal_at (slice_get renditions.old.items (rendition_of item)) item ≡ None }
    ensures goes_on { OnOk result (GoOn renditions.old.items renditions.new.items item) }
    ensures many { length renditions.new.items ≡ length renditions.old.items }
    ensures unchanged { OnErr result (renditions.new.items ≡ renditions.old.items) }
{
    match renditions.get_mut(item.rendition()) {
        Some(kept) => kept.accept(item),
        None => Ok(()),
    }
}
