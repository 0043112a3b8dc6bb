//! Items of a publisher: `test` finds the first rule that refuses one, and what accepts one fails only when out of memory.
ghost use Rattle.std.specs.Prelude.{◌≡◌, ◌≢◌, ◌<◌, ◌^◌, IfErr, IfOk, MatchResult, None, OnErr, OnOk, Some};
ghost use Rattle.ll_presentation.specs.Items.{HasTaken, IsPrepared, refusal_in};
ghost use Rattle.ll_presentation.specs.PresentationValue.{moment};

use crate::presentation::Presentation;
use ll_item::Item;
use ll_page_cache::Pages;
use ll_store::{arrive, expect};
use ll_verdict::PublishFault;
use std::alloc::AllocError;

impl Presentation {
    /// Returns the first rule that refuses `item`, if one does.
    pub fn test(&self, item: &Item) -> Result<(), PublishFault>
        ensures rule { MatchResult result (λ u. refusal_in self.now item.now ≡ None) (λ f. refusal_in self.now item.now ≡ Some f) }
        ensures not_memory { IfErr result (λ f. f ≢ PublishFault.Memory) }
    {
        match self.shown.renditions().get(item.rendition()) {
            Some(kept) => kept.test(item),
            None => Err(PublishFault::NoRendition),
        }
    }

    /// Accepts an `item` that [`Presentation::test`] let through. The pages from before it are dropped first, so that nothing is copied unless a reply
    /// in flight still holds one. If it fails, nothing changes.
    pub fn accept(&mut self, item: &Item) -> Result<(), AllocError>
        requires allowed { refusal_in self.old item.now ≡ None }
        requires few { self.old.count < 2 ^ 60 }
        ensures accepted { OnOk result (HasTaken self.old self.new item.now) }
        ensures unchanged { OnErr result (self.new ≡ self.old) }
    {
        let arrival = expect(&mut self.stores, self.shown.renditions(), item)?;
        let copy = item.copy()?;
        self.written.drop_pages(self.shown.renditions());
        self.shown.accept(copy)?;
        arrive(&mut self.stores, arrival, self.shown.renditions());
        self.written.drop_pages(self.shown.renditions());
        Ok(())
    }

    /// Returns the pages that the rendition of `item` has once `item` is accepted, and changes nothing.
    pub fn prepare(&self, item: &Item) -> Result<Pages, AllocError>
        requires allowed { refusal_in self.now item.now ≡ None }
        requires few { self.now.count < 2 ^ 60 }
        ensures { IfOk result (λ pages. IsPrepared self.now item.now pages) }
    {
        let mut shown = self.shown.again()?;
        shown.accept(item.copy()?)?;
        Ok(Pages::new(self.alloc, shown, item.rendition()).unwrap())
    }

    /// Accepts `item`, for which [`Presentation::prepare`] has returned `pages`. If it fails, nothing changes.
    pub fn put(&mut self, item: &Item, pages: Pages) -> Result<(), AllocError>
        requires allowed { refusal_in self.old item.now ≡ None }
        requires prepared { IsPrepared self.old item.now pages }
        ensures accepted { OnOk result (HasTaken self.old self.new item.now) }
        ensures shown { OnOk result (moment self.new ≡ pages.moment) }
        ensures unchanged { OnErr result (self.new ≡ self.old) }
    {
        let shown = pages.shown().again()?;
        let pages = vec![in self.alloc; pages]?;
        let arrival = expect(&mut self.stores, self.shown.renditions(), item)?;
        arrive(&mut self.stores, arrival, shown.renditions());
        self.shown = shown;
        self.written.renew(pages, self.shown.renditions());
        Ok(())
    }
}
