//! Items of a publisher: `test` finds the first rule that refuses one, and `accept` fails only when out of memory.
ghost use Rattle.std.specs.Prelude.{◌≡◌, ◌≢◌, ◌+◌, ◌++◌, ◌∷◌, [], List, IfOk, IfErr, IsErrOf, OnOk, OnErr, MatchResult, None, Some};
ghost use Rattle.ll_book.specs.Releases.{HasHolders};
ghost use Rattle.ll_item.specs.declared.item.Item.{Item};
ghost use Rattle.ll_presentation.specs.Items.{HasTaken};
ghost use Rattle.ll_room.specs.Freed.{with_item};
ghost use Rattle.ll_room.specs.Freed as spec;
ghost use Rattle.ll_room.specs.Full.{refusal_by};
ghost use Rattle.ll_room.specs.RoomValue.{IsSame, Stands, presentation_in, tickets};
ghost use Rattle.ll_room.specs.declared.stamped.Stamp.TheVariants as stamp;
ghost use Rattle.ll_verdict.specs.Events.{Event, Publish};
ghost use Rattle.ll_verdict.specs.Full.{refusal_after};

use crate::room::{EVENT_END, Room};
use crate::stamped::{Stamp, Stamped};
use ll_book::{
    Holders, NextPart, Release, first_release, holders_for, part_of, release_with, second_release,
    takes_any,
};
use ll_item::Item;
use ll_page_cache::Pages;
use ll_verdict::PublishFault;
use std::alloc::AllocError;

impl Room {
    /// Accepts `item` and settles the requests that it releases. Returns how many items the channel has then accepted, or the first rule that refuses
    /// `item`, or `Memory`. All texts are written and all memory is taken before anything changes, and each form of the playlist is written once.
    pub fn publish(&mut self, item: Item) -> Result<Stamped<u64>, PublishFault>
        ensures accepted { (events : List Event) → Stands self.old events → OnOk result
            ((refusal_after self.old.settings events item ≡ None) × Stands self.new (events ++ Publish item ∷ [])) }
        ensures count { IfOk result (λ n. n ≡ record { room = self.old.channel; stamp = stamp.Publish item; value = self.old.count + 1 }) }
        ensures refused { (events : List Event) → Stands self.old events
            → IfErr result (λ f. f ≢ PublishFault.Memory → refusal_after self.old.settings events item ≡ Some f) }
        ensures memory { (events : List Event) → Stands self.old events → IsErrOf result PublishFault.Memory → refusal_after self.old.settings events item ≡ None }
        ensures still_open { tickets self.new ≡ tickets self.old }
        ensures same { IsSame self.old self.new }
        ensures unchanged { OnErr result (self.new ≡ self.old) }
    {
        if let Err(fault) = self.test(&item) {
            return Err(fault);
        }
        match self.accept(item) {
            Ok(accepted) => Ok(accepted),
            Err(AllocError) => Err(PublishFault::Memory),
        }
    }

    /// Returns the first rule that refuses `item`, if one does.
    pub fn test(&self, item: &Item) -> Result<(), PublishFault>
        ensures rule { MatchResult result (λ u. refusal_by self.now item.now ≡ None) (λ f. refusal_by self.now item.now ≡ Some f) }
        ensures not_memory { IfErr result (λ f. f ≢ PublishFault.Memory) }
    {
        self.presentation.test(item)?;
        if self.events >= EVENT_END {
            return Err(PublishFault::RecordFull);
        }
        Ok(())
    }

    /// Accepts an `item` that [`Room::test`] let through, and returns how many items the channel has then accepted. If it fails, nothing changes.
    pub fn accept(&mut self, item: Item) -> Result<Stamped<u64>, AllocError>
        requires { refusal_by self.old item ≡ None }
        ensures accepted { (events : List Event) → Stands self.old events → OnOk result (Stands self.new (events ++ Publish item ∷ [])) }
        ensures count { IfOk result (λ n. n ≡ record { room = self.old.channel; stamp = stamp.Publish item; value = self.old.count + 1 }) }
        ensures still_open { tickets self.new ≡ tickets self.old }
        ensures same { IsSame self.old self.new }
        ensures unchanged { OnErr result (self.new ≡ self.old) }
    {
        let (first, second) = self.releases(&item);
        self.take_in(&item, first, second)?;
        Ok(Stamped::new(
            self.channel,
            Stamp::Publish(item),
            self.presentation.count(),
        ))
    }

    /// Returns the two releases of `item`.
    fn releases(&self, item: &Item) -> (Option<Release>, Option<Release>)
        ensures { result ≡ spec.releases self.now item.now }
    {
        match self.presentation.renditions().get(item.rendition()) {
            Some(kept) => (
                first_release(&kept.window, item),
                second_release(&kept.window, item),
            ),
            None => (None, None),
        }
    }

    /// Accepts `item`, whose releases are `first` and `second`.
    fn take_in(
        &mut self,
        item: &Item,
        first: Option<Release>,
        second: Option<Release>,
    ) -> Result<(), AllocError>
        requires allowed { refusal_by self.old item.now ≡ None }
        requires releases { (first, second) ≡ spec.releases self.old item.now }
        ensures goes_on { OnOk result (HasTaken (presentation_in self.old) (presentation_in self.new) item.now) }
        ensures accepted { OnOk result (self.new ≡ with_item self.old (presentation_in self.new) item.now) }
        ensures unchanged { OnErr result (self.new ≡ self.old) }
    {
        if takes_any(&self.book, first) || takes_any(&self.book, second) {
            return self.accept_and_release(item, first, second);
        }
        self.presentation.accept(item)?;
        self.events += 1;
        Ok(())
    }

    /// Accepts `item` and carries out its releases, `first` and `second`.
    fn accept_and_release(
        &mut self,
        item: &Item,
        first: Option<Release>,
        second: Option<Release>,
    ) -> Result<(), AllocError>
        requires allowed { refusal_by self.old item.now ≡ None }
        requires releases { (first, second) ≡ spec.releases self.old item.now }
        ensures goes_on { OnOk result (HasTaken (presentation_in self.old) (presentation_in self.new) item.now) }
        ensures accepted { OnOk result (self.new ≡ with_item self.old (presentation_in self.new) item.now) }
        ensures unchanged { OnErr result (self.new ≡ self.old) }
    {
        let window = &self.presentation.renditions()[item.rendition()].window;
        let part = part_of(window, item)?;
        let mut pages = self.presentation.prepare(item)?;
        let replies = self.holders_for_both(first, second, &mut pages, &part)?;
        self.presentation.put(item, pages)?;
        release_with(&mut self.book, first, replies.0);
        release_with(&mut self.book, second, replies.1);
        self.events += 1;
        Ok(())
    }

    /// Makes the replies of two releases, each `None` if there is no such release.
    fn holders_for_both(
        &self,
        first: Option<Release>,
        second: Option<Release>,
        pages: &mut Pages,
        part: &Option<NextPart>,
    ) -> Result<(Option<Holders>, Option<Holders>), AllocError>
        ensures first { IfOk result (λ both. HasHolders (record { pages = pages.old; part = part.now }) first self.now.slots both.0) }
        ensures second { IfOk result (λ both. HasHolders (record { pages = pages.old; part = part.now }) second self.now.slots both.1) }
        ensures pages { pages.new ≡ pages.old }
    {
        let before = self.presentation.rendered(pages.rendition());
        let first = holders_for(&self.book, self.alloc, first, pages, before, part)?;
        let second = holders_for(&self.book, self.alloc, second, pages, before, part)?;
        Ok((first, second))
    }
}
