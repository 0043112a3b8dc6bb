//! What is kept of one rendition. Its next item is added in two steps: a test by the rules, and a step that fails only if memory runs out.
ghost use Rattle.std.specs.Prelude.{◌≡◌, ◌≢◌, ◌++◌, ◌∷◌, [], IfErr, IfOk, List, true, false, MatchResult, OnOk, OnErr, None, Some};
ghost use Rattle.ll_item.specs.Items.{is_about_ranges};
ghost use Rattle.ll_settings.specs.Settings.{Configuration};
ghost use Rattle.ll_item.specs.declared.item.Item.{Item};
ghost use Rattle.ll_range.specs.Announced as range;
ghost use Rattle.ll_rendition.specs.Kept.{kept};
ghost use Rattle.ll_rendition.specs.Refusal.{of_push, of_range, refusal_of};

use crate::fault::PublishFault;
use ll_item::Item;
use ll_range::{RangeFault, Ranges};
use ll_window::{Window, WindowFault};
use std::alloc::{AllocError, Global};

/// What is kept of one rendition.
pub struct Rendition {
    /// The segments and parts.
    pub window: Window,
    /// The date ranges.
    pub ranges: Ranges,
}

impl Drop for Rendition {
    fn drop(self) {
        let Rendition {
            window: _window,
            ranges: _ranges,
        } = self;
    }
}

impl Rendition {
    /// Copies the rendition.
    pub fn copy(&self) -> Result<Rendition, AllocError>
        ensures { IfOk result (λ r. r ≡ self.now) }
    {
        Ok(Rendition {
            window: self.window.copy()?,
            ranges: self.ranges.copy()?,
        })
    }

    /// Copies `renditions`, in their order.
    pub fn copy_all(alloc: Global, renditions: &[Rendition]) -> Result<Vec<Rendition>, AllocError>
        ensures { IfOk result (λ copies. copies.items ≡ renditions.now) }
    {
        let mut copies = Vec::with_capacity(alloc, renditions.len())?;
        for rendition in renditions {
            copies.push(rendition.copy()?)?;
        }
        Ok(copies)
    }

    /// Returns the first rule that refuses `item` as the next one. Which rendition `item` names isn't looked at.
    pub fn test(&self, item: &Item) -> Result<(), PublishFault>
        ensures rule { MatchResult result (λ u. refusal_of self.now item.now ≡ None) (λ f. refusal_of self.now item.now ≡ Some f) }
        ensures not_memory { IfErr result (λ f. f ≢ PublishFault.Memory) }
    {
        if let Err(fault) = self.window.test(item) {
            return Err(push_fault(fault));
        }
        match test_ranges(self.window.end_time(), &self.ranges, item) {
            Ok(()) => Ok(()),
            Err(fault) => Err(range_fault(fault)),
        }
    }

    /// Adds an item that [`Rendition::test`] lets through. If memory runs out, nothing changes.
    pub fn accept(&mut self, item: Item) -> Result<(), AllocError>
        requires { refusal_of self.old item ≡ None }
        ensures accepted { (c : Configuration) (before : List Item) → self.old ≡ kept c before → OnOk result (self.new ≡ kept c (before ++ item ∷ [])) }
        ensures unchanged { OnErr result (self.new ≡ self.old) }
    {
        if item.is_about_ranges() {
            self.accept_range(&item)
        } else {
            self.accept_in_window(item)
        }
    }

    /// Adds or removes a date range. Any other item changes nothing here.
    fn accept_range(&mut self, item: &Item) -> Result<(), AllocError>
        requires { refusal_of self.old item.now ≡ None }
        ensures accepted { (c : Configuration) (before : List Item) → self.old ≡ kept c before → is_about_ranges item.now ≡ true
            → OnOk result (self.new ≡ kept c (before ++ item.now ∷ [])) }
        ensures unchanged { OnErr result (self.new ≡ self.old) }
    {
        let end = self.window.end_time();
        match item {
            Item::Range { id, attributes, .. } => self.ranges.list(end, id.as_str(), attributes),
            Item::Unrange { id, .. } => self.ranges.unlist(end, id.as_str()),
            Item::Part(_)
            | Item::Init { .. }
            | Item::Finish { .. }
            | Item::Break { .. }
            | Item::End { .. } => Ok(()),
        }
    }

    /// Adds an item that neither adds nor removes a date range.
    fn accept_in_window(&mut self, item: Item) -> Result<(), AllocError>
        requires { refusal_of self.old item ≡ None }
        ensures accepted { (c : Configuration) (before : List Item) → self.old ≡ kept c before → is_about_ranges item ≡ false
            → OnOk result (self.new ≡ kept c (before ++ item ∷ [])) }
        ensures unchanged { OnErr result (self.new ≡ self.old) }
    {
        self.window.accept(item)?;
        self.ranges.expire(self.window.end_time());
        Ok(())
    }
}

/// Returns the first rule of date ranges that refuses `item` when all parts of the rendition last `end` microseconds.
fn test_ranges(end: u64, ranges: &Ranges, item: &Item) -> Result<(), RangeFault>
    ensures { MatchResult result (λ u. range.refusal_after end ranges.now item.now ≡ None) (λ f. range.refusal_after end ranges.now item.now ≡ Some f) }
{
    match item {
        Item::Range { id, attributes, .. } => ranges.test_add(end, id.as_str(), attributes),
        Item::Unrange { id, .. } => ranges.test_remove(id.as_str()),
        Item::Part(_)
        | Item::Init { .. }
        | Item::Finish { .. }
        | Item::Break { .. }
        | Item::End { .. } => Ok(()),
    }
}

/// Converts the fault of a window to that of a channel.
fn push_fault(fault: WindowFault) -> PublishFault
    ensures name { result ≡ of_push fault }
    ensures not_memory { result ≢ PublishFault.Memory }
{
    match fault {
        WindowFault::Ended => PublishFault::Ended,
        WindowFault::BadDuration => PublishFault::BadDuration,
        WindowFault::TooLong => PublishFault::TooLong,
        WindowFault::OpenSegment => PublishFault::OpenSegment,
        WindowFault::NoSegment => PublishFault::NoSegment,
        WindowFault::CountEnd => PublishFault::CountEnd,
        WindowFault::TimeEnd => PublishFault::TimeEnd,
        WindowFault::TimeBack => PublishFault::TimeBack,
    }
}

/// Converts the fault of date ranges to that of a channel.
fn range_fault(fault: RangeFault) -> PublishFault
    ensures name { result ≡ of_range fault }
    ensures not_memory { result ≢ PublishFault.Memory }
{
    match fault {
        RangeFault::IdTaken => PublishFault::IdTaken,
        RangeFault::BadAttribute => PublishFault::BadAttribute,
        RangeFault::IdUnknown => PublishFault::IdUnknown,
    }
}
