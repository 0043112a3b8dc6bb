//! Adding and removing date ranges. Everywhere `end` is the duration of all parts of the rendition so far, in microseconds.
ghost use Rattle.std.specs.Prelude.{◌≡◌, ◌≢◌, ◌+◌, ◌++◌, ◌∷◌, [], List, ℕ, IfErr, MatchResult, OnOk, OnErr, IsErrOf, None, Some, false, filter, map, nat_le};
ghost use Rattle.std.specs.Option.{option_map};
ghost use Rattle.ll_item.specs.Items.{is_about_ranges};
ghost use Rattle.ll_settings.specs.Settings.{Configuration};
ghost use Rattle.ll_item.specs.declared.item.Item.{Item};
ghost use Rattle.ll_item.specs.declared.item.Item.TheVariants as item;
ghost use Rattle.ll_range.specs.Announced as spec;
ghost use Rattle.ll_range.specs.Announced.{announced, refusal, add_refusal, remove_refusal, is_listed, was_removed};
ghost use Rattle.ll_range.specs.Kept.{removal_at, with_range, without_range, at_time};
ghost use Rattle.ll_range.specs.declared.ranges.RangeError.TheVariants as error;
ghost use Rattle.ll_item.specs.Told.{end_time, other_removals};

use crate::attributes::{are_allowed, is_id};
use crate::listed::RangeEntry;
use crate::ranges::{RangeError, RangeFault, Ranges};
use indexmap::IndexMap;
use ll_attr::{AttrList, Text};
use std::alloc::AllocError;

impl Ranges {
    /// Returns the first rule that refuses to add a date range with this `id` and these `attributes`.
    pub fn test_add(&self, end: u64, id: &str, attributes: &AttrList) -> Result<(), RangeFault>
        ensures { MatchResult result (λ u. add_refusal end id.now attributes.now self.now ≡ None) (λ f. add_refusal end id.now attributes.now self.now ≡ Some f) }
    {
        if self.is_listed(id) || self.was_removed(end, id) {
            Err(RangeFault::IdTaken)
        } else if is_id(id) && are_allowed(attributes.attributes()) {
            Ok(())
        } else {
            Err(RangeFault::BadAttribute)
        }
    }

    /// Returns the rule that refuses to remove the date range with this `id`.
    pub fn test_remove(&self, id: &str) -> Result<(), RangeFault>
        ensures { MatchResult result (λ u. remove_refusal id.now self.now ≡ None) (λ f. remove_refusal id.now self.now ≡ Some f) }
    {
        if self.is_listed(id) {
            Ok(())
        } else {
            Err(RangeFault::IdUnknown)
        }
    }

    /// Returns whether a date range with this `id` is listed.
    fn is_listed(&self, id: &str) -> bool
        ensures { result ≡ is_listed id.now self.now }
    {
        self.listed.contains(id)
    }

    /// Returns whether a date range with this `id` was removed recently.
    fn was_removed(&self, end: u64, id: &str) -> bool
        ensures { result ≡ was_removed end id.now self.now }
    {
        match self.recent.get(id) {
            Some(removed) => is_recent(self.limit, end, *removed),
            None => false,
        }
    }

    /// Adds a date range (section 4.4.5.1).
    ///
    /// # Errors
    ///
    /// `Refused` with the first rule that refuses it, else `Memory`. Nothing changes then.
    pub fn add(&mut self, end: u64, id: Text, attributes: AttrList) -> Result<(), RangeError>
        ensures accepted { (c : Configuration) (items : List Item) (rendition : ℕ) → self.old ≡ announced c items → end ≡ end_time items
            → OnOk result ((refusal c items (item.Range rendition id attributes) ≡ None)
            × (self.new ≡ announced c (items ++ item.Range rendition id attributes ∷ []))) }
        ensures refused { (c : Configuration) (items : List Item) (rendition : ℕ) → self.old ≡ announced c items → end ≡ end_time items
            → IfErr result (λ e. e ≢ RangeError.Memory → option_map error.Refused (refusal c items (item.Range rendition id attributes)) ≡ Some e) }
        ensures memory { (c : Configuration) (items : List Item) (rendition : ℕ) → self.old ≡ announced c items → end ≡ end_time items
            → IsErrOf result RangeError.Memory → refusal c items (item.Range rendition id attributes) ≡ None }
        ensures unchanged { OnErr result (self.new ≡ self.old) }
    {
        if let Err(fault) = self.test_add(end, id.as_str(), &attributes) {
            return Err(RangeError::Refused(fault));
        }
        match self.list(end, id.as_str(), &attributes) {
            Ok(()) => Ok(()),
            Err(AllocError) => Err(RangeError::Memory),
        }
    }

    /// Removes the date range with this `id` (section 4.4.5.2).
    ///
    /// # Errors
    ///
    /// `Refused` if none is listed, else `Memory`, as a removal is kept while it is recent. Nothing changes then.
    pub fn remove(&mut self, end: u64, id: &str) -> Result<(), RangeError>
        ensures accepted { (c : Configuration) (items : List Item) (rendition : ℕ) → self.old ≡ announced c items → end ≡ end_time items
            → OnOk result ((refusal c items (item.Unrange rendition id.now) ≡ None)
            × (self.new ≡ announced c (items ++ item.Unrange rendition id.now ∷ []))) }
        ensures refused { (c : Configuration) (items : List Item) (rendition : ℕ) → self.old ≡ announced c items → end ≡ end_time items
            → IfErr result (λ e. e ≢ RangeError.Memory → option_map error.Refused (refusal c items (item.Unrange rendition id.now)) ≡ Some e) }
        ensures memory { (c : Configuration) (items : List Item) (rendition : ℕ) → self.old ≡ announced c items → end ≡ end_time items
            → IsErrOf result RangeError.Memory → refusal c items (item.Unrange rendition id.now) ≡ None }
        ensures unchanged { OnErr result (self.new ≡ self.old) }
    {
        if let Err(fault) = self.test_remove(id) {
            return Err(RangeError::Refused(fault));
        }
        match self.unlist(end, id) {
            Ok(()) => Ok(()),
            Err(AllocError) => Err(RangeError::Memory),
        }
    }

    /// Adds a date range that `test_add` lets through. If memory runs out, nothing changes.
    pub fn list(&mut self, end: u64, id: &str, attributes: &AttrList) -> Result<(), AllocError>
        requires { add_refusal end id.now attributes.now self.old ≡ None }
        ensures accepted { (c : Configuration) (items : List Item) (rendition : ℕ) → self.old ≡ announced c items → end ≡ end_time items
            → OnOk result (self.new ≡ announced c (items ++ item.Range rendition id.now attributes.now ∷ [])) }
        ensures unchanged { OnErr result (self.new ≡ self.old) }
    {
        self.push(end, id, attributes)?;
        Ok(())
    }

    /// Removes a date range that `test_remove` lets through. If memory runs out, nothing changes.
    pub fn unlist(&mut self, end: u64, id: &str) -> Result<(), AllocError>
        requires { remove_refusal id.now self.old ≡ None }
        ensures accepted { (c : Configuration) (items : List Item) (rendition : ℕ) → self.old ≡ announced c items → end ≡ end_time items
            → OnOk result (self.new ≡ announced c (items ++ item.Unrange rendition id.now ∷ [])) }
        ensures unchanged { OnErr result (self.new ≡ self.old) }
    {
        self.take_away(end, id)?;
        Ok(())
    }

    /// Drops the removals that are no longer recent.
    pub fn expire(&mut self, end: u64)
        ensures forgets { self.new ≡ at_time end self.old }
        ensures follows { (c : Configuration) (items : List Item) (i : Item) → self.old ≡ announced c items → is_about_ranges i ≡ false
            → end ≡ end_time (items ++ i ∷ []) → self.new ≡ announced c (items ++ i ∷ []) }
    {
        forget(&mut self.recent, self.limit, end);
    }

    /// Adds a date range whose `id` isn't listed.
    fn push(&mut self, end: u64, id: &str, attributes: &AttrList) -> Result<(), AllocError>
        requires { is_listed id.now self.old ≡ false }
        ensures ok { OnOk result (self.new ≡ with_range end id.now attributes.now self.old) }
        ensures err { OnErr result (self.new ≡ self.old) }
    {
        let added = RangeEntry {
            attributes: attributes.write()?,
            added: end,
        };
        self.listed.put(id, added)
    }

    /// Removes the date range with this `id`, and keeps the removal.
    fn take_away(&mut self, end: u64, id: &str) -> Result<(), AllocError>
        ensures ok { OnOk result (self.new ≡ without_range end id.now self.old) }
        ensures err { OnErr result (self.new ≡ self.old) }
    {
        let left = self.listed.without(id)?;
        note(&mut self.recent, id, end)?;
        self.listed = left;
        Ok(())
    }
}

/// Adds a removal after the others, and drops an earlier one of the same `id`.
fn note(recent: &mut IndexMap<String, u64>, id: &str, removed: u64) -> Result<(), AllocError>
    ensures ok { OnOk result (map removal_at recent.new.entries ≡ other_removals id.now (map removal_at recent.old.entries)
        ++ (record { id = id.now; removed = removed }) ∷ []) }
    ensures err { OnErr result (recent.new.entries ≡ recent.old.entries) }
{
    let alloc = *recent.allocator();
    let key = String::from_str(alloc, id)?;
    recent.reserve(1)?;
    recent.shift_remove(id);
    match recent.insert(key, removed) {
        Ok(_) => Ok(()),
        Err(_) => Err(AllocError),
    }
}

/// Returns whether at `end` a removal made at `removed` is recent, with the Skip Boundary `limit`. All are microseconds of parts.
pub(crate) fn is_recent(limit: u64, end: u64, removed: u64) -> bool
    ensures { result ≡ nat_le end (removed + limit) }
{
    end.saturating_sub(removed) <= limit
}

/// Drops the removals that at `end` are no longer recent, with the Skip Boundary `limit` in microseconds.
fn forget(recent: &mut IndexMap<String, u64>, limit: u64, end: u64)
    ensures { map removal_at recent.new.entries ≡ filter (spec.is_recent limit end) (map removal_at recent.old.entries) }
{
    recent.retain(
        |_id: &String, removed: &mut u64| -> bool
            ensures { (result ≡ nat_le end (removed.old + limit)) × (removed.new ≡ removed.old) }
        { is_recent(limit, end, *removed) },
    );
}
