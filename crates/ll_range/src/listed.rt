//! The date ranges that are listed. Copies share them, and changing one copy changes no other.
ghost use Rattle.std.specs.Prelude.{◌≡◌, ◌≤◌, ◌++◌, ◌∷◌, [], IfOk, MatchOption, OnErr, OnOk, Some, bytes_eq, false, length, slice_get};
ghost use Rattle.std.specs.Arc.{arc_value};
ghost use Rattle.std.specs.List.{list_any};
ghost use Rattle.ll_item.specs.Told.{Listed, others};

use crate::ranges::DateRange;
use indexmap::IndexMap;
use ll_attr::Text;
use std::alloc::{AllocError, Global};
use std::marker::Model;
use std::sync::Arc;

/// What is kept of a date range under its id.
pub(crate) struct RangeEntry {
    pub(crate) attributes: Text,
    pub(crate) added: u64,
}

impl Drop for RangeEntry {
    fn drop(self) {
        let RangeEntry {
            attributes: _attributes,
            added: _,
        } = self;
    }
}

impl Clone for RangeEntry {
    ghost is_clone = { λ s t. t ≡ s };

    fn clone(&self) -> Result<RangeEntry, AllocError> {
        Ok(RangeEntry {
            attributes: self.attributes.copy()?,
            added: self.added,
        })
    }
}

/// Date ranges by their ids, in order of adding.
struct RangeMap {
    entries: IndexMap<String, RangeEntry>,
}

impl Drop for RangeMap {
    fn drop(self) {
        let RangeMap { entries: _entries } = self;
    }
}

impl Model for RangeMap {
    ghost use Rattle.std.specs.Prelude.{List, map};
    ghost use Rattle.ll_item.specs.Told.{Listed};
    ghost use Rattle.ll_range.specs.Kept.{listed_at};

    ghost Value = { List Listed };

    ghost view = { λ m. map listed_at m.entries.entries };
}

impl Clone for RangeMap {
    ghost use Rattle.std.specs.Prelude.{◌≡◌};

    ghost is_clone = { λ s t. t ≡ s };

    fn clone(&self) -> Result<RangeMap, AllocError> {
        Ok(RangeMap {
            entries: self.entries.clone()?,
        })
    }
}

impl RangeMap {
    /// Returns no date ranges, which take no memory.
    fn new(alloc: Global) -> RangeMap
        ensures { result ≡ [] }
    {
        RangeMap {
            entries: IndexMap::new(alloc),
        }
    }

    /// Returns one date range alone, which can be shared.
    fn of_one(alloc: Global, id: &str, entry: RangeEntry) -> Result<Arc<RangeMap>, AllocError>
        ensures { IfOk result (λ ranges. arc_value ranges ≡ (record { id = id.now; attributes = entry.attributes; added = entry.added }) ∷ []) }
    {
        let mut ranges = RangeMap::new(alloc);
        ranges.put(id, entry)?;
        Ok(Arc::new(alloc, ranges)?)
    }

    /// Returns the number of date ranges.
    fn len(&self) -> usize
        ensures { result ≡ length self.now }
    {
        self.entries.len()
    }

    /// Returns the date range at `place`, from 0, or `None` after the last.
    fn get(&self, place: usize) -> Option<DateRange<'_>>
        ensures { MatchOption result (length self.now ≤ place)
            (λ r. slice_get self.now place ≡ Some (record { id = r.id.now; attributes = r.attributes.now; added = r.added })) }
    {
        let (id, entry) = self.entries.get_index(place)?;
        Some(DateRange {
            id: id.as_str(),
            attributes: entry.attributes.as_str(),
            added: entry.added,
        })
    }

    /// Returns whether a date range has this `id`.
    fn contains(&self, id: &str) -> bool
        ensures { result ≡ list_any (λ (range : Listed). bytes_eq id.now range.id) self.now }
    {
        self.entries.contains_key(id)
    }

    /// Adds a date range after the others. If memory runs out, nothing changes.
    fn put(&mut self, id: &str, entry: RangeEntry) -> Result<(), AllocError>
        requires { list_any (λ (range : Listed). bytes_eq id.now range.id) self.old ≡ false }
        ensures ok { OnOk result (self.new ≡ self.old ++ (record { id = id.now; attributes = entry.attributes; added = entry.added }) ∷ []) }
        ensures err { OnErr result (self.new ≡ self.old) }
    {
        let alloc = *self.entries.allocator();
        let key = String::from_str(alloc, id)?;
        match self.entries.insert(key, entry) {
            Ok(_) => Ok(()),
            Err(_) => Err(AllocError),
        }
    }

    /// Removes the date range with this `id`. The others keep their order.
    fn take_out(&mut self, id: &str)
        ensures { self.new ≡ others id.now self.old }
    {
        self.entries.shift_remove(id);
    }

    /// Returns a copy without the date range with this `id`.
    fn without(&self, id: &str) -> Result<RangeMap, AllocError>
        ensures { IfOk result (λ left. left ≡ others id.now self.now) }
    {
        let mut left = self.clone()?;
        left.take_out(id);
        Ok(left)
    }
}

/// The date ranges that are listed, in order of adding. All copies share one map, and a copy that changes gets a map of its own first.
pub(crate) struct ListedRanges {
    alloc: Global,
    /// The map, or `None` before the first date range, which takes no memory.
    shared: Option<Arc<RangeMap>>,
}

impl Drop for ListedRanges {
    fn drop(self) {
        let ListedRanges {
            alloc: _,
            shared: _shared,
        } = self;
    }
}

impl Model for ListedRanges {
    ghost use Rattle.std.specs.Prelude.{List, []};
    ghost use Rattle.std.specs.Arc.{arc_value};
    ghost use Rattle.std.specs.Option.{option_map_or};
    ghost use Rattle.ll_item.specs.Told.{Listed};

    ghost Value = { List Listed };

    ghost view = { λ l. option_map_or arc_value l.shared [] };
}

impl ListedRanges {
    /// Returns no date ranges, which take no memory.
    pub(crate) fn new(alloc: Global) -> ListedRanges
        ensures { result ≡ [] }
    {
        ListedRanges {
            alloc,
            shared: None,
        }
    }

    /// Returns the number of date ranges that are listed.
    pub(crate) fn len(&self) -> usize
        ensures { result ≡ length self.now }
    {
        match &self.shared {
            Some(ranges) => ranges.len(),
            None => 0,
        }
    }

    /// Returns the date range at `place`, from 0, or `None` after the last.
    pub(crate) fn get(&self, place: usize) -> Option<DateRange<'_>>
        ensures { MatchOption result (length self.now ≤ place)
            (λ r. slice_get self.now place ≡ Some (record { id = r.id.now; attributes = r.attributes.now; added = r.added })) }
    {
        match &self.shared {
            Some(ranges) => ranges.get(place),
            None => None,
        }
    }

    /// Returns whether a date range with this `id` is listed.
    pub(crate) fn contains(&self, id: &str) -> bool
        ensures { result ≡ list_any (λ (range : Listed). bytes_eq id.now range.id) self.now }
    {
        match &self.shared {
            Some(ranges) => ranges.contains(id),
            None => false,
        }
    }

    /// Adds a date range after the others. If memory runs out, nothing changes.
    pub(crate) fn put(&mut self, id: &str, entry: RangeEntry) -> Result<(), AllocError>
        requires { list_any (λ (range : Listed). bytes_eq id.now range.id) self.old ≡ false }
        ensures ok { OnOk result (self.new ≡ self.old ++ (record { id = id.now; attributes = entry.attributes; added = entry.added }) ∷ []) }
        ensures err { OnErr result (self.new ≡ self.old) }
    {
        match &mut self.shared {
            Some(ranges) => Arc::make_mut(ranges)?.put(id, entry)?,
            None => self.shared = Some(RangeMap::of_one(self.alloc, id, entry)?),
        }
        Ok(())
    }

    /// Returns the list without the date range with this `id`. It shares nothing with this one.
    pub(crate) fn without(&self, id: &str) -> Result<ListedRanges, AllocError>
        ensures { IfOk result (λ left. left ≡ others id.now self.now) }
    {
        match &self.shared {
            Some(ranges) => Ok(ListedRanges {
                alloc: self.alloc,
                shared: Some(Arc::new(self.alloc, ranges.without(id)?)?),
            }),
            None => Ok(ListedRanges::new(self.alloc)),
        }
    }

    /// Returns another handle of the same list.
    pub(crate) fn again(&self) -> Result<ListedRanges, AllocError>
        ensures { IfOk result (λ listed. listed ≡ self.now) }
    {
        match &self.shared {
            Some(ranges) => Ok(ListedRanges {
                alloc: self.alloc,
                shared: Some(Arc::try_clone(ranges)?),
            }),
            None => Ok(ListedRanges::new(self.alloc)),
        }
    }
}
