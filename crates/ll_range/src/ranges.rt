//! What is kept of the date ranges of one rendition. Everywhere `end` is the duration of all parts of the rendition so far, in microseconds.
ghost use Rattle.std.specs.Prelude.{◌≡◌, ◌≤◌, [], Some, IfOk, MatchOption, length, map, slice_get};
ghost use Rattle.ll_range.specs.Announced.{announced, recent_at, skipped_at};

use crate::changes::is_recent;
use crate::listed::ListedRanges;
use indexmap::IndexMap;
use ll_attr::Text;
use ll_settings::Settings;
use std::alloc::{AllocError, Global};
use std::marker::Model;

/// A rule that refuses to add or to remove a date range. If several apply, the first in this order counts.
#[derive(Clone, Copy, Debug)]
pub enum RangeFault {
    /// A date range with this id is listed, or was removed recently (section 4.4.5.2).
    IdTaken,
    /// The id is empty or holds a quotation mark, a tab, CR or LF; or START-DATE is missing; or an attribute isn't allowed or has
    /// a value that isn't.
    BadAttribute,
    /// No date range with this id is listed.
    IdUnknown,
}

/// Why a date range isn't added or isn't removed.
#[derive(Clone, Copy, Debug)]
pub enum RangeError {
    /// The first rule that refuses it.
    Refused(RangeFault),
    /// Out of memory, although no rule refuses it.
    Memory,
}

/// A date range that a playlist lists (EXT-X-DATERANGE, section 4.4.5.1).
#[derive(Clone, Copy)]
pub struct DateRange<'a> {
    /// The value of the ID attribute.
    pub id: &'a str,
    /// The other attributes as a playlist spells them, in the publisher's order.
    pub attributes: &'a str,
    /// The duration of all parts before it, in microseconds.
    pub added: u64,
}

/// The date ranges of one rendition: those that are listed, in order of adding, and the recent removals, in order of removal.
/// A removal is recent while the parts after it last no longer than the Skip Boundary (section 4.4.5.2).
pub struct Ranges {
    pub(crate) limit: u64,
    pub(crate) listed: ListedRanges,
    /// The ids of the recent removals, each with the duration of all parts before the removal, in microseconds.
    pub(crate) recent: IndexMap<String, u64>,
}

/// Crates that drop these prove nothing of what is in them.
impl Drop for Ranges {
    fn drop(self) {
        let Ranges {
            limit: _,
            listed: _listed,
            recent: _recent,
        } = self;
    }
}

impl Model for Ranges {
    ghost use Rattle.std.specs.Prelude.{map};
    ghost use Rattle.ll_range.specs.Announced.{Announced};
    ghost use Rattle.ll_range.specs.Kept.{removal_at};

    ghost Value = { Announced };

    ghost view = { λ r. record { limit = r.limit; listed = r.listed; recent = map removal_at r.recent.entries } };
}

impl Ranges {
    /// Returns the date ranges before the first item, in a channel of `settings`. They take no memory.
    pub fn new(alloc: Global, settings: &Settings) -> Ranges
        ensures { result ≡ announced settings.now [] }
    {
        Ranges {
            limit: settings.skip() * 1_000_000,
            listed: ListedRanges::new(alloc),
            recent: IndexMap::new(alloc),
        }
    }

    /// Returns the number of date ranges that are listed.
    pub fn count(&self) -> usize
        ensures { result ≡ length self.now.listed }
    {
        self.listed.len()
    }

    /// Returns the date range at `place` of those that are listed, from 0 in order of adding, or `None` after the last.
    pub fn listed(&self, place: usize) -> Option<DateRange<'_>>
        ensures { MatchOption result (length self.now.listed ≤ place)
            (λ r. slice_get self.now.listed place ≡ Some (record { id = r.id.now; attributes = r.attributes.now; added = r.added })) }
    {
        self.listed.get(place)
    }

    /// Returns how many of the date ranges that are listed a delta update may skip: those after whose adding the parts last longer than the
    /// Skip Boundary (section 6.2.5.1). They are the first ones (`skipped_law`).
    pub fn skipped(&self, end: u64) -> usize
        ensures { result ≡ skipped_at end self.now }
    {
        let mut count = 0;
        for place in 0..self.count() {
            if let Some(range) = self.listed(place) {
                if !is_recent(self.limit, end, range.added) {
                    count += 1;
                }
            }
        }
        count
    }

    /// Returns the ids of the date ranges that were removed recently, in order of removal (section 4.4.5.2).
    pub fn recent(&self, alloc: Global, end: u64) -> Result<Vec<Text>, AllocError>
        ensures { IfOk result (λ ids. ids.items ≡ map (λ r. r.id) (recent_at end self.now)) }
    {
        let mut ids = Vec::new(alloc);
        for place in 0..self.recent.len() {
            if let Some((id, removed)) = self.removal(place) {
                if is_recent(self.limit, end, removed) {
                    ids.push(Text::from_str(alloc, id)?)?;
                }
            }
        }
        Ok(ids)
    }

    /// Returns the id of the removal at `place`, from 0, and the duration of all parts before it in microseconds.
    fn removal(&self, place: usize) -> Option<(&str, u64)>
        ensures { MatchOption result (length self.now.recent ≤ place)
            (λ r. slice_get self.now.recent place ≡ Some (record { id = r.0.now; removed = r.1 })) }
    {
        let (id, removed) = self.recent.get_index(place)?;
        Some((id.as_str(), *removed))
    }

    /// Copies the date ranges. The copy shares those that are listed.
    pub fn copy(&self) -> Result<Ranges, AllocError>
        ensures { IfOk result (λ r. r ≡ self.now) }
    {
        Ok(Ranges {
            limit: self.limit,
            listed: self.listed.again()?,
            recent: self.recent.clone()?,
        })
    }
}
