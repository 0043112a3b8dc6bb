//! The finished segments of the window.
ghost use Rattle.std.specs.Prelude.{◌≡◌, ◌+◌, ◌<◌, ◌≤◌, ◌^◌, ◌++◌, ◌∷◌, [], IfOk, OnOk, OnErr, MatchBool, length, slice_get, false};
ghost use Rattle.std.specs.Arc.{arc_value};
ghost use Rattle.std.specs.Option.{option_copied};
ghost use Rattle.ll_window.specs.Hidden.{AreHidden};
ghost use Rattle.ll_window.specs.Rows.{row, broken_in};
ghost use Rattle.ll_window.specs.Rows as spec;
ghost use Rattle.ll_window.specs.Segments.{duration};
ghost use Rattle.ll_window.specs.Window.{window, gone, listed, shown_by, skipped_in};

use crate::progress::{Progress, one_if};
use crate::segment::Segment;
use ll_item::Part;
use std::alloc::{AllocError, Global};
use std::collections::VecDeque;
use std::marker::Model;
use std::mem;
use std::sync::Arc;

/// A finished segment with the parts that playlists list of it, which copies share.
pub(crate) struct FinishedSegment {
    pub(crate) segment: Segment,
    /// The parts, or `None` once playlists no longer list them.
    parts: Option<Arc<Vec<Part>>>,
}

impl Drop for FinishedSegment {
    fn drop(self) {
        let FinishedSegment {
            segment: _,
            parts: _parts,
        } = self;
    }
}

impl Model for FinishedSegment {
    ghost use Rattle.std.specs.Arc.{arc_value};
    ghost use Rattle.ll_window.specs.Rows.{Row, parts_in};

    ghost Value = { Row };

    ghost view = { λ k. record { segment = k.segment; parts = parts_in k.parts (λ kept. (arc_value kept).items) } };
}

impl Clone for FinishedSegment {
    ghost is_clone = { λ k l. l ≡ k };

    fn clone(&self) -> Result<FinishedSegment, AllocError> {
        let parts = match &self.parts {
            Some(parts) => Some(Arc::try_clone(parts)?),
            None => None,
        };
        Ok(FinishedSegment {
            segment: self.segment,
            parts,
        })
    }
}

impl FinishedSegment {
    /// Returns the parts that playlists list.
    pub(crate) fn parts(&self) -> &[Part]
        ensures { result.now ≡ self.now.parts }
    {
        match &self.parts {
            Some(parts) => parts.as_slice(),
            None => &[],
        }
    }

    /// Drops the parts.
    fn hide(&mut self)
        ensures { self.new ≡ shown_by false self.old }
    {
        self.parts = None;
    }
}

/// The finished segments of the window.
pub(crate) struct Finished {
    pub(crate) rows: VecDeque<FinishedSegment>,
    /// The duration of all segments together, in microseconds.
    pub(crate) lasting: u64,
    /// The number of broken segments that have left the window.
    pub(crate) discontinuity: u64,
    /// The number of segments, the first ones, whose parts playlists no longer list.
    pub(crate) far: usize,
    /// The duration of the other segments together, in microseconds.
    pub(crate) near_lasting: u64,
}

impl Drop for Finished {
    fn drop(self) {
        let Finished {
            rows: _rows,
            lasting: _,
            discontinuity: _,
            far: _,
            near_lasting: _,
        } = self;
    }
}

impl Finished {
    pub(crate) fn new(alloc: Global) -> Finished
        ensures { (result.rows.items ≡ []) × (result.lasting ≡ 0) × (result.discontinuity ≡ 0) × (result.far ≡ 0) × (result.near_lasting ≡ 0) }
    {
        Finished {
            rows: VecDeque::new(alloc),
            lasting: 0,
            discontinuity: 0,
            far: 0,
            near_lasting: 0,
        }
    }

    /// Copies the segments. The copies share their parts.
    pub(crate) fn copy(&self) -> Result<Finished, AllocError>
        ensures { IfOk result (λ f. (f.rows.items ≡ self.now.rows.items) × (f.lasting ≡ self.now.lasting)
            × (f.discontinuity ≡ self.now.discontinuity) × (f.far ≡ self.now.far) × (f.near_lasting ≡ self.now.near_lasting)) }
    {
        Ok(Finished {
            rows: self.rows.clone()?,
            lasting: self.lasting,
            discontinuity: self.discontinuity,
            far: self.far,
            near_lasting: self.near_lasting,
        })
    }

    /// Adds the open segment of `progress` with all of `open_parts`, which is empty then, and drops each segment if those after it last
    /// at least `least` microseconds. Returns the added segment. If memory runs out, nothing changes.
    pub(crate) fn finish(
        &mut self,
        alloc: Global,
        least: u64,
        progress: Progress,
        open_parts: &mut Vec<Part>,
    ) -> Result<Segment, AllocError>
        requires sum { self.old.lasting ≡ spec.lasting self.old.rows.items }
        requires open { progress.open_duration ≡ duration open_parts.old.items }
        requires lasting { self.old.lasting + progress.open_duration < 2 ^ 64 }
        requires maps { progress.maps + 1 < 2 ^ 64 }
        requires breaks { self.old.discontinuity + broken_in self.old.rows.items ≤ progress.maps }
        requires hidden { AreHidden self.old }
        ensures rows { OnOk result (self.new.rows.items
            ≡ window least (self.old.rows.items ++ row progress.next_number progress.maps progress.open_time open_parts.old.items ∷ [])) }
        ensures left { OnOk result (self.new.discontinuity ≡ self.old.discontinuity
            + broken_in (gone least (self.old.rows.items ++ row progress.next_number progress.maps progress.open_time open_parts.old.items ∷ []))) }
        ensures segment { IfOk result (λ s. s ≡ (row progress.next_number progress.maps progress.open_time open_parts.old.items).segment) }
        ensures sums { OnOk result (self.new.lasting ≡ spec.lasting self.new.rows.items) }
        ensures hidden { OnOk result (AreHidden self.new) }
        ensures far { OnOk result (0 < self.new.far → (0 < self.old.far) × (self.new.near_lasting ≡ self.old.near_lasting + progress.open_duration)) }
        ensures emptied { OnOk result (open_parts.new.items ≡ []) }
        ensures err { OnErr result ((self.new.rows.items ≡ self.old.rows.items) × (self.new.lasting ≡ self.old.lasting)
            × (self.new.discontinuity ≡ self.old.discontinuity) × (self.new.far ≡ self.old.far) × (self.new.near_lasting ≡ self.old.near_lasting)
            × (open_parts.new.items ≡ open_parts.old.items)) }
    {
        self.rows.reserve(1)?;
        let segment = progress.segment(open_parts.as_slice());
        let parts = Some(shared(alloc, open_parts)?);
        self.rows.push_back(FinishedSegment { segment, parts })?;
        self.lasting += segment.duration;
        self.near_lasting += segment.duration;
        self.shrink(least);
        Ok(segment)
    }

    /// Drops the parts of each segment after which come at least `near` microseconds, the `open_duration` of the open parts included.
    pub(crate) fn hide(&mut self, near: u64, open_duration: u64)
        requires hidden { AreHidden self.old }
        requires far { 0 < self.old.far → near ≤ self.old.near_lasting + open_duration }
        requires lasting { self.old.near_lasting + open_duration < 2 ^ 64 }
        ensures rows { self.new.rows.items ≡ listed near open_duration self.old.rows.items }
        ensures hidden { AreHidden self.new }
        ensures far { 0 < self.new.far → near ≤ self.new.near_lasting + open_duration }
        ensures same { (self.new.lasting ≡ self.old.lasting) × (self.new.discontinuity ≡ self.old.discontinuity) }
    {
        while self.hide_next(near, open_duration) {}
    }

    /// Drops the parts of the first segment that still has them, if at least `near` microseconds come after it, the `open_duration` of
    /// the open parts included. Returns whether it did.
    fn hide_next(&mut self, near: u64, open_duration: u64) -> bool
        requires hidden { AreHidden self.old }
        requires far { 0 < self.old.far → near ≤ self.old.near_lasting + open_duration }
        requires lasting { self.old.near_lasting + open_duration < 2 ^ 64 }
        ensures rows { listed near open_duration self.new.rows.items ≡ listed near open_duration self.old.rows.items }
        ensures hidden { AreHidden self.new }
        ensures far { 0 < self.new.far → near ≤ self.new.near_lasting + open_duration }
        ensures lasting { self.new.near_lasting ≤ self.old.near_lasting }
        ensures same { (self.new.lasting ≡ self.old.lasting) × (self.new.discontinuity ≡ self.old.discontinuity) }
        ensures done { MatchBool result ((length self.new.rows.items ≡ length self.old.rows.items) × (self.new.far ≡ self.old.far + 1))
            (self.new.rows.items ≡ listed near open_duration self.new.rows.items) }
    {
        let Some(first) = self.rows.get_mut(self.far) else {
            return false;
        };
        let after = self.near_lasting - first.segment.duration;
        if after + open_duration < near {
            return false;
        }
        first.hide();
        self.far += 1;
        self.near_lasting = after;
        true
    }

    /// Returns the segment at `place`, from 0, with its parts.
    pub(crate) fn row(&self, place: usize) -> Option<&FinishedSegment>
        ensures { option_copied result ≡ slice_get self.now.rows.items place }
    {
        self.rows.get(place)
    }

    /// Returns how many segments have more than `limit` microseconds after them, the `open_duration` of the open parts included.
    pub(crate) fn skip_count(&self, limit: u64, open_duration: u64) -> usize
        requires sum { self.now.lasting ≡ spec.lasting self.now.rows.items }
        requires lasting { self.now.lasting + open_duration < 2 ^ 64 }
        ensures { result ≡ skipped_in limit open_duration self.now.rows.items }
    {
        let (mut count, mut after) = (self.rows.len(), open_duration);
        while 0 < count && after <= limit {
            count -= 1;
            after += self.rows[count].segment.duration;
        }
        count
    }

    /// Drops each segment if those after it last at least `least` microseconds.
    fn shrink(&mut self, least: u64)
        requires sum { self.old.lasting ≡ spec.lasting self.old.rows.items }
        requires breaks { self.old.discontinuity + broken_in self.old.rows.items < 2 ^ 64 }
        requires hidden { AreHidden self.old }
        ensures rows { self.new.rows.items ≡ window least self.old.rows.items }
        ensures left { self.new.discontinuity ≡ self.old.discontinuity + broken_in (gone least self.old.rows.items) }
        ensures sum { self.new.lasting ≡ spec.lasting self.new.rows.items }
        ensures hidden { AreHidden self.new }
        ensures far { 0 < self.new.far → (0 < self.old.far) × (self.new.near_lasting ≡ self.old.near_lasting) }
    {
        while self.leave(least) {}
    }

    /// Drops the first segment if those after it last at least `least` microseconds. Returns whether it did.
    fn leave(&mut self, least: u64) -> bool
        requires sum { self.old.lasting ≡ spec.lasting self.old.rows.items }
        requires breaks { self.old.discontinuity + broken_in self.old.rows.items < 2 ^ 64 }
        requires hidden { AreHidden self.old }
        ensures sum { self.new.lasting ≡ spec.lasting self.new.rows.items }
        ensures hidden { AreHidden self.new }
        ensures far { 0 < self.new.far → (0 < self.old.far) × (self.new.near_lasting ≡ self.old.near_lasting) }
        ensures breaks { self.new.discontinuity + broken_in self.new.rows.items ≡ self.old.discontinuity + broken_in self.old.rows.items }
        ensures window { window least self.new.rows.items ≡ window least self.old.rows.items }
        ensures gone { self.new.discontinuity + broken_in (gone least self.new.rows.items)
            ≡ self.old.discontinuity + broken_in (gone least self.old.rows.items) }
        ensures done { MatchBool result (length self.new.rows.items < length self.old.rows.items)
            ((window least self.new.rows.items ≡ self.new.rows.items) × (gone least self.new.rows.items ≡ [])) }
    {
        let Some(first) = self.rows.front() else {
            return false;
        };
        let Segment {
            duration,
            broken,
            ..
        } = first.segment;
        if self.lasting - duration < least {
            return false;
        }
        self.rows.pop_front();
        self.lasting -= duration;
        if self.far > 0 {
            self.far -= 1;
        } else {
            self.near_lasting -= duration;
        }
        self.discontinuity += one_if(broken);
        true
    }
}

/// Moves `parts` into a value that can be shared. If memory runs out, they stay.
fn shared(alloc: Global, parts: &mut Vec<Part>) -> Result<Arc<Vec<Part>>, AllocError>
    ensures shared { IfOk result (λ all. (arc_value all).items ≡ parts.old.items) }
    ensures emptied { OnOk result (parts.new.items ≡ []) }
    ensures err { OnErr result (parts.new.items ≡ parts.old.items) }
{
    match Arc::new(alloc, mem::replace(parts, Vec::new(alloc))) {
        Ok(all) => Ok(all),
        Err(failed) => {
            *parts = failed.value;
            Err(AllocError)
        }
    }
}
