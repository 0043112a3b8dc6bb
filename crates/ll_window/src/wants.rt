//! Whether the segment or part that a request waits for is there, or too far ahead (section 6.2.5.2).
ghost use Rattle.std.specs.Prelude.{◌≡◌, ◌≤◌, ◌+◌, List, nat_lt};
ghost use Rattle.ll_item.specs.declared.item.Item.{Item};
ghost use Rattle.ll_window.specs.Compact.{compact};
ghost use Rattle.ll_window.specs.Wants.{number_after_last, is_past};
ghost use Rattle.ll_window.specs.Wants as spec;

use crate::part_position::PartPosition;
use crate::window::Window;
use ll_settings::Settings;

impl PartPosition {
    /// Returns whether the part at this position is part `part` of segment `msn`, or comes after it.
    pub(crate) fn reaches(self, msn: u64, part: u64) -> bool
        ensures { result ≡ spec.reaches msn part self }
    {
        msn < self.number || msn == self.number && part <= self.index
    }
}

impl Window {
    /// Returns whether part `part` of segment `msn`, or a later one, was accepted (_HLS_msn and _HLS_part, section 6.2.5.2), also if
    /// playlists no longer show it. An index past the last part of a finished segment stands for the first part of the next one.
    pub fn holds_part(&self, msn: u64, part: u64) -> bool
        ensures { (items : List Item) → self.now ≡ compact self.now.settings items → result ≡ spec.holds_part self.now.settings items msn part }
    {
        match self.last() {
            Some(last) => last.reaches(msn, part),
            None => false,
        }
    }

    /// Returns whether segment `msn`, or a later one, is finished (_HLS_msn, section 6.2.5.2), also if it has left the window. The end of the
    /// rendition finishes its last segment.
    pub fn holds_segment(&self, msn: u64) -> bool
        ensures { (items : List Item) → self.now ≡ compact self.now.settings items → result ≡ spec.holds_segment self.now.settings items msn }
    {
        let next = self.next_number();
        self.settings().first() < next && msn < next
    }

    /// Returns whether a request for segment `msn`, or for its part `part`, is too far ahead (section 6.2.5.2): the segment is more than two after
    /// the last one that has a part, or, before the first part, more than one after the first segment; or the part is of the open segment, and its
    /// index is past that of the last part by more than the Advance Part Limit.
    pub fn far(&self, msn: u64, part: Option<u64>) -> bool
        ensures { (items : List Item) → self.now ≡ compact self.now.settings items → result ≡ spec.far self.now.settings items msn part }
    {
        self.far_segment(msn) || self.far_part(msn, part)
    }

    /// Returns whether segment `msn` is too far ahead.
    fn far_segment(&self, msn: u64) -> bool
        ensures { result ≡ nat_lt (number_after_last self.now.settings self.now.last + 1) msn }
    {
        match self.last() {
            Some(last) => 2 < msn.saturating_sub(last.number),
            None => 1 < msn.saturating_sub(self.settings().first()),
        }
    }

    /// Returns whether part `part` of segment `msn` is too far ahead in the open segment; `None` never is.
    fn far_part(&self, msn: u64, part: Option<u64>) -> bool
        ensures { result ≡ spec.far_part self.now.settings self.now.next_number self.now.open_parts msn part }
    {
        match part {
            Some(part) => msn == self.next_number() && self.is_past(part),
            None => false,
        }
    }

    /// Returns whether `part` is past the index of the last open part by more than the Advance Part Limit. Without an open part it isn't.
    fn is_past(&self, part: u64) -> bool
        ensures { result ≡ is_past (spec.advance_limit self.now.settings) self.now.open_parts part }
    {
        let count = self.open_parts().len() as u64;
        0 < count && count + advance_limit(self.settings()) <= part
    }
}

/// Returns the Advance Part Limit: how many parts make three seconds, rounded down, or three if the part target duration is a second or longer.
fn advance_limit(settings: &Settings) -> u64
    ensures value { result ≡ spec.advance_limit settings.now }
    ensures high { result ≤ 300 }
{
    let part_target = settings.part_target();
    if part_target < 1_000_000 {
        3_000_000 / part_target
    } else {
        3
    }
}
