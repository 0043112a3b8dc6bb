//! Finding the bytes that a request for media asks for.
ghost use Rattle.std.specs.Prelude.{◌≡◌, ◌++◌, ◌∷◌, [], MatchOption, None, Some, option_map, slice_get};
ghost use Rattle.std.specs.List.{concat};
ghost use Rattle.std.specs.Option.{option_and_then};
ghost use Rattle.ll_store.specs.Media as spec;
ghost use Rattle.ll_store.specs.Media.{media_in};
ghost use Rattle.ll_store.specs.Sections.{section_of};

use crate::blocks::Found;
use crate::store::Store;
use ll_item::What;
use ll_window::Window;

impl Store {
    /// Returns the bytes of `what` in a rendition whose window is `window`: of a segment of the window, of a part of one of these or of the open segment,
    /// or of a Media Initialization Section that is in force at one of these or has the map number of one announced now. Returns `None` for all else.
    pub fn find(&self, window: &Window, what: What) -> Option<Found<'_>>
        ensures { MatchOption result (media_in window.now self.now.kept what ≡ None) (λ found. media_in window.now self.now.kept what ≡ Some found) }
    {
        match what {
            What::Playlist => None,
            What::Segment(number) => self.segment(place_of(window, number)?),
            What::Part(number, index) => self.part(place_of(window, number)?, index),
            What::Init(number) => self.section(number),
        }
    }

    /// Returns the bytes of the segment at `place` in the window, from 0.
    fn segment(&self, place: u64) -> Option<Found<'_>>
        ensures { MatchOption result (option_map concat (slice_get self.now.kept.window place) ≡ None)
            (λ found. option_map concat (slice_get self.now.kept.window place) ≡ Some found) }
    {
        let segment = self.window.get(place as usize)?;
        Some(Found::of_parts(&segment.parts, segment.size))
    }

    /// Returns the bytes of part `index` of the segment at `place` in the window, from 0; the open segment has the place after the last.
    fn part(&self, place: u64, index: u64) -> Option<Found<'_>>
        ensures { MatchOption result (spec.part_at (self.now.kept.window ++ self.now.kept.unfinished ∷ []) place index ≡ None)
            (λ found. spec.part_at (self.now.kept.window ++ self.now.kept.unfinished ∷ []) place index ≡ Some found) }
    {
        let parts = match self.window.get(place as usize) {
            Some(segment) => &segment.parts,
            None if place == self.window.len() as u64 => &self.unfinished,
            None => return None,
        };
        Some(Found::one(parts.get(index as usize)?))
    }

    /// Returns the bytes of the section with the map number `number`.
    fn section(&self, number: u64) -> Option<Found<'_>>
        ensures { MatchOption result (section_of number self.now.kept.sections ≡ None) (λ found. section_of number self.now.kept.sections ≡ Some found) }
    {
        for section in &self.sections {
            if section.number == number {
                return Some(Found::one(&section.bytes));
            }
        }
        None
    }
}

/// Returns the place in the window of the segment with the Media Sequence Number `number`, or the place that it would have after the others; `None` if
/// it comes before the window.
fn place_of(window: &Window, number: u64) -> Option<u64>
    ensures { result ≡ spec.place_in window.now number }
{
    let first = window
        .next_number()
        .saturating_sub(window.segment_count() as u64);
    number.checked_sub(first)
}
