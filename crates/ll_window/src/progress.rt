//! The counts and times of a rendition from which its next part goes on.
ghost use Rattle.std.specs.Prelude.{◌≡◌, ◌+◌, ◌<◌, ◌≤◌, ◌^◌};
ghost use Rattle.ll_window.specs.Compact.{breaks_next};
ghost use Rattle.ll_window.specs.Rows.{row};
ghost use Rattle.ll_window.specs.Segments.{duration};
ghost use Rattle.ll_window.specs.Rows as spec;
ghost use Rattle.ll_window.specs.Kept.{grown};
ghost use Rattle.ll_window.specs.Kept as kept;

use crate::part_position::PartPosition;
use crate::segment::Segment;
use ll_item::Part;

/// The counts and times of a rendition from which its next part goes on.
#[derive(Clone, Copy)]
pub(crate) struct Progress {
    /// The Media Sequence Number of the open segment, or of the next one if none is open.
    pub(crate) next_number: u64,
    /// The number of finished segments that are broken.
    pub(crate) maps: u64,
    /// The time at which the open segment begins; if none is open, at which the next one begins unless a break sets its time. In microseconds
    /// since 1970-01-01T00:00:00Z.
    pub(crate) open_time: u64,
    /// The duration of the open segment, in microseconds.
    pub(crate) open_duration: u64,
    /// The duration of all parts together, in microseconds.
    pub(crate) end_time: u64,
    /// Whether a break came after the last part.
    pub(crate) pending: bool,
    /// The time that a break after the last part set, if one did: milliseconds since 1970-01-01T00:00:00Z.
    pub(crate) restart: Option<u64>,
    /// The position of the last part, if there is one.
    pub(crate) last: Option<PartPosition>,
    /// Whether the rendition has ended.
    pub(crate) ended: bool,
}

impl Progress {
    /// Returns the open segment, whose parts are `parts`.
    pub(crate) fn segment(&self, parts: &[Part]) -> Segment
        requires lasts { self.now.open_duration ≡ duration parts.now }
        requires few { self.now.maps + 1 < 2 ^ 64 }
        ensures { result ≡ (row self.now.next_number self.now.maps self.now.open_time parts.now).segment }
    {
        let broken = is_broken(parts);
        Segment {
            number: self.next_number,
            broken,
            map_number: if broken { self.maps + 1 } else { self.maps },
            time: self.open_time,
            duration: self.open_duration,
        }
    }

    /// Returns the map number of the segment that the next part belongs to. The parts of the open segment are `parts`.
    pub(crate) fn map_number(&self, parts: &[Part]) -> u64
        requires few { self.now.maps + 2 < 2 ^ 64 }
        ensures { result ≡ self.now.maps + spec.one_if (spec.is_broken parts.now) + spec.one_if self.now.pending }
    {
        self.maps + one_if(is_broken(parts)) + one_if(self.pending)
    }

    /// Returns whether the open segment, whose parts are `parts`, is broken; if there are none, whether the next segment would be.
    pub(crate) fn breaks(&self, parts: &[Part]) -> bool
        ensures { result ≡ breaks_next parts.now self.now.pending }
    {
        match parts.first() {
            Some(part) => part.after_break,
            None => self.pending,
        }
    }

    /// Returns the progress with one more part, of `micros` microseconds at `place`, in an open segment that begins at `time`.
    pub(crate) fn with_part(self, time: u64, micros: u64, place: PartPosition) -> Progress
        requires open { self.open_duration + micros < 2 ^ 64 }
        requires end { self.end_time + micros < 2 ^ 64 }
        ensures { result ≡ grown self time micros place }
    {
        Progress {
            open_time: time,
            open_duration: self.open_duration + micros,
            end_time: self.end_time + micros,
            pending: false,
            restart: None,
            last: Some(place),
            ..self
        }
    }

    /// Returns the progress after the open segment was finished as `segment`.
    pub(crate) fn after(self, segment: Segment) -> Progress
        requires number { self.next_number + 1 < 2 ^ 64 }
        requires time { self.open_time + segment.duration < 2 ^ 64 }
        ensures { result ≡ kept.after self segment }
    {
        Progress {
            next_number: self.next_number + 1,
            maps: segment.map_number,
            open_time: self.open_time + segment.duration,
            open_duration: 0,
            ..self
        }
    }
}

/// Returns 1 if `so`, else 0.
pub(crate) fn one_if(so: bool) -> u64
    ensures value { result ≡ spec.one_if so }
    ensures few { result ≤ 1 }
{
    if so { 1 } else { 0 }
}

/// Returns whether a segment of `parts` is broken.
pub(crate) fn is_broken(parts: &[Part]) -> bool
    ensures { result ≡ spec.is_broken parts.now }
{
    match parts.first() {
        Some(part) => part.after_break,
        None => false,
    }
}
