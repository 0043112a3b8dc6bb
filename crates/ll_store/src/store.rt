//! The bytes that are kept of a rendition.
ghost use Rattle.std.specs.Prelude.{◌≡◌, ◌+◌, ◌<◌, ◌≤◌, ◌^◌, ◌++◌, ◌∷◌, [], OnOk, ◌==◌, filter, length, nat_le, not, true, vec_capacity, vec_len};
ghost use Rattle.std.specs.List.{concat};
ghost use Rattle.std.specs.VecDeque.{deque_capacity, deque_len};
ghost use Rattle.ll_settings.specs.Settings.{Configuration};
ghost use Rattle.ll_store.specs.Media.{last_of, store};
ghost use Rattle.ll_store.specs.Sections.{with_section};
ghost use Rattle.ll_store.specs.Step.{closed, grown, trimmed};
ghost use Rattle.ll_store.specs.declared.segment.Section.{Section as SectionValue};

use crate::brought::Brought;
use crate::segment::{Section, SegmentMedia};
use ll_item::Media;
use ll_window::Window;
use std::alloc::{AllocError, Global};
use std::collections::VecDeque;
use std::marker::Model;
use std::mem;

/// The number of bytes from which on an open segment takes no more parts.
const SIZE_END: u64 = 1 << 63;

/// The bytes that are kept of a rendition: those of the segments of the window and of the open one, and the Media Initialization Sections that are in
/// force at one of these or have the map number of one announced now. What leaves the window is dropped.
pub struct Store {
    alloc: Global,
    pub(crate) window: VecDeque<SegmentMedia>,
    pub(crate) unfinished: Vec<Media>,
    /// The number of bytes of the open segment.
    unfinished_size: u64,
    pub(crate) sections: Vec<Section>,
}

/// Crates that drop a store prove nothing of what is in it.
impl Drop for Store {
    fn drop(self) {
        let Store {
            alloc: _,
            window: _window,
            unfinished: _unfinished,
            unfinished_size: _,
            sections: _sections,
        } = self;
    }
}

impl Model for Store {
    ghost use Rattle.std.specs.Prelude.{◌≡◌, ◌^◌, length, vec_capacity, vec_len};
    ghost use Rattle.std.specs.List.{concat};
    ghost use Rattle.std.specs.VecDeque.{deque_capacity, deque_len};
    ghost use Rattle.ll_store.specs.Stock.{Stock, is_ready};

    ghost Value = { Stock };

    ghost view = { λ s. record {
      kept = record { window = s.window.items; unfinished = s.unfinished.items; sections = s.sections.items };
      ready = is_ready (deque_len s.window) (deque_capacity s.window) (vec_len s.unfinished) (vec_capacity s.unfinished) (vec_len s.sections) (vec_capacity s.sections) s.unfinished_size;
    } };

    ghost invariant = { λ s. s.unfinished_size ≡ length (concat s.unfinished.items) };
}

impl Store {
    /// Returns the store before the first item, which takes no memory.
    pub fn new(alloc: Global) -> Store
        ensures { (c : Configuration) → result.kept ≡ store c [] }
    {
        Store {
            alloc,
            window: VecDeque::new(alloc),
            unfinished: Vec::new(alloc),
            unfinished_size: 0,
            sections: Vec::new(alloc),
        }
    }

    /// Reserves memory for what one more item adds. It fails too if the open segment has 2^63 bytes or more.
    pub fn reserve(&mut self) -> Result<(), AllocError>
        ensures ready { OnOk result (self.new.ready ≡ true) }
        ensures unchanged { self.new.kept ≡ self.old.kept }
    {
        if self.unfinished_size >= SIZE_END {
            return Err(AllocError);
        }
        self.window.reserve(1)?;
        self.unfinished.reserve(1)?;
        self.sections.reserve(1)
    }

    /// Adds `brought` of an accepted item, after `reserve`, and drops what has left the window. `map` is the map number that an initialization
    /// section gets if the item is one, and `window` the window after the item. It takes no memory.
    pub fn accept(&mut self, brought: Brought, map: u64, window: &Window)
        requires { self.old.ready ≡ true }
        ensures { self.new.kept ≡ trimmed window.now (grown map self.old.kept brought) }
    {
        let Store {
            alloc,
            window: segments,
            unfinished,
            unfinished_size: size,
            sections,
        } = self;
        match brought {
            Brought::Part { media, finish } => {
                add(unfinished, size, media);
                if finish {
                    close(*alloc, segments, unfinished, size);
                }
            }
            Brought::Section { media } => set(sections, map, media),
            Brought::Closes => close(*alloc, segments, unfinished, size),
            Brought::Nothing => {}
        }
        keep_last(segments, window.segment_count());
        keep_from(sections, window.first_map_number());
    }
}

/// Adds a part to the open segment, which has `size` bytes.
#[tactic(auto, using(crate::proofs::Sizes::size_grown))]
fn add(unfinished: &mut Vec<Media>, size: &mut u64, media: Media)
    requires room { vec_len unfinished.old < vec_capacity unfinished.old }
    requires few { size.old < 2 ^ 63 }
    requires sized { size.old ≡ length (concat unfinished.old.items) }
    ensures added { unfinished.new.items ≡ unfinished.old.items ++ media ∷ [] }
    ensures sized { size.new ≡ length (concat unfinished.new.items) }
{
    *size += media.len();
    unfinished.push_reserved(media);
}

/// Finishes the open segment, which has `size` bytes, if it has a part.
fn close(
    alloc: Global,
    segments: &mut VecDeque<SegmentMedia>,
    unfinished: &mut Vec<Media>,
    size: &mut u64,
)
    requires room { deque_len segments.old < deque_capacity segments.old }
    requires sized { size.old ≡ length (concat unfinished.old.items) }
    ensures segments { segments.new.items ≡ segments.old.items ++ closed unfinished.old.items }
    ensures emptied { unfinished.new.items ≡ [] }
    ensures sized { size.new ≡ 0 }
{
    if unfinished.is_empty() {
        return;
    }
    let parts = mem::replace(unfinished, Vec::new(alloc));
    let size = mem::replace(size, 0);
    if segments.push_back(SegmentMedia { parts, size }).is_err() {
        unreachable!();
    }
}

/// Sets the section with the map number `number`, which replaces an earlier one.
fn set(sections: &mut Vec<Section>, number: u64, bytes: Media)
    requires { vec_len sections.old < vec_capacity sections.old }
    ensures { sections.new.items ≡ with_section number bytes sections.old.items }
{
    sections.retain(
        |section: &Section| -> bool
            ensures { result ≡ not (section.now.number == number) }
        { section.number != number },
    );
    sections.push_reserved(Section { number, bytes });
}

/// Drops all but the last `count` segments.
#[tactic(auto, using(crate::proofs::Last::last_shorter, crate::proofs::Last::last_all))]
fn keep_last(segments: &mut VecDeque<SegmentMedia>, count: usize)
    ensures { segments.new.items ≡ last_of count segments.old.items }
{
    while count < segments.len() {
        segments.pop_front();
    }
}

/// Drops the sections with map numbers below `least`.
fn keep_from(sections: &mut Vec<Section>, least: u64)
    ensures { sections.new.items ≡ filter (λ (s : SectionValue). nat_le least s.number) sections.old.items }
{
    sections.retain(
        |section: &Section| -> bool
            ensures { result ≡ nat_le least section.now.number }
        { least <= section.number },
    );
}
