//! Where the bytes of a rendition's items are kept.
ghost use Rattle.std.specs.Prelude.{◌≡◌, ◌≢◌, ◌≤◌, ◌+◌, ◌^◌, ◌++◌, ◌∷◌, [], ◌==◌, ◌&&◌, ℕ, List, IfErr, IfOk, IsErrOf, None, OnOk, Option, length};
ghost use Rattle.std.specs.Arc.{arc_value};
ghost use Rattle.ll_item.specs.Items.{media_of};
ghost use Rattle.ll_item.specs.declared.item.Item.{Item as ItemValue};
ghost use Rattle.ll_layout.specs.Held as spec;
ghost use Rattle.ll_layout.specs.Held.{Each, Holds, IsWithin, sections_size, sections_text, stored};
ghost use Rattle.ll_layout.specs.Moves.{added, has_bytes, next_stored, now_on, with_part, with_section, without_gone};
ghost use Rattle.ll_layout.specs.declared.side.Side.{Side as SideValue};
ghost use Rattle.ll_layout.specs.declared.stored.StoredItem.{StoredItem as StoredValue};
ghost use Rattle.ll_layout.specs.declared.stored.StoredSection.{StoredSection as SectionValue};
ghost use Rattle.ll_window.specs.Compact.{compact, map_now};
ghost use Rattle.ll_window.specs.Refusal.{refusal};

use crate::bytes::media_of;
use crate::fault::AddFault;
use crate::moves::{
    append, drop_before, first_shown, grown, keep_from, place_sections, push, push_parts,
    push_sections, set,
};
use crate::side::Side;
use crate::stored::{Extent, KeptPart, StoredItem, StoredSection};
use ll_item::{Item, PartItem};
use ll_settings::Settings;
use ll_window::Window;
use std::alloc::{AllocError, Global};
use std::collections::VecDeque;
use std::marker::Model;
use std::mem;

/// Where the bytes of a rendition's items are kept.
///
/// Bytes are appended to one side, the current one. Once none of the other side's may be asked for any more, the next item with bytes turns
/// to that side, which is emptied first. So all bytes that may be asked for are on the two sides, and these have those of some two windows.
/// A section may be asked for much longer than parts. So all sections that may still be asked for are written again at the front of a side
/// that becomes the current one.
///
/// This depends on the items alone, so a start finds it by reading their lines.
pub struct Layout {
    alloc: Global,
    window: Window,
    /// The current side.
    side: Side,
    /// The number of its bytes.
    end: u64,
    /// The number of the other side's bytes.
    end_before: u64,
    /// The parts on the other side whose bytes may still be asked for.
    older: VecDeque<KeptPart>,
    /// The same on the current side.
    newer: VecDeque<KeptPart>,
    /// The sections that may still be asked for, all on the current side.
    sections: Vec<StoredSection>,
}

impl Drop for Layout {
    fn drop(self) {
        let Layout {
            alloc: _,
            window: _window,
            side: _side,
            end: _,
            end_before: _,
            older: _older,
            newer: _newer,
            sections: _sections,
        } = self;
    }
}

impl Model for Layout {
    ghost use Rattle.ll_layout.specs.Held.{LayoutValue};
    ghost use Rattle.ll_layout.specs.Moves.{IsTidy};

    ghost Value = { LayoutValue };

    ghost view = { λ l. record {
      window = l.window;
      side = l.side;
      end = l.end;
      end_before = l.end_before;
      older = l.older.items;
      newer = l.newer.items;
      sections = l.sections.items;
    } };

    ghost invariant = { λ l. IsTidy l.side l.end l.end_before l.older.items l.newer.items l.sections.items };
}

impl Layout {
    /// Returns the layout of a rendition without items, whose channel has `settings`.
    pub fn new(alloc: Global, settings: &Settings) -> Result<Layout, AllocError>
        ensures { IfOk result (λ l. l ≡ spec.begun settings.now) }
    {
        Ok(Layout {
            alloc,
            window: Window::new(alloc, settings)?,
            side: Side::A,
            end: 0,
            end_before: 0,
            older: VecDeque::new(alloc),
            newer: VecDeque::new(alloc),
            sections: Vec::new(alloc),
        })
    }

    /// Returns the current side.
    pub fn side(&self) -> Side
        ensures { result ≡ self.now.side }
    {
        self.side
    }

    /// Returns the number of bytes of `side` that have all of its bytes that may still be asked for.
    pub fn size(&self, side: Side) -> u64
        ensures value { result ≡ spec.size self.now side }
        ensures inside { Each (λ (s : StoredValue). s.place.side ≡ side → s.place.offset + s.place.length ≤ result) (stored self.now) }
    {
        if side == self.side {
            self.end
        } else if self.older.is_empty() {
            0
        } else {
            self.end_before
        }
    }

    /// Returns whether `item` has bytes, and the other side is to be the current one before they are written.
    pub fn turns_for(&self, item: &Item) -> bool
        ensures { result ≡ (has_bytes item.now && (length self.now.older == 0)) }
    {
        media_of(item).is_some() && self.older.is_empty()
    }

    /// Makes the other side, of which no bytes may be asked for any more, the current one, with the sections at its front.
    ///
    /// # Errors
    ///
    /// `TooLarge` if they have too many bytes; `Memory`.
    pub fn turn(&mut self) -> Result<(), AddFault>
        requires { self.old.older ≡ [] }
        ensures turned { OnOk result (self.new ≡ now_on (spec.other self.old.side) self.old) }
        ensures fault { IfErr result (λ fault. fault ≢ AddFault.Refused) }
        ensures large { IsErrOf result AddFault.TooLarge → 2 ^ 63 ≤ sections_size self.old.sections }
        ensures holds { (files : SideValue → List ℕ) (of : ℕ → List ℕ) → Holds files of self.old
            → OnOk result (Holds (spec.with_file (spec.other self.old.side) (sections_text of self.old.sections) files) of self.new) }
    {
        let side = self.side.other();
        let sections = mem::replace(&mut self.sections, Vec::new(self.alloc));
        let (sections, end) = place_sections(self.alloc, sections, side)?;
        mem::swap(&mut self.older, &mut self.newer);
        self.end_before = self.end;
        self.side = side;
        self.end = end;
        self.sections = sections;
        Ok(())
    }

    /// Adds the rendition's accepted item of the number `count` in its channel, whose bytes, if any, come next on the current side.
    ///
    /// # Errors
    ///
    /// `Refused` if a rule of the rendition refuses it; `TooLarge` if the current side would have too many bytes; `Memory`.
    pub fn add(&mut self, count: u64, item: &Item) -> Result<(), AddFault>
        ensures window { (items : List ItemValue) → self.old.window ≡ compact self.old.window.settings items
            → OnOk result (self.new.window ≡ compact self.old.window.settings (items ++ item.now ∷ [])) }
        ensures refused { (items : List ItemValue) → self.old.window ≡ compact self.old.window.settings items
            → IsErrOf result AddFault.Refused → refusal self.old.window.settings items item.now ≢ None }
        ensures large { IsErrOf result AddFault.TooLarge → 2 ^ 63 ≤ self.old.end + length (media_of item.now) }
        ensures added { OnOk result (self.new ≡ added count item.now self.new.window self.old) }
        ensures holds { (files : SideValue → List ℕ) (of : ℕ → List ℕ) → Holds files of self.old → of count ≡ media_of item.now
            → OnOk result (Holds (spec.with_file self.old.side (files self.old.side ++ media_of item.now) files) of self.new) }
    {
        let (number, map) = (self.window.next_number(), self.window.map_number());
        push(&mut self.window, item)?;
        match item {
            Item::Part(PartItem { media, .. }) => self.add_part(number, count, media.len())?,
            Item::Init { media, .. } => self.add_section(map, count, media.len())?,
            Item::Finish { .. }
            | Item::Break { .. }
            | Item::End { .. }
            | Item::Range { .. }
            | Item::Unrange { .. } => {}
        }
        self.forget();
        Ok(())
    }

    /// Adds the `length` bytes of the part that is the item of the number `count`, in the segment of the Media Sequence Number `number`.
    fn add_part(&mut self, number: u64, count: u64, length: u64) -> Result<(), AddFault>
        ensures added { OnOk result (self.new ≡ with_part number count length self.old) }
        ensures fault { IfErr result (λ fault. fault ≢ AddFault.Refused) }
        ensures large { IsErrOf result AddFault.TooLarge → 2 ^ 63 ≤ self.old.end + length }
    {
        let end = grown(self.end, length)?;
        if length > 0 {
            let stored = self.next(count, length);
            append(&mut self.newer, KeptPart { number, stored })?;
        }
        self.end = end;
        Ok(())
    }

    /// Adds the `length` bytes of the section that is the item of the number `count`, with the map number `map`.
    fn add_section(&mut self, map: u64, count: u64, length: u64) -> Result<(), AddFault>
        ensures added { OnOk result (self.new ≡ with_section map count length self.old) }
        ensures fault { IfErr result (λ fault. fault ≢ AddFault.Refused) }
        ensures large { IsErrOf result AddFault.TooLarge → 2 ^ 63 ≤ self.old.end + length }
    {
        let end = grown(self.end, length)?;
        let stored = self.next(count, length);
        set(&mut self.sections, StoredSection { map, stored })?;
        self.end = end;
        Ok(())
    }
}

impl Layout {
    /// Returns where the `length` bytes of the item of the number `count` are if they come next.
    fn next(&self, count: u64, length: u64) -> StoredItem
        ensures { result ≡ next_stored count length self.now }
    {
        let place = Extent {
            side: self.side,
            offset: self.end,
            length,
        };
        StoredItem { count, place }
    }

    /// Drops all bytes that may not be asked for any more: those of parts whose segments have left the window, and of sections in force at none.
    fn forget(&mut self)
        ensures { self.new ≡ without_gone self.old }
    {
        let first = first_shown(&self.window);
        drop_before(&mut self.older, first);
        if self.older.is_empty() {
            drop_before(&mut self.newer, first);
        }
        keep_from(&mut self.sections, self.window.first_map_number());
    }

    /// Returns the sections that may still be asked for.
    pub fn sections(&self) -> &[StoredSection]
        ensures value { result.now ≡ self.now.sections }
        ensures within { Each (λ (s : SectionValue). IsWithin self.now.side self.now.end s.stored) result.now }
    {
        &self.sections
    }

    /// Appends all bytes that may still be asked for to `out`.
    pub fn push_stored(&self, out: &mut Vec<StoredItem>) -> Result<(), AllocError>
        ensures { OnOk result (out.new.items ≡ out.old.items ++ stored self.now) }
    {
        push_parts(&self.older, out)?;
        push_parts(&self.newer, out)?;
        push_sections(&self.sections, out)?;
        Ok(())
    }
}
