//! How what is kept of a rendition's bytes changes.
ghost use Rattle.std.specs.Prelude.{◌≡◌, ◌≢◌, ◌≤◌, ◌+◌, ◌^◌, ◌++◌, ◌∷◌, [], ◌==◌, IfErr, IfOk, IsErrOf, List, None, OnErr, OnOk, filter, length, map, nat_le, not};
ghost use Rattle.ll_item.specs.declared.item.Item.{Item as ItemValue};
ghost use Rattle.ll_layout.specs.Held.{sections_size};
ghost use Rattle.ll_layout.specs.Moves as spec;
ghost use Rattle.ll_layout.specs.declared.stored.KeptPart.{KeptPart as KeptPartValue};
ghost use Rattle.ll_layout.specs.declared.stored.StoredSection.{StoredSection as SectionValue};
ghost use Rattle.ll_window.specs.Compact.{compact};
ghost use Rattle.ll_window.specs.Refusal.{refusal};

use crate::fault::AddFault;
use crate::side::Side;
use crate::stored::{Extent, KeptPart, StoredItem, StoredSection};
use ll_item::Item;
use ll_window::{PushError, Window};
use std::alloc::{AllocError, Global};
use std::collections::VecDeque;

/// The number of bytes from which on a file takes no more.
const SIZE_END: u64 = 1 << 63;

/// Returns the number of bytes of a file of `end` bytes after `more`, or `TooLarge` if that is 2^63 or more.
pub(crate) fn grown(end: u64, more: u64) -> Result<u64, AddFault>
    ensures value { IfOk result (λ n. n ≡ end + more) }
    ensures fault { IfErr result (λ fault. (fault ≡ AddFault.TooLarge) × (2 ^ 63 ≤ end + more)) }
{
    match end.checked_add(more) {
        Some(all) if all < SIZE_END => Ok(all),
        _ => Err(AddFault::TooLarge),
    }
}

/// Returns `sections` with their bytes one after another at the front of `side`, and the number of these bytes.
pub(crate) fn place_sections(
    alloc: Global,
    sections: Vec<StoredSection>,
    side: Side,
) -> Result<(Vec<StoredSection>, u64), AddFault>
    ensures placed { IfOk result (λ r. (r.0.items ≡ spec.placed side 0 sections.items) × (r.1 ≡ sections_size sections.items)) }
    ensures fault { IfErr result (λ fault. fault ≢ AddFault.Refused) }
    ensures large { IsErrOf result AddFault.TooLarge → 2 ^ 63 ≤ sections_size sections.items }
{
    let mut placed = Vec::with_capacity(alloc, sections.len())?;
    let mut end = 0;
    for section in sections {
        let StoredSection { map, stored } = section;
        let place = Extent {
            side,
            offset: end,
            ..stored.place
        };
        end = grown(end, place.length)?;
        let stored = StoredItem { place, ..stored };
        add(&mut placed, StoredSection { map, stored })?;
    }
    Ok((placed, end))
}

/// Returns the Media Sequence Number of the first segment that a full playlist shows, or of the open one if it shows none.
pub(crate) fn first_shown(window: &Window) -> u64
    ensures { result ≡ spec.first_shown window.now }
{
    window
        .next_number()
        .saturating_sub(window.segment_count() as u64)
}

/// Drops the parts at the front of `parts` whose segments come before that of the number `first`.
pub(crate) fn drop_before(parts: &mut VecDeque<KeptPart>, first: u64)
    ensures { parts.new.items ≡ spec.shown_from first parts.old.items }
{
    while let Some(part) = parts.front() {
        if first <= part.number {
            return;
        }
        parts.pop_front();
    }
}

/// Adds `section`, which replaces an earlier one with its map number.
pub(crate) fn set(
    sections: &mut Vec<StoredSection>,
    section: StoredSection,
) -> Result<(), AllocError>
    ensures set { OnOk result (sections.new.items ≡ spec.and_section section sections.old.items) }
    ensures kept { OnErr result (sections.new.items ≡ spec.but_map section.map sections.old.items) }
{
    drop_map(sections, section.map);
    add(sections, section)
}

/// Drops the section with the map number `map`.
fn drop_map(sections: &mut Vec<StoredSection>, map: u64)
    ensures { sections.new.items ≡ spec.but_map map sections.old.items }
{
    sections.retain(
        |section: &StoredSection| -> bool
            ensures { result ≡ not (section.now.map == map) }
        { section.map != map },
    );
}

/// Appends `section`.
fn add(sections: &mut Vec<StoredSection>, section: StoredSection) -> Result<(), AllocError>
    ensures added { OnOk result (sections.new.items ≡ sections.old.items ++ section ∷ []) }
    ensures kept { OnErr result (sections.new.items ≡ sections.old.items) }
{
    sections.push(section)?;
    Ok(())
}

/// Appends `part`.
pub(crate) fn append(parts: &mut VecDeque<KeptPart>, part: KeptPart) -> Result<(), AllocError>
    ensures added { OnOk result (parts.new.items ≡ parts.old.items ++ part ∷ []) }
    ensures kept { OnErr result (parts.new.items ≡ parts.old.items) }
{
    parts.push_back(part)?;
    Ok(())
}

/// Drops the sections with map numbers below `least`.
pub(crate) fn keep_from(sections: &mut Vec<StoredSection>, least: u64)
    ensures { sections.new.items ≡ filter (λ (s : SectionValue). nat_le least s.map) sections.old.items }
{
    sections.retain(
        |section: &StoredSection| -> bool
            ensures { result ≡ nat_le least section.now.map }
        { least <= section.map },
    );
}

/// Adds `item` to `window`.
pub(crate) fn push(window: &mut Window, item: &Item) -> Result<(), AddFault>
    ensures accepted { (items : List ItemValue) → window.old ≡ compact window.old.settings items
        → OnOk result (window.new ≡ compact window.old.settings (items ++ item.now ∷ [])) }
    ensures refused { (items : List ItemValue) → window.old ≡ compact window.old.settings items
        → IsErrOf result AddFault.Refused → refusal window.old.settings items item.now ≢ None }
    ensures fault { IfErr result (λ fault. fault ≢ AddFault.TooLarge) }
{
    match window.push(item.copy()?) {
        Ok(()) => Ok(()),
        Err(PushError::Refused(_)) => Err(AddFault::Refused),
        Err(PushError::Memory) => Err(AddFault::Memory),
    }
}

/// Appends the places of the bytes of `parts` to `out`.
pub(crate) fn push_parts(
    parts: &VecDeque<KeptPart>,
    out: &mut Vec<StoredItem>,
) -> Result<(), AllocError>
    ensures { OnOk result (out.new.items ≡ out.old.items ++ map (λ (p : KeptPartValue). p.stored) parts.now.items) }
{
    for place in 0..parts.len() {
        out.push(parts[place].stored)?;
    }
    Ok(())
}

/// Appends the places of the bytes of `sections` to `out`.
pub(crate) fn push_sections(
    sections: &[StoredSection],
    out: &mut Vec<StoredItem>,
) -> Result<(), AllocError>
    ensures { OnOk result (out.new.items ≡ out.old.items ++ map (λ (s : SectionValue). s.stored) sections.now) }
{
    for section in sections {
        out.push(section.stored)?;
    }
    Ok(())
}
