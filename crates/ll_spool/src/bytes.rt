//! The bytes of items are written to the files of their rendition.
ghost use Rattle.std.specs.Prelude.{◌≡◌, ◌≤◌, ◌+◌, ◌^◌, ◌++◌, [], IfErr, List, OnOk, length, ℕ};
ghost use Rattle.ll_item.specs.Items.{media_of as bytes_of};
ghost use Rattle.ll_item.specs.Media.{IsNumberAlone};
ghost use Rattle.ll_layout.specs.Held.{Each, other, sections_size, sections_text};
ghost use Rattle.ll_layout.specs.Moves.{now_on, room_for};
ghost use Rattle.ll_layout.specs.declared.stored.StoredSection.{StoredSection as SectionValue};
ghost use Rattle.ll_spool.specs.Files.{AreRestSame, IsChanged, IsHeldIn, IsReadAt, IsSourceOf};
ghost use Rattle.ll_spool.specs.Kept.{HasFailed, IsRefusedIn};
ghost use Rattle.ll_spool.specs.Layouts.{IsLaid};

use crate::disk::Disk;
use crate::fault::KeepFault;
use ll_item::Item;
use ll_layout::{Extent, Layout, Side, StoredSection, media_of};
use std::alloc::Global;

/// Writes the bytes of `item`, the item of the number `count` in its channel, to the files of its rendition, and adds it to `layout`.
pub(crate) fn keep_bytes<D: Disk>(
    alloc: Global,
    disk: &mut D,
    layout: &mut Layout,
    rendition: usize,
    count: u64,
    item: &Item,
) -> Result<(), KeepFault>
    ensures text { D.lines disk.new ≡ D.lines disk.old }
    ensures held { (of : ℕ → List ℕ) → IsHeldIn rendition of layout.old (D.files disk.old) → of count ≡ bytes_of item.now
        → OnOk result (IsHeldIn rendition of layout.new (D.files disk.new)) }
    ensures others { OnOk result (AreRestSame rendition (D.files disk.old) (D.files disk.new)) }
    ensures laid { OnOk result (IsLaid count item.now layout.old layout.new) }
    ensures steady { OnOk result (D.failures disk.new ≡ D.failures disk.old) }
    ensures failed { IfErr result (HasFailed (IsRefusedIn layout.old item.now) (D.failures disk.old) (D.failures disk.new)) }
{
    make_room(alloc, disk, layout, rendition, item)?;
    append_item(disk, rendition, layout.side(), item)?;
    layout.add(count, item)?;
    Ok(())
}

/// Makes the other side the current one, if it is to be that before the bytes of `item` are written.
fn make_room<D: Disk>(
    alloc: Global,
    disk: &mut D,
    layout: &mut Layout,
    rendition: usize,
    item: &Item,
) -> Result<(), KeepFault>
    ensures text { D.lines disk.new ≡ D.lines disk.old }
    ensures held { (of : ℕ → List ℕ) → IsHeldIn rendition of layout.old (D.files disk.old) → OnOk result (IsHeldIn rendition of layout.new (D.files disk.new)) }
    ensures others { OnOk result (AreRestSame rendition (D.files disk.old) (D.files disk.new)) }
    ensures laid { OnOk result (layout.new ≡ room_for item.now layout.old) }
    ensures steady { OnOk result (D.failures disk.new ≡ D.failures disk.old) }
    ensures failed { IfErr result (HasFailed (2 ^ 63 ≤ sections_size layout.old.sections) (D.failures disk.old) (D.failures disk.new)) }
{
    if layout.turns_for(item) {
        return turn(alloc, disk, layout, rendition);
    }
    Ok(())
}

/// Empties the other side, writes the sections to it, and makes it the current one.
fn turn<D: Disk>(
    alloc: Global,
    disk: &mut D,
    layout: &mut Layout,
    rendition: usize,
) -> Result<(), KeepFault>
    requires { layout.old.older ≡ [] }
    ensures text { D.lines disk.new ≡ D.lines disk.old }
    ensures held { (of : ℕ → List ℕ) → IsHeldIn rendition of layout.old (D.files disk.old) → OnOk result (IsHeldIn rendition of layout.new (D.files disk.new)) }
    ensures others { OnOk result (AreRestSame rendition (D.files disk.old) (D.files disk.new)) }
    ensures turned { OnOk result (layout.new ≡ now_on (other layout.old.side) layout.old) }
    ensures steady { OnOk result (D.failures disk.new ≡ D.failures disk.old) }
    ensures failed { IfErr result (HasFailed (2 ^ 63 ≤ sections_size layout.old.sections) (D.failures disk.old) (D.failures disk.new)) }
{
    let side = layout.side().other();
    disk.clear(rendition, side)?;
    copy_sections(alloc, disk, rendition, side, layout.sections())?;
    layout.turn()?;
    Ok(())
}

/// Appends the bytes of `sections`, which are on the other side, to the file of `side` of `rendition`.
fn copy_sections<D: Disk>(
    alloc: Global,
    disk: &mut D,
    rendition: usize,
    side: Side,
    sections: &[StoredSection],
) -> Result<(), KeepFault>
    ensures text { D.lines disk.new ≡ D.lines disk.old }
    ensures copied { (of : ℕ → List ℕ) → Each (λ (s : SectionValue). IsSourceOf rendition side of s.stored (D.files disk.old)) sections.now
        → OnOk result (IsChanged rendition side (λ file. file ++ sections_text of sections.now) (D.files disk.old) (D.files disk.new)) }
    ensures others { OnOk result (AreRestSame rendition (D.files disk.old) (D.files disk.new)) }
    ensures steady { OnOk result (D.failures disk.new ≡ D.failures disk.old) }
    ensures failed { IfErr result (HasFailed ⊥ (D.failures disk.old) (D.failures disk.new)) }
{
    for section in sections {
        copy(alloc, disk, rendition, side, section.stored.place)?;
    }
    Ok(())
}

/// Appends the bytes at `place`, which is on the other side, to the file of `side` of `rendition`.
fn copy<D: Disk>(
    alloc: Global,
    disk: &mut D,
    rendition: usize,
    side: Side,
    place: Extent,
) -> Result<(), KeepFault>
    ensures text { D.lines disk.new ≡ D.lines disk.old }
    ensures copied { (bytes : List ℕ) → length bytes ≡ place.length → IsReadAt (D.files disk.old) rendition place bytes
        → OnOk result (IsChanged rendition side (λ file. file ++ bytes) (D.files disk.old) (D.files disk.new)) }
    ensures others { OnOk result (AreRestSame rendition (D.files disk.old) (D.files disk.new)) }
    ensures steady { OnOk result (D.failures disk.new ≡ D.failures disk.old) }
    ensures failed { IfErr result (HasFailed ⊥ (D.failures disk.old) (D.failures disk.new)) }
{
    let mut bytes = vec![in alloc; 0; place.length as usize]?;
    if !disk.read(rendition, place, &mut bytes) {
        return Err(KeepFault::Lost);
    }
    disk.append(rendition, side, &bytes)?;
    Ok(())
}

/// Appends the bytes of `item`, if it has some, to the file of `side` of `rendition`. Fails if only their number is known.
fn append_item<D: Disk>(
    disk: &mut D,
    rendition: usize,
    side: Side,
    item: &Item,
) -> Result<(), KeepFault>
    ensures text { D.lines disk.new ≡ D.lines disk.old }
    ensures appended { OnOk result (IsChanged rendition side (λ file. file ++ bytes_of item.now) (D.files disk.old) (D.files disk.new)) }
    ensures steady { OnOk result (D.failures disk.new ≡ D.failures disk.old) }
    ensures failed { IfErr result (HasFailed (IsNumberAlone (bytes_of item.now)) (D.failures disk.old) (D.failures disk.new)) }
{
    let Some(media) = media_of(item) else {
        return Ok(());
    };
    match media.bytes() {
        Some(bytes) => {
            disk.append(rendition, side, bytes)?;
            Ok(())
        }
        None => Err(KeepFault::Refused),
    }
}
