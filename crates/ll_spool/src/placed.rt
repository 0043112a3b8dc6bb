//! Which bytes of a spool are those of which items.
ghost use Rattle.std.specs.Prelude.{◌≡◌, ◌++◌, IfOk, IfSome, List, OnOk, Some, slice_get};
ghost use Rattle.std.specs.List.Sorted.{IsPermutation};
ghost use Rattle.ll_layout.specs.Held.{stored};
ghost use Rattle.ll_spool.specs.Placed.{placed_from, placed_in};

use ll_layout::{Extent, Layout, StoredItem};
use std::alloc::{AllocError, Global};

/// The bytes of an item, among those of its rendition.
#[derive(Clone, Copy)]
pub(crate) struct PlacedItem {
    /// The item's rendition.
    pub(crate) rendition: usize,
    /// Its number, and where its bytes are.
    pub(crate) stored: StoredItem,
}

/// Returns the bytes that may still be asked for of the renditions with `layouts`, in the order of their items.
pub(crate) fn stored_in(alloc: Global, layouts: &[Layout]) -> Result<Vec<PlacedItem>, AllocError>
    ensures { IfOk result (λ all. IsPermutation (placed_from 0 layouts.now) all.items) }
{
    let mut all = all_stored(alloc, layouts)?;
    all.sort_unstable_by_key(|placed: &PlacedItem| placed.stored.count);
    Ok(all)
}

/// Returns the bytes that may still be asked for of the renditions with `layouts`, one rendition after another.
fn all_stored(alloc: Global, layouts: &[Layout]) -> Result<Vec<PlacedItem>, AllocError>
    ensures { IfOk result (λ all. all.items ≡ placed_from 0 layouts.now) }
{
    let mut all = Vec::new(alloc);
    for (rendition, layout) in layouts.iter().enumerate() {
        push_layout(alloc, rendition, layout, &mut all)?;
    }
    Ok(all)
}

/// Appends the bytes that may still be asked for of `rendition`, whose layout is `layout`, to `all`.
fn push_layout(
    alloc: Global,
    rendition: usize,
    layout: &Layout,
    all: &mut Vec<PlacedItem>,
) -> Result<(), AllocError>
    ensures { OnOk result (all.new.items ≡ all.old.items ++ placed_in rendition (stored layout.now)) }
{
    let mut own = Vec::new(alloc);
    layout.push_stored(&mut own)?;
    push_all(rendition, &own, all)
}

/// Appends the bytes `own` of `rendition` to `all`.
fn push_all(
    rendition: usize,
    own: &[StoredItem],
    all: &mut Vec<PlacedItem>,
) -> Result<(), AllocError>
    ensures { OnOk result (all.new.items ≡ all.old.items ++ placed_in rendition own.now) }
{
    for stored in own {
        all.push(PlacedItem {
            rendition,
            stored: *stored,
        })?;
    }
    Ok(())
}

/// Returns where the bytes of the item of the number `count` are, which is of `rendition`, if these are `next`.
pub(crate) fn place_of(
    count: u64,
    rendition: usize,
    all: &[PlacedItem],
    next: usize,
) -> Option<Extent>
    ensures { IfSome result (λ place. slice_get all.now next ≡ Some (record { rendition = rendition; stored = record { count = count; place = place } })) }
{
    match all.get(next) {
        Some(placed) if placed.stored.count == count && placed.rendition == rendition => {
            Some(placed.stored.place)
        }
        _ => None,
    }
}
