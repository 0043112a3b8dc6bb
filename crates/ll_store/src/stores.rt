//! The bytes that are kept of all renditions of a channel. Stores and renditions are in the order of the settings.
ghost use Rattle.std.specs.Prelude.{◌≡◌, [], IfOk, MatchOption, None, OnOk, Some, true};
ghost use Rattle.ll_item.specs.Items.{rendition_of};
ghost use Rattle.ll_store.specs.Step.{brought_by};
ghost use Rattle.ll_store.specs.Stores as spec;
ghost use Rattle.ll_store.specs.Stores.{all_kept, is_ready_at, media_at, stores, stores_with};

use crate::arrival::Arrival;
use crate::blocks::Found;
use crate::brought::Brought;
use crate::store::Store;
use ll_item::{Item, What};
use ll_rendition::Rendition;
use ll_settings::Settings;
use std::alloc::{AllocError, Global};

/// Returns a store without items for each rendition of `settings`.
pub fn new_stores(alloc: Global, settings: &Settings) -> Result<Vec<Store>, AllocError>
    ensures { IfOk result (λ made. all_kept made.items ≡ stores settings.now []) }
{
    let names = settings.renditions();
    let mut made = Vec::with_capacity(alloc, names.len())?;
    for _name in names {
        made.push(Store::new(alloc))?;
    }
    Ok(made)
}

/// Returns what `item` adds, and reserves memory for it. `renditions` is what is kept before the item.
pub fn expect(
    stores: &mut Vec<Store>,
    renditions: &[Rendition],
    item: &Item,
) -> Result<Arrival, AllocError>
    ensures unchanged { all_kept stores.new.items ≡ all_kept stores.old.items }
    ensures ready { IfOk result (λ a. is_ready_at a.rendition stores.new.items ≡ true) }
    ensures rendition { IfOk result (λ a. a.rendition ≡ rendition_of item.now) }
    ensures map { IfOk result (λ a. a.map ≡ spec.map_at (rendition_of item.now) renditions.now) }
    ensures brought { IfOk result (λ a. a.brought ≡ brought_by item.now) }
{
    let rendition = item.rendition();
    let brought = Brought::by(item)?;
    reserve_at(stores, rendition)?;
    let map = map_at(renditions, rendition);
    Ok(Arrival {
        rendition,
        map,
        brought,
    })
}

/// Adds `arrival` of an accepted item, which `expect` has returned. `renditions` is what is kept after the item. It takes no memory.
pub fn arrive(stores: &mut Vec<Store>, arrival: Arrival, renditions: &[Rendition])
    requires { is_ready_at arrival.rendition stores.old.items ≡ true }
    ensures { all_kept stores.new.items ≡ stores_with arrival renditions.now (all_kept stores.old.items) }
{
    let Arrival {
        rendition,
        map,
        brought,
    } = arrival;
    let Some(kept) = renditions.get(rendition) else {
        return;
    };
    if let Some(store) = stores.get_mut(rendition) {
        store.accept(brought, map, &kept.window);
    }
}

/// Returns the bytes of `what` in the rendition with the index `rendition`, or `None` if they aren't there.
pub fn find_at<'a>(
    renditions: &[Rendition],
    stores: &'a [Store],
    rendition: usize,
    what: What,
) -> Option<Found<'a>>
    ensures { MatchOption result (media_at renditions.now (all_kept stores.now) rendition what ≡ None)
        (λ found. media_at renditions.now (all_kept stores.now) rendition what ≡ Some found) }
{
    let kept = renditions.get(rendition)?;
    let store = stores.get(rendition)?;
    store.find(&kept.window, what)
}

/// Reserves memory in the store at `place` for what one more item adds.
fn reserve_at(stores: &mut Vec<Store>, place: usize) -> Result<(), AllocError>
    ensures unchanged { all_kept stores.new.items ≡ all_kept stores.old.items }
    ensures ready { OnOk result (is_ready_at place stores.new.items ≡ true) }
{
    match stores.get_mut(place) {
        Some(store) => store.reserve(),
        None => Ok(()),
    }
}

/// Returns the map number of a section that is announced now in the rendition at `place`.
fn map_at(renditions: &[Rendition], place: usize) -> u64
    ensures { result ≡ spec.map_at place renditions.now }
{
    match renditions.get(place) {
        Some(kept) => kept.window.map_number(),
        None => 0,
    }
}
