//! Where the bytes of a spool's items are: as their lines say, one after another.
ghost use Rattle.std.specs.Prelude.{◌≡◌, ◌<◌, ◌^◌, ◌+◌, ◌++◌, ◌∷◌, [], IfOk, List, OnOk, length};
ghost use Rattle.ll_item.specs.declared.item.Item.{Item as ItemValue};
ghost use Rattle.ll_layout.specs.Moves.{room_for};
ghost use Rattle.ll_settings.specs.Settings.{Configuration};
ghost use Rattle.ll_spool.specs.Layouts.{IsLaid, layouts_after};
ghost use Rattle.ll_spool.specs.Placed.{IsFollowed, IsSurveyed};
ghost use Rattle.ll_spool.specs.Spooled.{lines_in};

use crate::fault::RestoreFault;
use crate::line::{bad, read_line};
use crate::lines::Lines;
use ll_item::Item;
use ll_layout::{AddFault, Layout};
use ll_settings::Settings;
use std::alloc::{AllocError, Global};

/// Returns the layouts of the renditions of a channel without items.
pub(crate) fn begun(alloc: Global, settings: &Settings) -> Result<Vec<Layout>, AllocError>
    ensures { IfOk result (λ layouts. layouts.items ≡ layouts_after settings.now []) }
{
    let names = settings.renditions();
    let mut layouts = Vec::with_capacity(alloc, names.len())?;
    for _name in names {
        layouts.push(Layout::new(alloc, settings)?)?;
    }
    Ok(layouts)
}

/// Returns the layouts of the renditions after the items of `text`.
pub(crate) fn survey(
    alloc: Global,
    settings: &Settings,
    text: &[u8],
) -> Result<Vec<Layout>, RestoreFault>
    ensures { IfOk result (λ layouts. IsSurveyed settings.now (lines_in text.now) layouts.items) }
{
    let mut layouts = begun(alloc, settings)?;
    match follow_all(&mut layouts, alloc, settings, text) {
        Ok(()) => Ok(layouts),
        Err(fault) => Err(fault),
    }
}

/// Adds the items of `text`, all of their channel, to the layouts of its renditions, which have none.
fn follow_all(
    layouts: &mut Vec<Layout>,
    alloc: Global,
    settings: &Settings,
    text: &[u8],
) -> Result<(), RestoreFault>
    ensures { layouts.old.items ≡ layouts_after settings.now [] → OnOk result (IsSurveyed settings.now (lines_in text.now) layouts.new.items) }
{
    let mut lines = Lines::of(text);
    while let Some((count, line)) = lines.next() {
        follow_line(layouts, alloc, settings, count, line)?;
    }
    Ok(())
}

/// Parses `line` as that of the item of the number `count`, and adds this to the layout of its rendition.
fn follow_line(
    layouts: &mut Vec<Layout>,
    alloc: Global,
    settings: &Settings,
    count: u64,
    line: &[u8],
) -> Result<(), RestoreFault>
    requires few { count < 2 ^ 63 }
    ensures { (items : List ItemValue) → layouts.old.items ≡ layouts_after settings.now items → count ≡ length items + 1
        → OnOk result (IsFollowed settings.now count line.now items layouts.new.items) }
{
    let item = read_line(alloc, settings, count, line)?;
    match follow(layouts, count, &item) {
        Ok(()) => Ok(()),
        Err(fault) => Err(fault_of(count, fault)),
    }
}

/// Adds `item`, the channel's item of the number `count`, to the layout of its rendition.
fn follow(layouts: &mut Vec<Layout>, count: u64, item: &Item) -> Result<(), AddFault>
    ensures { (c : Configuration) (items : List ItemValue) → layouts.old.items ≡ layouts_after c items → count ≡ length items + 1
        → OnOk result (layouts.new.items ≡ layouts_after c (items ++ item.now ∷ [])) }
{
    match layouts.get_mut(item.rendition()) {
        Some(layout) => lay(layout, count, item),
        None => Err(AddFault::Refused),
    }
}

/// Adds `item`, the channel's item of the number `count`, to `layout`, that of its rendition.
fn lay(layout: &mut Layout, count: u64, item: &Item) -> Result<(), AddFault>
    ensures { OnOk result (IsLaid count item.now layout.old layout.new) }
{
    make_ready(layout, item)?;
    layout.add(count, item)?;
    Ok(())
}

/// Makes the other side the current one, if it is to be that before the bytes of `item`.
fn make_ready(layout: &mut Layout, item: &Item) -> Result<(), AddFault>
    ensures { OnOk result (layout.new ≡ room_for item.now layout.old) }
{
    if layout.turns_for(item) {
        return layout.turn();
    }
    Ok(())
}

/// Returns the fault of the line of the item of the number `count`, which can't be added because of `fault`.
fn fault_of(count: u64, fault: AddFault) -> RestoreFault
    requires few { count < 2 ^ 63 }
{
    match fault {
        AddFault::Memory => RestoreFault::Memory,
        AddFault::Refused | AddFault::TooLarge => bad(count),
    }
}
