//! The lines of a spool's text.
ghost use Rattle.std.specs.Prelude.{◌≡◌, ◌<◌, ◌+◌, ◌^◌, ◌++◌, IfOk, IsErrOf, None, OnOk, Some, string_bytes, ℕ};
ghost use Rattle.ll_spool.specs.Spooled.{numbered, published_in, spooled_in, spooled_line};

use crate::fault::RestoreFault;
use ll_attr::after;
use ll_entry::{EntryFault, Recorded, Version};
use ll_item::Item;
use ll_settings::Settings;
use std::alloc::{AllocError, Global};
use std::str;

/// Appends the line of `item`, the item of the number `count`, with its end.
pub(crate) fn push_line(
    settings: &Settings,
    count: u64,
    item: &Item,
    text: &mut String,
) -> Result<(), AllocError>
    ensures line { OnOk result (string_bytes text.new ≡ string_bytes text.old ++ spooled_line settings.now count item.now) }
{
    write!(text, "{count} ")?;
    item.push_published_line(settings, text)?;
    text.push('\n')
}

/// Parses `line`, which is without its end, as that of the item of the number `count`. The item has zeros in place of its bytes.
///
/// # Errors
///
/// `Line` if it isn't such a line; `Memory`.
pub(crate) fn read_line(
    alloc: Global,
    settings: &Settings,
    count: u64,
    line: &[u8],
) -> Result<Item, RestoreFault>
    requires few { count < 2 ^ 63 }
    ensures value { IfOk result (λ item. spooled_in settings.now count line.now ≡ Some item) }
    ensures bad { (number : ℕ) → IsErrOf result (RestoreFault.Line number) → (spooled_in settings.now count line.now ≡ None) × (number ≡ count + 1) }
{
    let Ok(text) = str::from_utf8(line) else {
        return Err(bad(count));
    };
    let number = number_text(alloc, count)?;
    match after(text, number.as_str()) {
        Some(text) => read_item(alloc, settings, count, text),
        None => Err(bad(count)),
    }
}

/// Returns what stands before the line of the item of the number `count`.
fn number_text(alloc: Global, count: u64) -> Result<String, AllocError>
    ensures { IfOk result (λ text. string_bytes text ≡ numbered count) }
{
    format!(in alloc; "{count} ")
}

/// Parses the item that `text` spells, the item of the number `count`, as the line of an entry in a record does.
fn read_item(
    alloc: Global,
    settings: &Settings,
    count: u64,
    text: &str,
) -> Result<Item, RestoreFault>
    requires few { count < 2 ^ 63 }
    ensures value { IfOk result (λ item. published_in settings.now text.now ≡ Some item) }
    ensures bad { (number : ℕ) → IsErrOf result (RestoreFault.Line number) → (published_in settings.now text.now ≡ None) × (number ≡ count + 1) }
{
    let line = format!(in alloc; "P {text}")?;
    match Recorded::read(alloc, Version::Two, settings, line.as_str()) {
        Ok(Recorded::Publish(item)) => Ok(item),
        Err(EntryFault::Memory) => Err(RestoreFault::Memory),
        _ => Err(bad(count)),
    }
}

/// Returns the fault of the line of the item of the number `count`: the settings line comes before the first item's.
pub(crate) fn bad(count: u64) -> RestoreFault
    requires few { count < 2 ^ 63 }
    ensures { result ≡ RestoreFault.Line (count + 1) }
{
    RestoreFault::Line(count + 1)
}
