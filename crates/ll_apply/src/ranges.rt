//! The date ranges of a playlist to which an update is applied, as text.
ghost use Rattle.std.specs.Prelude.{◌≡◌, ◌++◌, ℕ, List, IfOk, OnOk, string_bytes, map, filter};
ghost use Rattle.std.specs.Option.{option_map};
ghost use Rattle.ll_apply.specs.Applied.{ranges_by};
ghost use Rattle.ll_apply.specs.Applied as spec;
ghost use Rattle.ll_apply.specs.Found.{is_among};
ghost use Rattle.ll_line.specs.Line as says;
ghost use Rattle.ll_line.specs.Text.{text_of};

use indexmap::IndexSet;
use ll_attr::Text;
use ll_line::{DateRange, Line, push_line};
use ll_read::Playlist;
use std::alloc::{AllocError, Global};

/// Appends the date ranges: those of the update, if it doesn't say which were removed; else those of the earlier playlist that stay, and then the
/// update's.
pub(crate) fn push_ranges(
    text: &mut String,
    base: &Playlist,
    delta: &Playlist,
    removed: Option<&[Text]>,
) -> Result<(), AllocError>
    ensures { OnOk result (string_bytes text.new ≡ string_bytes text.old
        ++ text_of (map says.DateRange (ranges_by (option_map (λ ids. ids.now) removed.entry) base.now.ranges delta.now.ranges))) }
{
    if let Some(removed) = removed {
        push_staying(text, base, delta, removed)?;
    }
    delta.push_ranges(text)
}

/// Appends the date ranges of the earlier playlist that weren't removed and that the update doesn't list.
fn push_staying(
    text: &mut String,
    base: &Playlist,
    delta: &Playlist,
    removed: &[Text],
) -> Result<(), AllocError>
    ensures { OnOk result (string_bytes text.new ≡ string_bytes text.old
        ++ text_of (map says.DateRange (filter (spec.stays removed.now delta.now.ranges) base.now.ranges))) }
{
    let removed = set_of(*text.allocator(), removed)?;
    for place in 0..base.ranges() {
        if let Some(range) = base.range(place) {
            if stays(&removed, delta, range) {
                push_line(text, &Line::DateRange(range))?;
            }
        }
    }
    Ok(())
}

/// Returns whether a date range wasn't removed and the update doesn't list it.
fn stays(removed: &IndexSet<&str>, delta: &Playlist, range: DateRange<'_>) -> bool
    ensures { (ids : List (List ℕ)) → ((id : List ℕ) → is_among id removed.now.keys ≡ spec.is_one_of id ids)
        → result ≡ spec.stays ids delta.now.ranges (record { id = range.entry.id.now; attributes = range.entry.attributes.now }) }
{
    !removed.contains(range.id) && !delta.has_range(range.id)
}

/// Returns the ids as a set.
fn set_of(alloc: Global, ids: &[Text]) -> Result<IndexSet<&str>, AllocError>
    ensures { IfOk result (λ set. (id : List ℕ) → is_among id set.keys ≡ spec.is_one_of id ids.now) }
{
    let mut set = IndexSet::new(alloc);
    for id in ids {
        match set.insert(id.as_str()) {
            Ok(_) => {}
            Err(_) => return Err(AllocError),
        }
    }
    Ok(set)
}
