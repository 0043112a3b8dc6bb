//! A start: the items of a spool are published again.
ghost use Rattle.std.specs.Prelude.{◌≡◌, ◌<◌, ◌^◌, ◌∷◌, [], IfOk, IfSome, List, OnOk, Option, false, length};
ghost use Rattle.ll_item.specs.Items.{blank, media_of, rendition_of};
ghost use Rattle.ll_item.specs.declared.item.Item.{Item as ItemValue};
ghost use Rattle.ll_spool.specs.Placed.{HasBytesAt, HasRest, IsGivenTo, IsPublishedFrom, IsRead};
ghost use Rattle.ll_spool.specs.Restored.{IsRestoredFrom, IsSpelledBy, IsWhole, accepted_after};
ghost use Rattle.ll_spool.specs.Spooled.{lines_in};

use crate::disk::Disk;
use crate::fault::RestoreFault;
use crate::filled::{filled, item_len};
use crate::line::{bad, read_line};
use crate::lines::{Lines, cut_line};
use crate::placed::{PlacedItem, place_of, stored_in};
use crate::survey::{begun, survey};
use ll_entry::settings_text;
use ll_item::{Item, Media, Payload};
use ll_layout::{Extent, Layout};
use ll_settings::Settings;
use std::alloc::{AllocError, Global};

/// A channel that accepts items.
pub trait Accepts {
    /// The items that it has accepted, if they are known.
    ghost accepted: { Self → Option (List ItemValue) };

    /// Publishes `item`, and returns how many items the channel has with it; `None` if it refuses the item.
    fn accept(&mut self, item: Item) -> Result<Option<u64>, AllocError>
        ensures accepted { IfOk result (λ found. IfSome found (λ n. accepted self.new ≡ accepted_after (accepted self.old) (item ∷ []))) };
}

/// What is known of a spool whose items were published again: where the bytes of each rendition are, how many bytes its whole lines have, and
/// how many items it has.
#[derive(Drop)]
pub struct Restored {
    pub(crate) layouts: Vec<Layout>,
    pub(crate) whole: u64,
    count: u64,
}

impl Restored {
    /// Returns the number of items.
    pub fn count(&self) -> u64
        ensures { result ≡ self.now.count }
    {
        self.count
    }
}

/// Publishes the items of `text`, the text of the spool of a channel of `settings` whose files are `disk`, with the bytes that these have of
/// them. Changes no file, whatever it returns.
///
/// # Errors
///
/// `Line` with the number of a line that can't stand; `Memory`.
pub fn restore<D: Disk, A: Accepts>(
    alloc: Global,
    settings: &Settings,
    text: &[u8],
    disk: &mut D,
    channel: &mut A,
) -> Result<Restored, RestoreFault>
    ensures restored { IfOk result (λ r.
        IsRestoredFrom settings.now text.now (A.accepted channel.old) (A.accepted channel.new) r.count r.layouts.items (D.files disk.old)) }
    ensures whole { IfOk result (λ r. IsWhole text.now r.whole) }
    ensures lines { D.lines disk.new ≡ D.lines disk.old }
    ensures files { D.files disk.new ≡ D.files disk.old }
    ensures steady { OnOk result (D.failures disk.new ≡ D.failures disk.old) }
{
    let Some((first, lines)) = cut_line(text) else {
        return Ok(Restored {
            layouts: begun(alloc, settings)?,
            whole: 0,
            count: 0,
        });
    };
    let line = settings_text(alloc, settings)?;
    if first != line.as_bytes() {
        return Err(RestoreFault::Line(1));
    }
    let (layouts, count, rest) = publish_lines(alloc, settings, lines, disk, channel)?;
    let whole = text.len().saturating_sub(rest) as u64;
    Ok(Restored {
        layouts,
        whole,
        count,
    })
}

/// Publishes the items of `text`, whose bytes are in `disk`. Returns the layouts after them, the number of items, and the number of bytes after
/// the last line.
fn publish_lines<D: Disk, A: Accepts>(
    alloc: Global,
    settings: &Settings,
    text: &[u8],
    disk: &mut D,
    channel: &mut A,
) -> Result<(Vec<Layout>, u64, usize), RestoreFault>
    ensures published { IfOk result (λ r.
        IsPublishedFrom settings.now text.now (A.accepted channel.old) (A.accepted channel.new) r.1 r.0.items (D.files disk.old)) }
    ensures rest { IfOk result (λ r. HasRest text.now r.2) }
    ensures lines { D.lines disk.new ≡ D.lines disk.old }
    ensures files { D.files disk.new ≡ D.files disk.old }
    ensures steady { OnOk result (D.failures disk.new ≡ D.failures disk.old) }
{
    let layouts = survey(alloc, settings, text)?;
    let stored = stored_in(alloc, &layouts)?;
    match publish(alloc, settings, text, &stored, disk, channel) {
        Ok((count, rest)) => Ok((layouts, count, rest)),
        Err(fault) => Err(fault),
    }
}

/// Publishes the items of `text`, with the bytes of those that are `stored`, which are in the order of their items. Returns the number of
/// items, and the number of bytes after the last line.
fn publish<D: Disk, A: Accepts>(
    alloc: Global,
    settings: &Settings,
    text: &[u8],
    stored: &[PlacedItem],
    disk: &mut D,
    channel: &mut A,
) -> Result<(u64, usize), RestoreFault>
    ensures published { IfOk result (λ r.
        IsGivenTo settings.now (lines_in text.now) (A.accepted channel.old) (A.accepted channel.new) r.0 stored.now (D.files disk.old)) }
    ensures rest { IfOk result (λ r. HasRest text.now r.1) }
    ensures lines { D.lines disk.new ≡ D.lines disk.old }
    ensures files { D.files disk.new ≡ D.files disk.old }
    ensures steady { OnOk result (D.failures disk.new ≡ D.failures disk.old) }
{
    let mut lines = Lines::of(text);
    let mut next = 0;
    while let Some((count, line)) = lines.next() {
        let (item, then) = read_item(alloc, settings, count, line, stored, next, disk)?;
        accept(channel, count, item)?;
        next = then;
    }
    // (each of them is of one of the items, so none is left; to test it costs less than to prove it)
    if let Some(left) = stored.get(next) {
        return Err(RestoreFault::Line(left.stored.count.saturating_add(1)));
    }
    Ok((lines.count(), lines.rest_len()))
}

/// Parses `line` as that of the item of the number `count`. If the bytes at `next` of those `stored` are the item's, it has these, else zeros.
/// Returns the item, and which of those stored come next.
fn read_item<D: Disk>(
    alloc: Global,
    settings: &Settings,
    count: u64,
    line: &[u8],
    stored: &[PlacedItem],
    next: usize,
    disk: &mut D,
) -> Result<(Item, usize), RestoreFault>
    requires few { count < 2 ^ 63 }
    ensures spelled { IfOk result (λ r. IsSpelledBy settings.now count line.now r.0) }
    ensures read { IfOk result (λ r. IsRead count r.0 stored.now next r.1 (D.files disk.old)) }
    ensures lines { D.lines disk.new ≡ D.lines disk.old }
    ensures files { D.files disk.new ≡ D.files disk.old }
    ensures steady { OnOk result (D.failures disk.new ≡ D.failures disk.old) }
{
    let item = read_line(alloc, settings, count, line)?;
    match place_of(count, item.rendition(), stored, next) {
        Some(place) => {
            let item = with_bytes(alloc, count, item, place, disk)?;
            Ok((item, next + 1))
        }
        None => Ok((item, next)),
    }
}

/// Returns `item`, the item of the number `count`, with its bytes, which are at `place`.
fn with_bytes<D: Disk>(
    alloc: Global,
    count: u64,
    item: Item,
    place: Extent,
    disk: &mut D,
) -> Result<Item, RestoreFault>
    requires few { count < 2 ^ 63 }
    ensures same { IfOk result (λ filled. blank filled ≡ blank item) }
    ensures bytes { IfOk result (λ filled. HasBytesAt (D.files disk.old) (rendition_of item) place (media_of filled)) }
    ensures lines { D.lines disk.new ≡ D.lines disk.old }
    ensures files { D.files disk.new ≡ D.files disk.old }
    ensures steady { OnOk result (D.failures disk.new ≡ D.failures disk.old) }
{
    match media_at(alloc, count, &item, place, disk) {
        Ok(media) => Ok(filled(item, media)),
        Err(fault) => Err(fault),
    }
}

/// Returns the bytes at `place`, which are those of `item`, the item of the number `count`.
fn media_at<D: Disk>(
    alloc: Global,
    count: u64,
    item: &Item,
    place: Extent,
    disk: &mut D,
) -> Result<Media, RestoreFault>
    requires few { count < 2 ^ 63 }
    ensures long { IfOk result (λ media. length media ≡ length (media_of item.now)) }
    ensures bytes { IfOk result (λ media. HasBytesAt (D.files disk.old) (rendition_of item.now) place media) }
    ensures lines { D.lines disk.new ≡ D.lines disk.old }
    ensures files { D.files disk.new ≡ D.files disk.old }
    ensures steady { OnOk result (D.failures disk.new ≡ D.failures disk.old) }
{
    if item_len(item) != place.length {
        return Err(bad(count));
    }
    let mut bytes = vec![in alloc; 0; place.length as usize]?;
    if !disk.read(item.rendition(), place, &mut bytes) {
        return Err(bad(count));
    }
    match Payload::of_bytes(&bytes) {
        Some(payload) => Ok(Media::new(alloc, &payload)?),
        None => Err(bad(count)),
    }
}

/// Publishes `item`, which is to be the channel's item of the number `count`.
fn accept<A: Accepts>(channel: &mut A, count: u64, item: Item) -> Result<(), RestoreFault>
    requires few { count < 2 ^ 63 }
    ensures accepted { OnOk result (A.accepted channel.new ≡ accepted_after (A.accepted channel.old) (item ∷ [])) }
{
    match channel.accept(item)? {
        Some(number) if number == count => Ok(()),
        _ => Err(bad(count)),
    }
}
