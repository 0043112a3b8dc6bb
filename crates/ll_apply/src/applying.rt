//! Delta updates, applied to earlier playlists.
ghost use Rattle.std.specs.Prelude.{◌≡◌, ◌≢◌, Result, IfOk, IfErr, IsOk, IsErrOf, Ok, Err};
ghost use Rattle.ll_apply.specs.Applied as spec;
ghost use Rattle.ll_apply.specs.Found as found;
ghost use Rattle.ll_apply.specs.Found.{AreRead, IsAnswer, IsFound};
ghost use Rattle.ll_apply.specs.Texts.{FullLaw, applied_text, chain, delta_of};
ghost use Rattle.ll_apply.specs.declared.fault.ApplyFault.{ApplyFault};
ghost use Rattle.ll_line.specs.Playlist.{Playlist};
ghost use Rattle.ll_line.specs.Spelling.{spelling};
ghost use Rattle.ll_read.specs.Outline.{outline_of};
ghost use Rattle.ll_read.specs.Reading.{playlist_in};

use crate::fault::ApplyFault;
use crate::found::{Found, look_at_base, look_at_delta};
use crate::missing::missing;
use crate::ranges::push_ranges;
use crate::segments::push_segments;
use ll_attr::Text;
use ll_read::{Outline, Playlist, Skip};
use std::alloc::{AllocError, Global};

/// Applies the delta update `delta` to the earlier full playlist `base` (section 6.2.5.1), and returns the text of the resulting full playlist, with
/// LF at the end of each line. The segments that the update skips are those of the earlier playlist, without their parts and with the maps that are
/// in force. All else is the update's, except for date ranges if it lists those that were removed. An update that skips nothing is the result itself.
///
/// Fails with the first fault; `Memory` comes after all others. If both texts are of one rendition, and the parts after the earlier one last no
/// longer than the Skip Boundary, it succeeds unless out of memory: the result is the full playlist at the moment of the update.
pub fn apply(alloc: Global, base: &[u8], delta: &[u8]) -> Result<Text, ApplyFault>
    ensures value { IfOk result (λ text. applied_text base.now delta.now ≡ Ok text) }
    ensures refused { IfErr result (λ fault. fault ≢ ApplyFault.Memory → applied_text base.now delta.now ≡ Err fault) }
    ensures memory { IsErrOf result ApplyFault.Memory → IsOk (applied_text base.now delta.now) }
    ensures full { FullLaw }
{
    match look_at_base(alloc, base) {
        Ok(base) => apply_to(alloc, &base, delta),
        Err(fault) => Err(fault),
    }
}

/// Applies the update in `delta` to an earlier playlist that was read.
fn apply_to(alloc: Global, base: &Found, delta: &[u8]) -> Result<Text, ApplyFault>
    ensures { (x : Result Playlist ApplyFault) → IsFound base.now x → IsAnswer result (chain x (delta_of (playlist_in delta.now))) }
{
    match look_at_delta(alloc, delta) {
        Ok(delta) => apply_found(alloc, base, &delta),
        Err(fault) => Err(fault),
    }
}

/// Applies an update that was read to an earlier playlist that was read.
fn apply_found(alloc: Global, base: &Found, delta: &Found) -> Result<Text, ApplyFault>
    requires { AreRead delta.now.outline }
    ensures { (x y : Result Playlist ApplyFault) → IsFound base.now x → IsFound delta.now y → IsAnswer result (chain x y) }
{
    if let Some(number) = missing_of(base.outline, delta.outline) {
        return Err(ApplyFault::NotRecent { number });
    }
    let (Some(base), Some(delta)) = (&base.playlist, &delta.playlist) else {
        return Err(ApplyFault::Memory);
    };
    match merged(alloc, base, delta) {
        Ok(text) => Ok(text),
        Err(AllocError) => Err(ApplyFault::Memory),
    }
}

/// Returns the smallest Media Sequence Number that an update skips and an earlier playlist lacks.
fn missing_of(base: Outline, delta: Outline) -> Option<u64>
    requires { AreRead delta }
    ensures { (b d : Playlist) → base ≡ outline_of b → delta ≡ outline_of d → result ≡ found.missing_of b d }
{
    missing(base, delta.sequence, delta.skipped?)
}

/// Writes the playlist that an update makes of one that lacks nothing.
fn merged(alloc: Global, base: &Playlist, delta: &Playlist) -> Result<Text, AllocError>
    ensures { IfOk result (λ text. text ≡ spelling (found.merged base.now delta.now)) }
{
    match &delta.skipped {
        None => delta.write(alloc),
        Some(skip) => with_skipped(alloc, base, delta, skip),
    }
}

/// Writes the playlist that an update with the skip line `skip` makes of an earlier one.
fn with_skipped(
    alloc: Global,
    base: &Playlist,
    delta: &Playlist,
    skip: &Skip,
) -> Result<Text, AllocError>
    ensures { IfOk result (λ text. text ≡ spelling (spec.updated base.now delta.now skip.now)) }
{
    let from = delta.sequence.saturating_sub(base.sequence) as usize;
    let count = skip.count as usize;
    let mut text = String::new(alloc);
    delta.push_head(&mut text)?;
    push_ranges(&mut text, base, delta, skip.removed.as_deref())?;
    push_segments(&mut text, &base.segments, from, count, &delta.segments)?;
    delta.push_tail(&mut text)?;
    Ok(Text::from_string(text))
}
