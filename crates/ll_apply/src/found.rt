//! The two playlists, read from their texts.
ghost use Rattle.std.specs.Prelude.{◌≡◌, IfOk, IfErr, Err};
ghost use Rattle.ll_apply.specs.Found.{AreRead, IsFound};
ghost use Rattle.ll_apply.specs.Texts.{base_of, delta_of};
ghost use Rattle.ll_read.specs.Reading.{playlist_in};

use crate::fault::ApplyFault;
use ll_read::{Outline, Playlist, ReadFault, read, read_outline};
use std::alloc::Global;

/// The playlist that a text spells, with its outline. Out of memory there is the outline alone, so that each fault of the texts comes before out of
/// memory.
#[derive(Drop)]
pub(crate) struct Found {
    pub(crate) outline: Outline,
    pub(crate) playlist: Option<Playlist>,
}

/// Reads the playlist that a text spells.
fn look(alloc: Global, bytes: &[u8]) -> Result<Found, ReadFault>
    ensures found { IfOk result (λ f. IsFound f (playlist_in bytes.now)) }
    ensures refused { IfErr result (λ fault. playlist_in bytes.now ≡ Err fault) }
{
    match read(alloc, bytes) {
        Ok(playlist) => Ok(Found {
            outline: playlist.outline(),
            playlist: Some(playlist),
        }),
        Err(ReadFault::Memory) => Ok(Found {
            outline: read_outline(alloc, bytes),
            playlist: None,
        }),
        Err(fault) => Err(fault),
    }
}

/// Reads the earlier text, which must be a full playlist.
pub(crate) fn look_at_base(alloc: Global, bytes: &[u8]) -> Result<Found, ApplyFault>
    ensures found { IfOk result (λ f. IsFound f (base_of (playlist_in bytes.now))) }
    ensures refused { IfErr result (λ fault. base_of (playlist_in bytes.now) ≡ Err fault) }
{
    match look(alloc, bytes) {
        Ok(found) => {
            if found.outline.skipped.is_some() {
                Err(ApplyFault::BadBase)
            } else {
                Ok(found)
            }
        }
        Err(_) => Err(ApplyFault::BadBase),
    }
}

/// Reads the later text. Its numbers are small enough to be added.
pub(crate) fn look_at_delta(alloc: Global, bytes: &[u8]) -> Result<Found, ApplyFault>
    ensures found { IfOk result (λ f. IsFound f (delta_of (playlist_in bytes.now))) }
    ensures refused { IfErr result (λ fault. delta_of (playlist_in bytes.now) ≡ Err fault) }
    ensures numbers { IfOk result (λ f. AreRead f.outline) }
{
    match look(alloc, bytes) {
        Ok(found) => Ok(found),
        Err(_) => Err(ApplyFault::BadDelta),
    }
}
