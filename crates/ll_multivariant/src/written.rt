//! The Multivariant Playlist of a channel.
ghost use Rattle.std.specs.Prelude.{◌≡◌, ◌≢◌, IfOk, IsErrOf, None, Ok, Err, Some, string_bytes};
ghost use Rattle.ll_attr.specs.Words.{pieces_at};
ghost use Rattle.ll_entry.specs.Chain.{Between, Chain, checked, checked_from};
ghost use Rattle.ll_entry.specs.declared.fault.CheckFault.{CheckFault};
ghost use Rattle.ll_multivariant.specs.Keeping.{kept_of};
ghost use Rattle.ll_multivariant.specs.Naming as spec;

use crate::fault::{MultivariantFault, variant_fault};
use crate::kept::{Kept, last_chain};
use crate::naming::{NamedSection, streams_in};
use ll_entry::CheckKind;
use ll_variants::playlist_text;
use std::alloc::Global;

/// Returns the Multivariant Playlist of the channel with the record `chunks`, which names the renditions `sources`, in this order. Only the
/// last chain counts, and of it the finished segments.
pub fn multivariant(
    alloc: Global,
    chunks: &[u8],
    sources: &[NamedSection],
) -> Result<String, MultivariantFault>
    ensures text { IfOk result (λ t. (ch : Chain) × (checked_from (Between None) (pieces_at 10 chunks.now) ≡ Ok (Some ch))
        × (spec.multivariant ch sources.now ≡ Ok (string_bytes t))) }
    ensures wrong { (f : CheckFault) → IsErrOf result (MultivariantFault.Wrong f) → f.kind ≢ CheckKind.Memory → checked chunks.now ≡ Err f }
{
    match last_chain(alloc, chunks) {
        Ok(kept) => kept_playlist(alloc, &kept, sources),
        Err(fault) => Err(MultivariantFault::Wrong(fault)),
    }
}

/// Returns the Multivariant Playlist of the last chain of a record, of which this is `kept`.
#[tactic(auto, using(crate::proofs::StreamLemmas::named_other, crate::proofs::StreamLemmas::beside_other, crate::proofs::StreamLemmas::streams_all))]
fn kept_playlist(
    alloc: Global,
    kept: &Kept,
    sources: &[NamedSection],
) -> Result<String, MultivariantFault>
    ensures text { (ch : Chain) → kept.now ≡ kept_of (Some ch) → IfOk result (λ t. spec.multivariant ch sources.now ≡ Ok (string_bytes t)) }
    ensures named { (f : CheckFault) → IsErrOf result (MultivariantFault.Wrong f) → ⊥ }
{
    let Some(settings) = &kept.settings else {
        return Err(MultivariantFault::Memory);
    };
    let streams = match streams_in(alloc, settings, &kept.additions, sources) {
        Ok(streams) => streams,
        Err(fault) => return Err(fault),
    };
    match playlist_text(alloc, &streams) {
        Ok(text) => Ok(text),
        Err(fault) => Err(variant_fault(fault)),
    }
}
