//! Writes the Multivariant Playlist of a channel.
ghost use Rattle.std.specs.Prelude.{◌≡◌, ◌≢◌, ◌⊎◌, ◌<◌, Bool, IfErr, IfOk, IsErrOf, List, OnErr, None, Ok, Err, Some, false, is_ok, true, ℕ};
ghost use Rattle.std.specs.Io.KnownBytes.{Appends};
ghost use Rattle.ll_attr.specs.Words.{pieces_at};
ghost use Rattle.ll_check.specs.Answer as answer;
ghost use Rattle.ll_command.specs.Cuts.{IsCutShort};
ghost use Rattle.ll_command.specs.Multivariants.{IsMultivariant};
ghost use Rattle.ll_command.specs.Status as spec;

use crate::fault::Fault;
use crate::writing::{write_answer, write_out};
use ll_device::Writer;
use ll_multivariant::{MultivariantFault, NamedSection, multivariant};
use std::alloc::Global;

/// Writes the Multivariant Playlist of the channel with the record `chunks`, which names the renditions `sources`; or how the record isn't
/// right. Returns whether it is right.
pub fn write_multivariant<W: Writer>(
    alloc: Global,
    chunks: &[u8],
    sources: &[NamedSection],
    out: &mut W,
) -> Result<bool, Fault>
    ensures written { IfOk result (λ right. (text : List ℕ) × IsMultivariant chunks.now sources.now right text × Appends (W.written out.old) (W.written out.new) text) }
    ensures cut { OnErr result (IsCutShort (λ text. (right : Bool) × IsMultivariant chunks.now sources.now right text) (W.written out.old) (W.written out.new)) }
    ensures unwritten { IsErrOf result Fault.Write → W.failures out.old < W.failures out.new }
{
    match multivariant(alloc, chunks, sources) {
        Ok(text) => {
            write_out(text.as_bytes(), out)?;
            Ok(true)
        }
        Err(MultivariantFault::Wrong(fault)) => write_answer(alloc, Err(fault), out),
        Err(MultivariantFault::NoRendition(number)) => Err(Fault::NoRendition(number)),
        Err(MultivariantFault::BadInit(number)) => Err(Fault::BadInit(number)),
        Err(MultivariantFault::NoSegment(number)) => Err(Fault::NoSegment(number)),
        Err(MultivariantFault::TooLarge) => Err(Fault::TooLarge),
        Err(MultivariantFault::Memory) => Err(Fault::Memory),
    }
}
