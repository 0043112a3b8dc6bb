//! Why there is no Multivariant Playlist.
ghost use Rattle.std.specs.Prelude.{◌≡◌};
ghost use Rattle.ll_multivariant.specs.Faults as spec;

use ll_entry::CheckFault;
use ll_variants::VariantFault;
use std::alloc::AllocError;

/// Why there is no Multivariant Playlist. Numbers are those of the renditions that are named, from 1.
#[derive(Clone, Copy)]
pub enum MultivariantFault {
    /// The record is wrong, or out of memory.
    Wrong(CheckFault),
    /// The channel has no rendition of this name.
    NoRendition(u64),
    /// The Media Initialization Section can't be read.
    BadInit(u64),
    /// The rendition has no finished segment.
    NoSegment(u64),
    /// A number of bytes, of microseconds or of bits a second is above 2^64.
    TooLarge,
    /// Out of memory.
    Memory,
}

impl From<AllocError> for MultivariantFault {
    ghost use Rattle.std.specs.Prelude.{◌≡◌};
    ghost use Rattle.ll_multivariant.specs.declared.fault.MultivariantFault.TheVariants.{Memory};

    ghost from_gives = { λ error fault. fault ≡ Memory };

    fn from(_error: AllocError) -> MultivariantFault {
        MultivariantFault::Memory
    }
}

/// Returns the fault of the playlist's text or of its numbers.
pub(crate) fn variant_fault(fault: VariantFault) -> MultivariantFault
    ensures { spec.IsBeside result }
{
    match fault {
        VariantFault::TooLarge => MultivariantFault::TooLarge,
        VariantFault::Memory => MultivariantFault::Memory,
    }
}
