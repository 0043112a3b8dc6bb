//! The faults of an encoder's bytes.
use crate::kind::Kind;
use std::alloc::AllocError;

/// The reason for which an encoder's bytes are refused.
#[derive(Clone, Copy, Debug)]
pub enum StreamFault {
    /// A box whose size is less than that of its header (also 0, by which a box extends to the end of the file), that ends after the box around it,
    /// or that is too short for its fields.
    BadBox,
    /// A unit, which is an initialization section or a fragment, of more than 1,048,576 bytes.
    TooLarge,
    /// A fragment, or samples, before the movie.
    NoMoov,
    /// No box of this type where one is required: a movie without a track or its defaults, a fragment without a track's, or, before a movie or at
    /// the end of the input, a fragment without samples after it.
    Missing(Kind),
    /// Several boxes of this type where one is allowed: two fragments without samples between them, or a fragment with two of the governing track.
    Several(Kind),
    /// A track with a time scale of 0.
    NoTimeScale,
    /// A fragment of a track that the movie doesn't have.
    OtherTrack,
    /// A fragment that ends past what can be counted, or that is longer than a part is allowed to be and begins a run or is a part by itself.
    TooLong,
    /// An input that ends inside a box.
    Cut,
    /// Out of memory.
    Memory,
}

impl From<AllocError> for StreamFault {
    ghost use Rattle.std.specs.Prelude.{◌≡◌};
    ghost use Rattle.ll_mp4.specs.declared.fault.StreamFault.TheVariants.{Memory};

    ghost from_gives = { λ error fault. fault ≡ Memory };

    fn from(_error: AllocError) -> StreamFault {
        StreamFault::Memory
    }
}
