//! Why a connection was ended.
use std::alloc::AllocError;

/// Why a connection was ended.
#[derive(Clone, Copy, Debug, PartialEq, Eq)]
pub enum LinkFault {
    /// A read failed.
    Read,
    /// A write failed.
    Write,
    /// The pass is another hub's, or the hub can't hand out a full record, or the spool at a channel's place is another channel's.
    Hub,
    /// Out of memory for its bytes or for an answer.
    Memory,
    /// It was read as often as is allowed: 2^32 times, or fewer if the caller says so.
    Endless,
}

impl From<AllocError> for LinkFault {
    ghost use Rattle.std.specs.Prelude.{◌≡◌};
    ghost use Rattle.ll_service.specs.declared.fault.LinkFault.TheVariants.{Memory};

    ghost from_gives = { λ error fault. fault ≡ Memory };

    fn from(_error: AllocError) -> LinkFault {
        LinkFault::Memory
    }
}
