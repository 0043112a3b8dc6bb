//! Why an item can't be added.
ghost use Rattle.std.specs.Prelude.{◌≡◌};

use std::alloc::AllocError;

/// Why an item can't be added to what is kept in mind of its rendition.
#[derive(Clone, Copy)]
pub enum AddFault {
    /// A rule of the rendition refuses it.
    Refused,
    /// The file of its bytes would have 2^63 bytes or more.
    TooLarge,
    /// Out of memory.
    Memory,
}

impl From<AllocError> for AddFault {
    ghost use Rattle.std.specs.Prelude.{◌≡◌};
    ghost use Rattle.ll_layout.specs.declared.fault.AddFault.TheVariants.{Memory};

    ghost from_gives = { λ error fault. fault ≡ Memory };

    fn from(_error: AllocError) -> AddFault {
        AddFault::Memory
    }
}
