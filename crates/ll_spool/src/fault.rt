//! Why an item isn't kept, and why a spool can't be restored.
ghost use Rattle.std.specs.Prelude.{◌≡◌};

use crate::disk::Lost;
use ll_layout::AddFault;
use std::alloc::AllocError;
use std::marker::Model;

/// Why an item isn't kept.
#[derive(Clone, Copy, PartialEq, Eq)]
pub enum KeepFault {
    /// An earlier item of the channel wasn't kept.
    Earlier,
    /// Out of memory.
    Memory,
    /// A call of the disk failed.
    Lost,
    /// The channel has no such rendition, a rule of this refuses the item, its files would be too large, or only the number of the item's
    /// bytes is known.
    Refused,
}

/// A token: an item wasn't kept, and no later one of its channel will be until the server is started again. Only
/// [`Spool::keep`](crate::Spool::keep) makes one.
#[derive(Clone, Copy)]
pub struct NotKept {
    fault: KeepFault,
}

impl Model for NotKept {
    ghost use Rattle.ll_spool.specs.declared.fault.KeepFault.{KeepFault};

    ghost Value = { KeepFault };

    ghost view = { λ n. n.fault };

    ghost inverse = { λ fault. record { fault = fault } };
}

impl NotKept {
    /// Returns the token of an item that isn't kept because of `fault`.
    pub(crate) fn new(fault: KeepFault) -> NotKept
        ensures { result ≡ fault }
    {
        NotKept { fault }
    }

    /// Returns why the item isn't kept.
    pub fn fault(&self) -> KeepFault
        ensures { result ≡ self.now }
    {
        self.fault
    }
}

/// Why a spool can't be restored.
#[derive(Clone, Copy)]
pub enum RestoreFault {
    /// The line of this number, counted from 1, can't stand in its place: it isn't the line of the channel's settings, or of the next item;
    /// or the channel refuses its item; or its item's bytes may still be asked for, and aren't there whole.
    Line(u64),
    /// Out of memory.
    Memory,
}

impl From<AllocError> for RestoreFault {
    ghost use Rattle.std.specs.Prelude.{◌≡◌};
    ghost use Rattle.ll_spool.specs.declared.fault.RestoreFault.TheVariants.{Memory};

    ghost from_gives = { λ error fault. fault ≡ Memory };

    fn from(_error: AllocError) -> RestoreFault {
        RestoreFault::Memory
    }
}

impl From<AllocError> for KeepFault {
    ghost use Rattle.std.specs.Prelude.{◌≡◌};
    ghost use Rattle.ll_spool.specs.declared.fault.KeepFault.TheVariants.{Memory};

    ghost from_gives = { λ error fault. fault ≡ Memory };

    fn from(_error: AllocError) -> KeepFault {
        KeepFault::Memory
    }
}

impl From<AddFault> for KeepFault {
    ghost use Rattle.std.specs.Prelude.{◌≡◌};
    ghost use Rattle.ll_spool.specs.Kept.{fault_by};

    ghost from_gives = { λ error fault. fault ≡ fault_by error };

    fn from(error: AddFault) -> KeepFault {
        match error {
            AddFault::Memory => KeepFault::Memory,
            AddFault::Refused | AddFault::TooLarge => KeepFault::Refused,
        }
    }
}

impl From<Lost> for KeepFault {
    ghost use Rattle.std.specs.Prelude.{◌≡◌};
    ghost use Rattle.ll_spool.specs.declared.fault.KeepFault.TheVariants.{Lost};

    ghost from_gives = { λ error fault. fault ≡ Lost };

    fn from(_error: Lost) -> KeepFault {
        KeepFault::Lost
    }
}
