//! An entry of a record, as a value.
use ll_directive::Want;
use ll_item::{Item, ItemFault};
use ll_verdict::Outcome;
use std::alloc::AllocError;

/// An entry of a channel's record.
#[derive(Drop)]
pub enum Recorded {
    /// An item that was accepted.
    Publish(Item),
    /// A request, with its number, from 1, and its outcome at once; `None` if it was held.
    Ask(u64, Want, Option<Outcome>),
    /// A reading of the clock, in milliseconds.
    Clock(u64),
    /// A reply that was handed out, with the number of its request and its outcome.
    Collect(u64, Outcome),
    /// The close of the request with this number.
    Close(u64),
}

/// Why a line is no entry of a channel's record.
#[derive(Clone, Copy, PartialEq, Eq)]
pub enum EntryFault {
    /// It hasn't the form of an entry.
    BadLine,
    /// Its item isn't one of this channel.
    Refused,
    /// Out of memory, which comes after the other faults.
    Memory,
}

impl From<AllocError> for EntryFault {
    ghost use Rattle.std.specs.Prelude.{◌≡◌};
    ghost use Rattle.ll_entry.specs.declared.entry.EntryFault.TheVariants.{Memory};

    ghost from_gives = { λ error fault. fault ≡ Memory };

    fn from(_error: AllocError) -> EntryFault {
        EntryFault::Memory
    }
}

impl From<ItemFault> for EntryFault {
    ghost use Rattle.std.specs.Prelude.{◌≡◌};
    ghost use Rattle.ll_entry.specs.Entries.{fault_of};

    ghost from_gives = { λ item fault. fault ≡ fault_of item };

    fn from(fault: ItemFault) -> EntryFault {
        match fault {
            ItemFault::BadLine => EntryFault::BadLine,
            ItemFault::NoRendition => EntryFault::Refused,
            ItemFault::BadAttribute => EntryFault::Refused,
            ItemFault::Memory => EntryFault::Memory,
        }
    }
}
