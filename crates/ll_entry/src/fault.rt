//! How chunks of a record can be wrong.
use crate::entry::EntryFault;
use std::alloc::AllocError;

/// How a chain of chunks is wrong: the first of these that applies to the line at which it is found. A chunk's first three lines count as
/// one.
#[derive(Clone, Copy, Debug, PartialEq, Eq)]
pub enum CheckKind {
    /// A line isn't of its form, or the end of the chunk is missing.
    BadChunk,
    /// A chunk doesn't begin with the entry after the last one.
    Gap,
    /// A chunk is of another channel, or of other settings.
    OtherChannel,
    /// An entry says what can't have happened.
    Refused,
    /// An entry has another reply than the right one.
    WrongReply,
    /// Out of memory.
    Memory,
}

/// Where and how a chain of chunks is wrong.
#[derive(Clone, Copy, PartialEq, Eq)]
pub struct CheckFault {
    /// The number of the entry, from 1: one more than the entries that are right.
    pub entry: u64,
    /// How it is wrong.
    pub kind: CheckKind,
}

impl From<AllocError> for CheckKind {
    ghost use Rattle.std.specs.Prelude.{◌≡◌};
    ghost use Rattle.ll_entry.specs.declared.fault.CheckKind.TheVariants.{Memory};

    ghost from_gives = { λ error kind. kind ≡ Memory };

    fn from(_error: AllocError) -> CheckKind {
        CheckKind::Memory
    }
}

impl From<EntryFault> for CheckKind {
    ghost use Rattle.std.specs.Prelude.{◌≡◌};
    ghost use Rattle.ll_entry.specs.Chain.{kind_of};

    ghost from_gives = { λ entry kind. kind ≡ kind_of entry };

    fn from(fault: EntryFault) -> CheckKind {
        match fault {
            EntryFault::BadLine => CheckKind::BadChunk,
            EntryFault::Refused => CheckKind::Refused,
            EntryFault::Memory => CheckKind::Memory,
        }
    }
}
