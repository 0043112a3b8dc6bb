//! Why a channel does not take a request or a reading of the clock.
use std::alloc::AllocError;

/// The reason that a request is no event of its channel, whatever it asks for: the first of these that applies.
#[derive(Clone, Copy, Debug, PartialEq, Eq)]
pub enum AskFault {
    /// The channel or its record takes no more events.
    RecordFull,
    /// Out of memory.
    Memory,
}

impl AskFault {
    ghost use Rattle.std.specs.Prelude.{◌≡◌};
    ghost use Rattle.ll_verdict.specs.Names.{ask_fault_name};

    /// Returns the name that players read.
    pub fn name(self) -> &'static str
        ensures { result.now ≡ ask_fault_name self }
    {
        match self {
            AskFault::RecordFull => "RecordFull",
            AskFault::Memory => "Memory",
        }
    }
}

/// The largest reading of a clock, in milliseconds.
pub const LAST_TIME: u64 = 1 << 60;

/// The reason that a reading of the clock is no event of its channel: the first of these that applies.
#[derive(Clone, Copy, Debug, PartialEq, Eq)]
pub enum ClockFault {
    /// The reading is above 2^60 milliseconds.
    ClockRange,
    /// The channel or its record takes no more events.
    RecordFull,
    /// Out of memory: a record needs some for a reading, a room none.
    Memory,
}

impl ClockFault {
    ghost use Rattle.std.specs.Prelude.{◌≡◌};
    ghost use Rattle.ll_verdict.specs.Names.{clock_fault_name, clock_fault_code};

    /// Returns the number that stands for it in a script's answer.
    pub fn code(self) -> u64
        ensures { result ≡ clock_fault_code self }
    {
        match self {
            ClockFault::ClockRange => 1,
            ClockFault::RecordFull => 2,
            ClockFault::Memory => 3,
        }
    }

    /// Returns the name that stands for it in a script's answer.
    pub fn name(self) -> &'static str
        ensures { result.now ≡ clock_fault_name self }
    {
        match self {
            ClockFault::ClockRange => "ClockRange",
            ClockFault::RecordFull => "RecordFull",
            ClockFault::Memory => "Memory",
        }
    }
}

impl From<AllocError> for AskFault {
    ghost use Rattle.std.specs.Prelude.{◌≡◌};
    ghost use Rattle.ll_verdict.specs.declared.fault.AskFault.TheVariants.{Memory};

    ghost from_gives = { λ error fault. fault ≡ Memory };

    fn from(_error: AllocError) -> AskFault {
        AskFault::Memory
    }
}
