//! Why publishing an encoder's bytes fails, with the names that an operator reads.
use ll_mp4::StreamFault;
use std::alloc::AllocError;
use std::fmt;

/// Why not all of an encoder's bytes are published.
#[derive(Clone, Copy, Debug)]
pub enum PushFault {
    /// The encoder's bytes are refused.
    Input(StreamFault),
    /// The encoder's bytes couldn't be read.
    Read,
    /// The clock couldn't be read.
    Clock,
    /// No connection is left, or too many in a row had nothing accepted.
    Connect,
    /// The rendition stands where nothing that was sent leads: someone else publishes it too, or the origin has forgotten it.
    Elsewhere,
    /// What came isn't an answer to what was sent.
    BadAnswer,
    /// Out of memory.
    Memory,
    /// There were 2^64 - 1 reads, messages or connections, and no end.
    Endless,
}

impl PushFault {
    /// Returns its name.
    fn name(self) -> &'static str {
        match self {
            PushFault::Input(fault) => input_name(fault),
            PushFault::Read => "Read",
            PushFault::Clock => "Clock",
            PushFault::Connect => "Connect",
            PushFault::Elsewhere => "Elsewhere",
            PushFault::BadAnswer => "BadAnswer",
            PushFault::Memory => "Memory",
            PushFault::Endless => "Endless",
        }
    }
}

/// Returns the name of a fault of the encoder's bytes, without the type of box to blame.
fn input_name(fault: StreamFault) -> &'static str {
    match fault {
        StreamFault::BadBox => "BadBox",
        StreamFault::TooLarge => "TooLarge",
        StreamFault::NoMoov => "NoMoov",
        StreamFault::Missing(_) => "Missing",
        StreamFault::Several(_) => "Several",
        StreamFault::NoTimeScale => "NoTimeScale",
        StreamFault::OtherTrack => "OtherTrack",
        StreamFault::TooLong => "TooLong",
        StreamFault::Cut => "Cut",
        StreamFault::Memory => "Memory",
    }
}

impl fmt::Display for PushFault {
    fn fmt<W: fmt::Write>(&self, f: &mut fmt::Formatter<W>) -> fmt::Result {
        f.write_str(self.name())?;
        match self {
            PushFault::Input(StreamFault::Missing(kind) | StreamFault::Several(kind)) => write!(
                f,
                " {kind}"
            ),
            _ => Ok(()),
        }
    }
}

impl From<AllocError> for PushFault {
    ghost use Rattle.std.specs.Prelude.{◌≡◌};
    ghost use Rattle.ll_push.specs.declared.fault.PushFault.TheVariants.{Memory};

    ghost from_gives = { λ error fault. fault ≡ Memory };

    fn from(_error: AllocError) -> PushFault {
        PushFault::Memory
    }
}

impl From<StreamFault> for PushFault {
    ghost use Rattle.std.specs.Prelude.{◌≡◌};
    ghost use Rattle.ll_push.specs.Faults.{of_input};

    ghost from_gives = { λ fault push. push ≡ of_input fault };

    /// Converts a fault of the encoder's bytes; `Memory` stays `Memory`.
    fn from(fault: StreamFault) -> PushFault {
        match fault {
            StreamFault::Memory => PushFault::Memory,
            other => PushFault::Input(other),
        }
    }
}
