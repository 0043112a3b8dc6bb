//! Why the program didn't do what it was called to do, and its exit statuses.
ghost use Rattle.std.specs.Prelude.{◌≡◌, ◌≢◌};
ghost use Rattle.ll_command.specs.Status.{status_of};
ghost use Rattle.ll_command.specs.Status as spec;

use ll_apply::ApplyFault;
use ll_check::{RecordFault, RecordReadFault};
use ll_entry::{CheckFault, CheckKind};
use ll_push::PushFault;
use ll_replay::RunFault;
use std::alloc::AllocError;
use std::io::ErrorKind;
use thiserror::Error;

/// Why the program didn't do what it was called to do.
#[derive(Clone, Copy, Debug, Error)]
pub enum Fault {
    /// Wrong usage: the words aren't a command.
    #[error("usage")]
    Usage,
    /// A file couldn't be read.
    #[error("Read")]
    Read,
    /// A record didn't end within 2^32 reads.
    #[error("Endless")]
    Endless,
    /// A record wasn't right when it was read again.
    #[error("Changed")]
    Changed,
    /// Standard output took no more.
    #[error("Write")]
    Write,
    /// Out of memory for the arguments or a file.
    #[error("Memory")]
    Memory,
    /// A script wasn't run to its end.
    #[error("{0}")]
    Replay(RunFault),
    /// The number of a line of the settings file that isn't allowed in its place.
    #[error("BadLine {0}")]
    BadLine(u64),
    /// A record has no entry of the number that was asked for.
    #[error("NoEntry")]
    NoEntry,
    /// The number, from 1, of a rendition to be named that the channel doesn't have.
    #[error("NoRendition {0}")]
    NoRendition(u64),
    /// The number, from 1, of a rendition to be named whose Media Initialization Section can't be read.
    #[error("BadInit {0}")]
    BadInit(u64),
    /// The number, from 1, of a rendition to be named that has no finished segment.
    #[error("NoSegment {0}")]
    NoSegment(u64),
    /// A number of a Multivariant Playlist is above 2^64.
    #[error("TooLarge")]
    TooLarge,
    /// The program couldn't listen at an address.
    #[error("Listen")]
    Listen,
    /// The clock couldn't be read.
    #[error("Clock")]
    Clock,
    /// A delta update couldn't be applied.
    #[error("{0}")]
    Apply(ApplyFault),
    /// Not all of an encoder's output was published.
    #[error("{0}")]
    Push(PushFault),
    /// What was to be published begins with no box of an MP4.
    #[error("NotMp4")]
    NotMp4,
}

impl From<AllocError> for Fault {
    ghost use Rattle.std.specs.Prelude.{◌≡◌};
    ghost use Rattle.ll_command.specs.declared.fault.Fault.TheVariants.{Memory};

    ghost from_gives = { λ error fault. fault ≡ Memory };

    fn from(_error: AllocError) -> Fault {
        Fault::Memory
    }
}

impl Fault {
    /// Returns the exit status: 2 for wrong usage, 3 if the input is to blame, 4 for any other fault.
    pub fn status(self) -> u8
        ensures { result ≡ status_of self }
    {
        match self {
            Fault::Usage => 2,
            Fault::BadLine(_) | Fault::NoEntry | Fault::NotMp4 => 3,
            Fault::NoRendition(_) | Fault::BadInit(_) | Fault::NoSegment(_) | Fault::TooLarge => 3,
            Fault::Read
            | Fault::Endless
            | Fault::Changed
            | Fault::Write
            | Fault::Memory
            | Fault::Listen
            | Fault::Clock => 4,
            Fault::Replay(fault) => replay_status(fault),
            Fault::Apply(fault) => apply_status(fault),
            Fault::Push(fault) => push_status(fault),
        }
    }
}

/// Returns the fault of a record that wasn't read to its end.
pub(crate) fn read_fault(fault: RecordReadFault) -> Fault
    ensures { result ≡ spec.read_fault fault }
{
    match fault {
        RecordReadFault::Read => Fault::Read,
        RecordReadFault::Endless => Fault::Endless,
        RecordReadFault::Memory => Fault::Memory,
    }
}

/// Returns the fault of a record that was right, and was read again.
pub(crate) fn changed_fault(fault: RecordFault) -> Fault
    ensures { result ≡ spec.changed_fault fault }
{
    match fault {
        RecordFault::Wrong(
            CheckFault {
                kind: CheckKind::Memory,
                ..
            },
        ) => Fault::Memory,
        RecordFault::Wrong(_) => Fault::Changed,
        RecordFault::Unread(fault) => read_fault(fault),
    }
}

/// Returns the fault of an error of std: `Memory` if `kind` is `OutOfMemory`, and else `otherwise`.
pub fn fault_of(kind: ErrorKind, otherwise: Fault) -> Fault
    ensures memory { kind ≡ ErrorKind.OutOfMemory → result ≡ Fault.Memory }
    ensures other { kind ≢ ErrorKind.OutOfMemory → result ≡ otherwise }
{
    if kind == ErrorKind::OutOfMemory {
        Fault::Memory
    } else {
        otherwise
    }
}

/// Returns the exit status of a script: 3 if a line is to blame, 4 for any other fault.
fn replay_status(fault: RunFault) -> u8
    ensures { result ≡ spec.replay_status fault }
{
    match fault {
        RunFault::BadLine { .. } | RunFault::LineTooLong { .. } => 3,
        RunFault::Read | RunFault::Write | RunFault::Endless | RunFault::Memory => 4,
    }
}

/// Returns the exit status of a delta update: 3 if a file is to blame, 4 if out of memory.
fn apply_status(fault: ApplyFault) -> u8
    ensures { result ≡ spec.apply_status fault }
{
    match fault {
        ApplyFault::BadBase | ApplyFault::BadDelta | ApplyFault::NotRecent { .. } => 3,
        ApplyFault::Memory => 4,
    }
}

/// Returns the exit status of publishing: 3 if the encoder's bytes or where the rendition stands is to blame, 4 for any other fault.
fn push_status(fault: PushFault) -> u8
    ensures { result ≡ spec.push_status fault }
{
    match fault {
        PushFault::Input(_) | PushFault::Elsewhere => 3,
        PushFault::Read
        | PushFault::Clock
        | PushFault::Connect
        | PushFault::BadAnswer
        | PushFault::Memory
        | PushFault::Endless => 4,
    }
}
