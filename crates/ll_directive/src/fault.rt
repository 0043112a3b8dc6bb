//! What can be wrong with the target of a request.
ghost use Rattle.std.specs.Prelude.{◌≡◌};
ghost use Rattle.ll_directive.specs.Targets.{status_of, fault_name};

use std::alloc::AllocError;

/// The first fault of a target, in this order.
#[derive(Clone, Copy, Debug)]
pub enum TargetFault {
    /// It hasn't the form of a target.
    BadTarget,
    /// Its path is neither that of a playlist nor that of media.
    NotFound,
    /// A `_HLS_msn` that is no number below 2^64.
    BadMsn,
    /// A `_HLS_part` that is no number below 2^64.
    BadPart,
    /// A `_HLS_skip` that is neither `YES` nor `v2`.
    BadSkip,
    /// A directive that occurs more than once.
    Double,
    /// A `_HLS_part` without a `_HLS_msn`.
    PartAlone,
    /// Out of memory.
    Memory,
}

impl From<AllocError> for TargetFault {
    ghost use Rattle.ll_directive.specs.declared.fault.TargetFault.TheVariants.{Memory};

    ghost from_gives = { λ error fault. fault ≡ Memory };

    fn from(_error: AllocError) -> TargetFault {
        TargetFault::Memory
    }
}

impl TargetFault {
    /// Returns the HTTP status of the answer.
    pub fn status(self) -> u16
        ensures { result ≡ status_of self }
    {
        match self {
            TargetFault::NotFound => 404,
            TargetFault::Memory => 503,
            _ => 400,
        }
    }

    /// Returns the name that players read.
    pub fn name(self) -> &'static str
        ensures { result.now ≡ fault_name self }
    {
        match self {
            TargetFault::BadTarget => "BadTarget",
            TargetFault::NotFound => "NotFound",
            TargetFault::BadMsn => "BadMsn",
            TargetFault::BadPart => "BadPart",
            TargetFault::BadSkip => "BadSkip",
            TargetFault::Double => "Double",
            TargetFault::PartAlone => "PartAlone",
            TargetFault::Memory => "Memory",
        }
    }
}
