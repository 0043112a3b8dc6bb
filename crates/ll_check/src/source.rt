//! The check of a record that is read in pieces.
ghost use Rattle.std.specs.Prelude.{◌≡◌, ◌+◌, ◌<◌, ◌^◌, IfErr, IfOk, List, Ok, Some, ℕ};
ghost use Rattle.ll_check.specs.Unread.{IsFaultOf, IsStopped};
ghost use Rattle.ll_entry.specs.Chain.{checked};

use crate::going::go_over;
use crate::unread::RecordReadFault;
use crate::visitor::Silent;
use ll_device::Reader;
use ll_entry::CheckFault;
use std::alloc::Global;

/// Why a record that is read in pieces has no answer.
#[derive(Clone, Copy)]
pub enum RecordFault {
    /// It is wrong, or out of memory.
    Wrong(CheckFault),
    /// It wasn't read to its end.
    Unread(RecordReadFault),
}

impl From<CheckFault> for RecordFault {
    ghost use Rattle.std.specs.Prelude.{◌≡◌};
    ghost use Rattle.ll_check.specs.declared.source.RecordFault.TheVariants.{Wrong};

    ghost from_gives = { λ fault given. given ≡ Wrong fault };

    fn from(fault: CheckFault) -> RecordFault {
        RecordFault::Wrong(fault)
    }
}

impl From<RecordReadFault> for RecordFault {
    ghost use Rattle.std.specs.Prelude.{◌≡◌};
    ghost use Rattle.ll_check.specs.declared.source.RecordFault.TheVariants.{Unread};

    ghost from_gives = { λ fault given. given ≡ Unread fault };

    fn from(fault: RecordReadFault) -> RecordFault {
        RecordFault::Unread(fault)
    }
}

/// Checks the record that is left in `source`, as [`check`](crate::check) does, but reads it in pieces. Its memory depends on the channel
/// and the longest line, not on the length of the record.
pub fn check_source<R: Reader>(alloc: Global, source: &mut R) -> Result<u64, RecordFault>
    ensures value { (input : List ℕ) → R.left source.old ≡ Some input → IfOk result (λ n. checked input ≡ Ok n) }
    ensures wrong { (input : List ℕ) → R.left source.old ≡ Some input → IfErr result (IsFaultOf input) }
    ensures stopped { IfErr result (IsStopped (R.failures source.old < R.failures source.new) (R.reads source.new ≡ R.reads source.old + 2 ^ 32)) }
{
    go_over(alloc, source, &mut Silent, &mut ())
}
