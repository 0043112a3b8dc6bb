//! Runs a script for the program.
ghost use Rattle.std.specs.Prelude.{◌≡◌, ◌<◌, ℕ, List, Some, IfErr, IsErrOf, OnOk};
ghost use Rattle.ll_replay.specs.Stream.{IsWhole};
ghost use Rattle.ll_replay.specs.declared.outcome.RunFault.{RunFault};
ghost use Rattle.ll_replay.specs.declared.outcome.RunFault.TheVariants as run_fault;
ghost use Rattle.ll_replay.specs.declared.outcome.RunSummary.{RunSummary};

use crate::fault::Fault;
use ll_device::{Reader, Writer};
use ll_replay::run;
use std::alloc::Global;

/// Runs the script that is read from `source`, and writes its answers to `sink`. Fails as [`ll_replay::run`] does.
pub fn run_script<R: Reader, W: Writer>(
    alloc: Global,
    source: &mut R,
    sink: &mut W,
) -> Result<(), Fault>
    ensures whole { (input : List ℕ) → R.left source.old ≡ Some input
        → OnOk result ((summary : RunSummary) × IsWhole (W.written sink.old) (W.written sink.new) input summary) }
    ensures kinds { IfErr result (λ f. (fault : RunFault) × (f ≡ Fault.Replay fault)) }
    ensures read_failed { IsErrOf result (Fault.Replay run_fault.Read) → R.failures source.old < R.failures source.new }
    ensures write_failed { IsErrOf result (Fault.Replay run_fault.Write) → W.failures sink.old < W.failures sink.new }
{
    match run(alloc, source, sink) {
        Ok(_) => Ok(()),
        Err(fault) => Err(Fault::Replay(fault)),
    }
}
