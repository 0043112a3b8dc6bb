//! What one entry of a record says.
ghost use Rattle.std.specs.Prelude.{◌≡◌, ◌<◌, ◌+◌, ◌^◌, IfOk, IsErrOf, List, Some, ℕ};
ghost use Rattle.ll_check.specs.Found.{so_far};
ghost use Rattle.ll_check.specs.Going.{IsEarly};
ghost use Rattle.ll_check.specs.Unread.{IsFaultOf, IsStopped};
ghost use Rattle.ll_check.specs.declared.source.RecordFault.{RecordFault as FaultValue};
ghost use Rattle.ll_explain.specs.Explained.{HasNoEntry, IsExplained};
ghost use Rattle.ll_explain.specs.Seeking.{time_told};

use ll_attr::Text;
use ll_check::{EntryReply, Reached, RecordFault, Told, Visitor, go_to};
use ll_device::Reader;
use ll_entry_check::FullEntry;
use ll_verdict::Reply;
use std::alloc::Global;

/// What a record says of one of its entries.
#[derive(Drop)]
pub struct Explained {
    /// The channel's time before it, in milliseconds.
    pub time: u64,
    /// Its line.
    pub line: Text,
    /// Its reply: what a request gets at once, or what is handed out to it; `None` if it has none.
    pub reply: Option<Reply>,
}

/// Why an entry isn't explained.
#[derive(Clone, Copy)]
pub enum ExplainFault {
    /// The record is wrong before it or at it, out of memory, or wasn't read up to it.
    Record(RecordFault),
    /// The record has no entry with this number.
    NoEntry,
}

/// Returns what the record that is left in `source` says of the entry with the number `entry`, from 1. The record is read in pieces, and what
/// comes after the entry isn't checked.
pub fn explain<R: Reader>(
    alloc: Global,
    source: &mut R,
    entry: u64,
) -> Result<Explained, ExplainFault>
    ensures right { (input : List ℕ) → R.left source.old ≡ Some input → IfOk result (λ e. IsExplained input entry e.time e.line e.reply) }
    ensures wrong { (input : List ℕ) → R.left source.old ≡ Some input
        → (f : FaultValue) → IsErrOf result (ExplainFault.Record f) → IsFaultOf input f × IsEarly entry f }
    ensures none { (input : List ℕ) → R.left source.old ≡ Some input → IsErrOf result ExplainFault.NoEntry → HasNoEntry input entry }
    ensures stopped { (f : FaultValue) → IsErrOf result (ExplainFault.Record f)
        → IsStopped (R.failures source.old < R.failures source.new) (R.reads source.new ≡ R.reads source.old + 2 ^ 32) f }
{
    let mut time = 0;
    match go_to(alloc, source, entry, &mut Timed, &mut time) {
        Ok(Reached::Entry(EntryReply { line, reply })) => Ok(Explained { time, line, reply }),
        Ok(Reached::End(_)) => Err(ExplainFault::NoEntry),
        Err(fault) => Err(ExplainFault::Record(fault)),
    }
}

/// A visitor to whom lines are the time of their chain's channel.
#[derive(Drop)]
struct Timed;

impl Visitor<u64> for Timed {
    ghost use Rattle.std.specs.Prelude.{◌≡◌};
    ghost use Rattle.ll_check.specs.Found.{so_far};
    ghost use Rattle.ll_explain.specs.Seeking.{time_of};

    ghost holds = { λ first timed ms p lines rest. ms ≡ time_of (so_far p) };

    fn visit(&mut self, time: &mut u64, told: &Told<'_>) -> bool {
        *time = time_after(*time, told);
        true
    }
}

/// Returns the time of a chain's channel after the lines that say `told`, from `time` before them: the largest reading of the chain.
fn time_after(time: u64, told: &Told<'_>) -> u64
    ensures { result ≡ time_told time told.now }
{
    match told {
        Told::Begun(_, 0) => 0,
        Told::Entry(_, _, FullEntry::Clock(ms)) => time.max(*ms),
        _ => time,
    }
}
