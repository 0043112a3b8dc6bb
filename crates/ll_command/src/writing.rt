//! Writes to standard output what the program's commands result in.
ghost use Rattle.std.specs.Prelude.{◌≡◌, ◌≢◌, ◌+◌, ◌<◌, ◌^◌, ◌⊎◌, Bool, List, ℕ, Ok, Err, Some, IfErr, IfOk, IsErr, IsErrOf, IsOk, OnErr, OnOk, is_ok};
ghost use Rattle.std.specs.Io.KnownBytes.{Appends};
ghost use Rattle.ll_apply.specs.Texts.{applied_text};
ghost use Rattle.ll_apply.specs.declared.fault.ApplyFault.{ApplyFault};
ghost use Rattle.ll_apply.specs.declared.fault.ApplyFault.TheVariants as apply_fault;
ghost use Rattle.ll_check.specs.Answer as spec;
ghost use Rattle.ll_command.specs.Cuts.{IsCutShort};
ghost use Rattle.ll_device.specs.Written.{AppendsPrefix};
ghost use Rattle.ll_entry.specs.Chain.{checked};
ghost use Rattle.ll_explain.specs.Explained.{HasNoEntry};
ghost use Rattle.ll_explain.specs.Upgrade.{upgraded};
ghost use Rattle.ll_explain.specs.Words.{IsExplanation};

use crate::fault::{Fault, changed_fault, read_fault};
use ll_apply::apply;
use ll_check::{RecordFault, answer_line, check_source};
use ll_device::{Failed, Reader, Writer, write_all};
use ll_entry::{CheckFault, CheckKind};
use ll_explain::{ExplainFault, UpgradeFault, explain, summarize, summary_text, upgrade};
use std::alloc::{AllocError, Global};

/// Applies the delta update `delta` to the playlist `base`, and writes the full playlist.
pub fn write_applied<W: Writer>(
    alloc: Global,
    base: &[u8],
    delta: &[u8],
    out: &mut W,
) -> Result<(), Fault>
    ensures written { OnOk result ((text : List ℕ) × (applied_text base.now delta.now ≡ Ok text) × Appends (W.written out.old) (W.written out.new) text) }
    ensures refused { (fault : ApplyFault) → IsErrOf result (Fault.Apply fault) → fault ≢ apply_fault.Memory → applied_text base.now delta.now ≡ Err fault }
    ensures memory { IsErrOf result (Fault.Apply apply_fault.Memory) → IsOk (applied_text base.now delta.now) }
    ensures cut { OnErr result (IsCutShort (λ text. applied_text base.now delta.now ≡ Ok text) (W.written out.old) (W.written out.new)) }
    ensures unwritten { IsErrOf result Fault.Write → W.failures out.old < W.failures out.new }
    ensures kinds { IfErr result (λ f. f ≢ Fault.Write → (fault : ApplyFault) × (f ≡ Fault.Apply fault)) }
{
    match apply(alloc, base, delta) {
        Ok(text) => write_out(text.as_str().as_bytes(), out),
        Err(fault) => Err(Fault::Apply(fault)),
    }
}

/// Checks the record that is left in `source`, writes its number of entries or how it isn't right, and returns whether it is right. The
/// record is read in pieces: the memory doesn't grow with it.
pub fn write_checked<R: Reader, W: Writer>(
    alloc: Global,
    source: &mut R,
    out: &mut W,
) -> Result<bool, Fault>
    ensures written { (input : List ℕ) → R.left source.old ≡ Some input → IfOk result (λ right. (right ≡ is_ok (checked input))
        × Appends (W.written out.old) (W.written out.new) (spec.answer_line (checked input))) }
    ensures cut { (input : List ℕ) → R.left source.old ≡ Some input
        → OnErr result (IsCutShort (λ text. text ≡ spec.answer_line (checked input)) (W.written out.old) (W.written out.new)) }
    ensures unwritten { IsErrOf result Fault.Write → W.failures out.old < W.failures out.new }
    ensures read { IsErrOf result Fault.Read → R.failures source.old < R.failures source.new }
    ensures endless { IsErrOf result Fault.Endless → R.reads source.new ≡ R.reads source.old + 2 ^ 32 }
    ensures kinds { IfErr result (λ f. f ≢ Fault.Write → f ≢ Fault.Read → f ≢ Fault.Endless → f ≡ Fault.Memory) }
{
    match check_source(alloc, source) {
        Ok(entries) => write_answer(alloc, Ok(entries), out),
        Err(RecordFault::Wrong(fault)) => write_answer(alloc, Err(fault), out),
        Err(RecordFault::Unread(fault)) => Err(read_fault(fault)),
    }
}

/// Writes the record that is left in `source` in format 2, or how it isn't right, and returns whether it is right. The record is read in pieces,
/// first to check it, and then, left in `again`, to write it as it is read: the memory doesn't grow with it. Fails with `Changed` if it isn't
/// right then. If it fails, a prefix was written.
pub fn write_upgraded<R: Reader, S: Reader, W: Writer>(
    alloc: Global,
    source: &mut R,
    again: &mut S,
    out: &mut W,
) -> Result<bool, Fault>
    ensures written { (input : List ℕ) → R.left source.old ≡ Some input → S.left again.old ≡ Some input → IfOk result (λ right. (right ≡ is_ok (checked input))
        × Appends (W.written out.old) (W.written out.new) (spec.upgrade_answer (checked input) (upgraded input))) }
    ensures cut { (input next : List ℕ) → R.left source.old ≡ Some input → S.left again.old ≡ Some next
        → OnErr result (AppendsPrefix (W.written out.old) (W.written out.new) (spec.upgrade_answer (checked input) (upgraded next))) }
    ensures unwritten { (input : List ℕ) → S.left again.old ≡ Some input → IsErrOf result Fault.Write → W.failures out.old < W.failures out.new }
    ensures right { (input : List ℕ) → R.left source.old ≡ Some input → IsErrOf result Fault.Changed → IsOk (checked input) }
    ensures changed { (input : List ℕ) → S.left again.old ≡ Some input → IsErrOf result Fault.Changed → IsErr (checked input) }
    ensures read { IsErrOf result Fault.Read → (R.failures source.old < R.failures source.new) ⊎ (S.failures again.old < S.failures again.new) }
    ensures endless { IsErrOf result Fault.Endless
        → (R.reads source.new ≡ R.reads source.old + 2 ^ 32) ⊎ (S.reads again.new ≡ S.reads again.old + 2 ^ 32) }
    ensures kinds { IfErr result (λ f. f ≢ Fault.Write → f ≢ Fault.Read → f ≢ Fault.Endless → f ≢ Fault.Changed → f ≡ Fault.Memory) }
{
    match check_source(alloc, source) {
        Ok(_) => {}
        Err(RecordFault::Wrong(fault)) => return write_answer(alloc, Err(fault), out),
        Err(RecordFault::Unread(fault)) => return Err(read_fault(fault)),
    }
    match upgrade(alloc, again, out) {
        Ok(()) => Ok(true),
        Err(UpgradeFault::Write) => Err(Fault::Write),
        Err(UpgradeFault::Record(fault)) => Err(changed_fault(fault)),
    }
}

/// Writes the explanation of entry `entry` of the record that is left in `source`, or how the record isn't right up to it, and returns whether
/// it is right up to it. Fails with `NoEntry` if there is no such entry. The record is read in pieces.
pub fn write_explained<R: Reader, W: Writer>(
    alloc: Global,
    source: &mut R,
    entry: u64,
    out: &mut W,
) -> Result<bool, Fault>
    ensures written { (input : List ℕ) → R.left source.old ≡ Some input
        → IfOk result (λ right. (text : List ℕ) × IsExplanation input entry right text × Appends (W.written out.old) (W.written out.new) text) }
    ensures cut { (input : List ℕ) → R.left source.old ≡ Some input
        → OnErr result (IsCutShort (λ text. (right : Bool) × IsExplanation input entry right text) (W.written out.old) (W.written out.new)) }
    ensures unwritten { IsErrOf result Fault.Write → W.failures out.old < W.failures out.new }
    ensures none { (input : List ℕ) → R.left source.old ≡ Some input → IsErrOf result Fault.NoEntry → HasNoEntry input entry }
    ensures read { IsErrOf result Fault.Read → R.failures source.old < R.failures source.new }
    ensures endless { IsErrOf result Fault.Endless → R.reads source.new ≡ R.reads source.old + 2 ^ 32 }
    ensures kinds { IfErr result (λ f. f ≢ Fault.Write → f ≢ Fault.Read → f ≢ Fault.Endless → f ≢ Fault.NoEntry → f ≡ Fault.Memory) }
{
    match explain(alloc, source, entry) {
        Ok(explained) => match explained.text(alloc, entry) {
            Ok(text) => {
                write_out(text.as_bytes(), out)?;
                Ok(true)
            }
            Err(AllocError) => Err(Fault::Memory),
        },
        Err(ExplainFault::Record(RecordFault::Wrong(fault))) => write_answer(
            alloc,
            Err(fault),
            out,
        ),
        Err(ExplainFault::Record(RecordFault::Unread(fault))) => Err(read_fault(fault)),
        Err(ExplainFault::NoEntry) => Err(Fault::NoEntry),
    }
}

/// Writes a summary of each chain of the record that is left in `source`, or how the record isn't right, and returns whether it is right. The
/// record is read in pieces.
pub fn write_summary<R: Reader, W: Writer>(
    alloc: Global,
    source: &mut R,
    out: &mut W,
) -> Result<bool, Fault>
    ensures right { (input : List ℕ) → R.left source.old ≡ Some input → IfOk result (λ right. right ≡ is_ok (checked input)) }
    ensures unwritten { IsErrOf result Fault.Write → W.failures out.old < W.failures out.new }
    ensures read { IsErrOf result Fault.Read → R.failures source.old < R.failures source.new }
    ensures endless { IsErrOf result Fault.Endless → R.reads source.new ≡ R.reads source.old + 2 ^ 32 }
    ensures kinds { IfErr result (λ f. f ≢ Fault.Write → f ≢ Fault.Read → f ≢ Fault.Endless → f ≡ Fault.Memory) }
{
    match summarize(alloc, source) {
        Ok(chains) => match summary_text(alloc, &chains) {
            Ok(text) => {
                write_out(text.as_bytes(), out)?;
                Ok(true)
            }
            Err(AllocError) => Err(Fault::Memory),
        },
        Err(RecordFault::Wrong(fault)) => write_answer(alloc, Err(fault), out),
        Err(RecordFault::Unread(fault)) => Err(read_fault(fault)),
    }
}

/// Writes the line of a record's check, and returns whether the record is right.
pub(crate) fn write_answer<W: Writer>(
    alloc: Global,
    answer: Result<u64, CheckFault>,
    out: &mut W,
) -> Result<bool, Fault>
    ensures written { IfOk result (λ right. (right ≡ is_ok answer) × Appends (W.written out.old) (W.written out.new) (spec.answer_line answer)) }
    ensures cut { OnErr result (AppendsPrefix (W.written out.old) (W.written out.new) (spec.answer_line answer)) }
    ensures none { IfErr answer (λ f. f.kind ≡ CheckKind.Memory → out.new ≡ out.old) }
    ensures told { IfOk result (λ right. IfErr answer (λ f. f.kind ≢ CheckKind.Memory)) }
    ensures unwritten { IsErrOf result Fault.Write → W.failures out.old < W.failures out.new }
    ensures kinds { IfErr result (λ f. f ≢ Fault.Write → f ≡ Fault.Memory) }
{
    if let Err(
        CheckFault {
            kind: CheckKind::Memory,
            ..
        },
    ) = answer
    {
        return Err(Fault::Memory);
    }
    match answer_line(alloc, answer) {
        Ok(line) => write_out(line.as_bytes(), out)?,
        Err(AllocError) => return Err(Fault::Memory),
    }
    Ok(answer.is_ok())
}

/// Writes `bytes`.
pub(crate) fn write_out<W: Writer>(bytes: &[u8], out: &mut W) -> Result<(), Fault>
    ensures written { OnOk result (Appends (W.written out.old) (W.written out.new) bytes.now) }
    ensures cut { OnErr result (AppendsPrefix (W.written out.old) (W.written out.new) bytes.now) }
    ensures failed { IfErr result (λ f. (f ≡ Fault.Write) × (W.failures out.old < W.failures out.new)) }
{
    match write_all(out, bytes) {
        Ok(()) => Ok(()),
        Err(Failed) => Err(Fault::Write),
    }
}
