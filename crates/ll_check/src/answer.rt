//! The line with the result of a check.
ghost use Rattle.std.specs.Prelude.{◌≡◌, IfOk, string_bytes};
ghost use Rattle.ll_check.specs.Answer as spec;

use ll_entry::{CheckFault, CheckKind};
use std::alloc::{AllocError, Global};

/// Returns the line `ok N` for a chain of N entries that is right, `bad ENTRY NAME` for one that is wrong.
pub fn answer_line(alloc: Global, answer: Result<u64, CheckFault>) -> Result<String, AllocError>
    ensures { IfOk result (λ t. string_bytes t ≡ spec.answer_line answer) }
{
    match answer {
        Ok(entries) => ok_line(alloc, entries),
        Err(fault) => bad_line(alloc, fault.entry, kind_name(fault.kind)),
    }
}

#[tactic(auto, unfolding(crate::specs::Answer::ok_line))]
fn ok_line(alloc: Global, entries: u64) -> Result<String, AllocError>
    ensures { IfOk result (λ t. string_bytes t ≡ spec.ok_line entries) }
{
    format!(in alloc; "ok {entries}\n")
}

#[tactic(auto, unfolding(crate::specs::Answer::bad_line))]
fn bad_line(alloc: Global, entry: u64, name: &str) -> Result<String, AllocError>
    ensures { IfOk result (λ t. string_bytes t ≡ spec.bad_line entry name.now) }
{
    format!(in alloc; "bad {entry} {name}\n")
}

/// Returns the name of a kind of fault.
fn kind_name(kind: CheckKind) -> &'static str
    ensures { result.now ≡ spec.kind_name kind }
{
    match kind {
        CheckKind::BadChunk => "BadChunk",
        CheckKind::Gap => "Gap",
        CheckKind::OtherChannel => "OtherChannel",
        CheckKind::Refused => "Refused",
        CheckKind::WrongReply => "WrongReply",
        CheckKind::Memory => "Memory",
    }
}
