//! Writes the lines that answer a publisher.
ghost use Rattle.std.specs.Prelude.{◌≡◌, IfOk, string_bytes};
ghost use Rattle.ll_publish.specs.Refusals as spec;

use crate::refusal::Refusal;
use crate::success::Success;
use itoa::Buffer;
use ll_verdict::Standing;
use std::alloc::{AllocError, Global};

/// Returns the line that answers a publisher's line.
pub fn reply_text(alloc: Global, reply: &Result<Success, Refusal>) -> Result<String, AllocError>
    ensures { IfOk result (λ t. string_bytes t ≡ spec.reply_line reply.now) }
{
    match reply {
        Ok(Success::Accepted(count)) => ok_line(alloc, *count),
        Ok(Success::NotKept(_)) => refusal_line(alloc, 20, "NotKept"),
        Ok(Success::Standing(standing)) => at_line(alloc, standing),
        Ok(Success::Opened) => ok_line(alloc, 0),
        Err(reason) => no_line(alloc, *reason),
    }
}

/// Returns the line that says where a rendition stands.
#[tactic(auto, unfolding(crate::specs::Refusals::at_line))]
pub fn at_line(alloc: Global, standing: &Standing) -> Result<String, AllocError>
    ensures { IfOk result (λ t. string_bytes t ≡ spec.at_line standing.now) }
{
    let Standing {
        count,
        number,
        index,
        end_time,
        time,
        ended,
    } = *standing;
    let last = if ended { " ended" } else { "" };
    format!(in alloc; "at {count} {number} {index} {end_time} {time}{last}\n")
}

/// Returns the line that accepts an item, with which its channel has `count` items.
#[tactic(auto, unfolding(crate::specs::Refusals::ok_line))]
pub fn ok_line(alloc: Global, count: u64) -> Result<String, AllocError>
    ensures { IfOk result (λ t. string_bytes t ≡ spec.ok_line count) }
{
    let mut digits = Buffer::new();
    let mut line = String::from_str(alloc, "ok ")?;
    line.push_str(digits.format(count))?;
    line.push_str("\n")?;
    Ok(line)
}

/// Returns the line that refuses a publisher's line for `reason`.
pub fn no_line(alloc: Global, reason: Refusal) -> Result<String, AllocError>
    ensures { IfOk result (λ t. string_bytes t ≡ spec.no_line reason) }
{
    refusal_line(alloc, reason.code(), reason.name())
}

/// Returns the line that refuses, with a code and a name.
#[tactic(auto, unfolding(crate::specs::Refusals::refusal_line))]
pub fn refusal_line(alloc: Global, code: u64, name: &str) -> Result<String, AllocError>
    ensures { IfOk result (λ t. string_bytes t ≡ spec.refusal_line code name.now) }
{
    format!(in alloc; "no {code} {name}\n")
}
