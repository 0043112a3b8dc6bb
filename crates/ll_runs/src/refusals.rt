//! Decides which fragments of a governing track are refused, and why.
ghost use Rattle.std.specs.Prelude.{◌≡◌, ◌+◌, ◌<◌, ◌^◌, None, true};
ghost use Rattle.ll_runs.specs.Prompt as prompt;
ghost use Rattle.ll_runs.specs.Refusals as spec;
ghost use Rattle.ll_runs.specs.Times.{is_counted};

use crate::lengths::Lengths;
use crate::times::{SIZE_LIMIT, Times, is_counted, micros};
use ll_mp4::StreamFault;

/// Returns the fault of a fragment that ends at tick `end`, whose samples last `ticks`, and that has `size` bytes with those that go with it;
/// `begins` says whether it begins a run. Returns `None` if no rule refuses it.
pub fn refusal_of(
    lengths: &Lengths,
    scale: u32,
    begins: bool,
    ticks: u64,
    end: u128,
    size: u128,
) -> Option<StreamFault>
    requires { end < 2 ^ 66 }
    ensures refusal { result ≡ spec.refusal_by (spec.is_long lengths.now scale begins ticks) (spec.refusal_of scale end size) }
    ensures counted { result ≡ None → is_counted scale end ≡ true }
{
    let is_long = begins && micros(scale, ticks as u128) > lengths.part as u128;
    if is_long || !is_counted(scale, end) {
        Some(StreamFault::TooLong)
    } else if size > SIZE_LIMIT as u128 {
        Some(StreamFault::TooLarge)
    } else {
        None
    }
}

/// Returns the fault of a fragment that is a part in a run with these `times`, whose samples last `ticks`, and that has `size` bytes, or
/// `None` if no rule refuses it.
pub fn refusal_at(
    lengths: &Lengths,
    scale: u32,
    times: &Times,
    ticks: u64,
    size: u128,
) -> Option<StreamFault>
    ensures refusal { result ≡ spec.refusal_at lengths.now scale times.now ticks size }
    ensures counted { result ≡ None → is_counted scale (times.now.position + ticks) ≡ true }
    ensures early { result ≡ None → prompt.part_end times.now (prompt.part_lasts scale times.now ticks) < 2 ^ 64 }
{
    let end = times.position as u128 + ticks as u128;
    if !is_counted(scale, end) || times.is_past(lengths, times.part_lasts(scale, ticks)) {
        Some(StreamFault::TooLong)
    } else if size > SIZE_LIMIT as u128 {
        Some(StreamFault::TooLarge)
    } else {
        None
    }
}
