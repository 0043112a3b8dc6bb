//! The frame of a chunk: the lines before its entries and after them.
ghost use Rattle.std.specs.Prelude.{◌≡◌, IfOk, string_bytes};
ghost use Rattle.ll_entry.specs.Frame as spec;

use crate::version::Version;
use ll_attr::after;
use ll_format::number;
use std::alloc::{AllocError, Global};

/// The last line of each chunk.
pub const LAST_LINE: &str = "#END";

/// Returns the first three lines of a chunk in this format. `settings` is the second, the settings line; `at` is the number of entries of
/// its chain before the chunk.
#[tactic(auto, unfolding(crate::specs::Frame::header_text))]
pub fn header_text(
    alloc: Global,
    version: Version,
    settings: &str,
    at: u64,
) -> Result<String, AllocError>
    ensures { IfOk result (λ t. string_bytes t ≡ spec.header_text version settings.now at) }
{
    let first = version.first_line();
    format!(in alloc; "{first}\n{settings}\nat {at}\n")
}

/// Returns how many entries of its chain are before a chunk whose third line is `line`, `at N`; `None` if it is no such line.
pub fn place_in(line: &str) -> Option<u64>
    ensures { result ≡ spec.place.read line.now }
{
    number(after(line, "at ")?, u64::MAX)
}
