//! Spells numbers as the names of codecs have them.
ghost use Rattle.std.specs.Prelude.{◌≡◌, ◌<◌, IfOk, string_bytes};
ghost use Rattle.ll_codecs.specs.Spelling as spec;

use std::alloc::{AllocError, Global};

/// Returns `byte` as two hexadecimal digits.
#[tactic(auto, using(crate::proofs::SpellingLemmas::hex_written))]
pub(crate) fn hex_byte(alloc: Global, byte: u8) -> Result<String, AllocError>
    ensures { IfOk result (λ t. string_bytes t ≡ spec.hex_byte byte) }
{
    format!(in alloc; "{byte:02x}")
}

/// Returns `number`, which is below 100, as two decimal digits.
#[tactic(auto, using(crate::proofs::SpellingLemmas::digit_written))]
pub(crate) fn two_digits(alloc: Global, number: u8) -> Result<String, AllocError>
    requires { number < 100 }
    ensures { IfOk result (λ t. string_bytes t ≡ spec.two_digits number) }
{
    let (tens, ones) = (number / 10, number % 10);
    format!(in alloc; "{tens}{ones}")
}
