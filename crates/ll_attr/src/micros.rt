//! Durations in microseconds, written and parsed as seconds (decimal-floating-point of section 4.2).
ghost use Rattle.std.specs.Prelude.{◌≡◌, ◌-◌, ◌*◌, ◌^◌, IfOk, Some, None, if◌then◌else◌, length};
ghost use Rattle.std.specs.Str.Parse.{digits_value};
ghost use Rattle.ll_attr.specs.Durations.{seconds, micros_in, ReadsBack};
ghost use Rattle.ll_attr.specs.Numbers.{is_digits};

use crate::number::parse_number;
use crate::parts::cut;
use crate::text::Text;
use std::alloc::{AllocError, Global};
use std::fmt;

/// A duration in microseconds, shown as seconds with six decimals.
#[derive(Clone, Copy)]
pub struct Micros(pub u64);

#[tactic(auto, unfolding(crate::specs::Durations::seconds))]
impl fmt::Display for Micros {
    ghost output = { λ m. Some (seconds m.0) };

    fn fmt<W: fmt::Write>(&self, f: &mut fmt::Formatter<W>) -> fmt::Result {
        let whole = self.0 / 1_000_000;
        let (tenths, hundredths) = (self.0 / 100_000 % 10, self.0 / 10_000 % 10);
        let (thousandths, fourth) = (self.0 / 1_000 % 10, self.0 / 100 % 10);
        let (fifth, sixth) = (self.0 / 10 % 10, self.0 % 10);
        write!(
            f,
            "{whole}.{tenths}{hundredths}{thousandths}{fourth}{fifth}{sixth}"
        )
    }
}

/// Writes `micros`, in microseconds, as seconds with six decimals.
pub fn micros_text(alloc: Global, micros: u64) -> Result<Text, AllocError>
    ensures { IfOk result (λ text. text ≡ seconds micros) }
{
    let duration = Micros(micros);
    Ok(Text::from_string(format!(in alloc; "{duration}")?))
}

/// Parses seconds, 1 to 12 digits and optionally a point and 1 to 6 digits, as microseconds.
#[tactic(auto, using(crate::proofs::ReadsBack::reads_back))]
pub fn parse_micros(text: &str) -> Option<u64>
    ensures value { result ≡ micros_in text.now }
    ensures reads_back { ReadsBack }
{
    match cut(text, '.') {
        None => Some(parse_number(text, 12)? * 1_000_000),
        Some((whole, fraction)) => {
            let whole = parse_number(whole, 12)?;
            let fraction = parse_fraction(fraction)?;
            Some(whole * 1_000_000 + fraction)
        }
    }
}

/// Parses the 1 to 6 digits after the point as microseconds.
fn parse_fraction(text: &str) -> Option<u64>
    ensures { result
        ≡ (if is_digits 6 text.now then Some (digits_value 10 text.now * 10 ^ (6 - length text.now)) else None) }
{
    let digits = parse_number(text, 6)?;
    let missing = 6 - text.len();
    Some(digits * 10_u64.pow(missing as u32))
}
