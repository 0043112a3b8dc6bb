//! How fast a rendition is, in bits a second (section 4.4.6.2).
ghost use Rattle.std.specs.Prelude.{◌≡◌, ◌≤◌, ◌^◌, ◌⊎◌, IfNone, IfSome, MatchOption};
ghost use Rattle.ll_variants.specs.Rates as spec;
ghost use Rattle.ll_variants.specs.Segments.{IsLarge, no_size, sum_of};

use crate::segments::Size;

/// How fast a rendition is.
#[derive(Clone, Copy)]
pub struct Rates {
    /// The peak segment bit rate, in bits a second (BANDWIDTH).
    pub bandwidth: u64,
    /// The bit rate of all segments together, in bits a second (AVERAGE-BANDWIDTH).
    pub average: u64,
}

/// Returns how fast `segments` are, if the target duration is `target` seconds. Returns `None` if a sum or a rate is above 2^64.
pub fn rates_of(target: u64, segments: &[Size]) -> Option<Rates>
    requires { target ≤ 60 }
    ensures rates { IfSome result (λ rates. rates ≡ spec.rates target segments.now) }
    ensures large { IfNone result (IsLarge (sum_of segments.now) ⊎ spec.AreLarge (spec.rates target segments.now)) }
{
    let average = average(segments)?;
    let bandwidth = peak(target, segments)?.max(average);
    Some(Rates { bandwidth, average })
}

/// Returns the rate of all of `segments` together.
fn average(segments: &[Size]) -> Option<u64>
    ensures { MatchOption result (IsLarge (sum_of segments.now) ⊎ (2 ^ 64 ≤ spec.average segments.now))
        (λ n. n ≡ spec.average segments.now) }
{
    let mut sum = Size::none();
    let mut left = segments;
    'segments: while let Some((segment, more)) = left.split_first() {
        sum = sum.plus(*segment)?;
        left = more;
    }
    rate(sum)
}

/// Returns the peak segment bit rate of `segments`.
fn peak(target: u64, segments: &[Size]) -> Option<u64>
    requires { target ≤ 60 }
    ensures { MatchOption result (IsLarge (sum_of segments.now) ⊎ (2 ^ 64 ≤ spec.peak target segments.now))
        (λ n. n ≡ spec.peak target segments.now) }
{
    let mut peak = 0_u64;
    let mut left = segments;
    'sets: while let Some((_first, more)) = left.split_first() {
        peak = peak.max(peak_from(target, left)?);
        left = more;
    }
    Some(peak)
}

/// Returns the largest rate of the contiguous sets that begin with the first of `segments`. It ends at the first set that lasts too long.
fn peak_from(target: u64, segments: &[Size]) -> Option<u64>
    requires { target ≤ 60 }
    ensures { MatchOption result (IsLarge (sum_of segments.now) ⊎ (2 ^ 64 ≤ spec.fastest target (spec.sums_from no_size segments.now)))
        (λ n. n ≡ spec.fastest target (spec.sums_from no_size segments.now)) }
{
    let mut peak = 0_u64;
    let mut sum = Size::none();
    let mut left = segments;
    'segments: while let Some((segment, more)) = left.split_first() {
        sum = sum.plus(*segment)?;
        if target * 1_500_000 < sum.duration {
            return Some(peak);
        }
        if is_counted(target, sum) {
            peak = peak.max(rate(sum)?);
        }
        left = more;
    }
    Some(peak)
}

/// Returns whether a set of the size `sum` lasts between 0.5 and 1.5 target durations.
fn is_counted(target: u64, sum: Size) -> bool
    requires { target ≤ 60 }
    ensures { result ≡ spec.is_counted target sum }
{
    target * 500_000 <= sum.duration && sum.duration <= target * 1_500_000
}

/// Returns the rate of `size`, rounded up, or `None` if it is above 2^64.
fn rate(size: Size) -> Option<u64>
    ensures { MatchOption result (2 ^ 64 ≤ spec.rate size) (λ n. n ≡ spec.rate size) }
{
    if size.duration == 0 {
        return Some(0);
    }
    let duration = size.duration as u128;
    let rate = (size.bytes as u128 * 8_000_000 + (duration - 1)) / duration;
    u64::try_from(rate).ok()
}
