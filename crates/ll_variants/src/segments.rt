//! The finished segments of a rendition, as the sums of what its items add.
ghost use Rattle.std.specs.Prelude.{◌≡◌, ◌≢◌, [], ◌++◌, IfOk, IsErrOf, MatchOption};
ghost use Rattle.ll_variants.specs.Segments as spec;

use crate::stream::VariantFault;
use std::alloc::Global;

/// A number of bytes and a duration.
#[derive(Clone, Copy)]
pub struct Size {
    /// The number of bytes.
    pub bytes: u64,
    /// The duration in microseconds.
    pub duration: u64,
}

/// What an item adds to the segments of its rendition.
#[derive(Clone, Copy)]
pub struct Addition {
    /// The index of the rendition in the settings of its channel.
    pub rendition: usize,
    /// The size of the part that the item is, or nothing.
    pub size: Size,
    /// Whether the item ends an open segment.
    pub ends: bool,
}

impl Size {
    /// Returns no bytes and no duration.
    pub fn none() -> Size
        ensures { result ≡ spec.no_size }
    {
        Size {
            bytes: 0,
            duration: 0,
        }
    }

    /// Returns the sum with `other`, or `None` if it is above 2^64.
    pub(crate) fn plus(self, other: Size) -> Option<Size>
        ensures { MatchOption result (spec.IsLarge (spec.plus self other)) (λ sum. sum ≡ spec.plus self other) }
    {
        let bytes = self.bytes.checked_add(other.bytes)?;
        let duration = self.duration.checked_add(other.duration)?;
        Some(Size { bytes, duration })
    }
}

/// Returns the finished segments of the rendition with the index `rendition`, whose items are among `additions`.
pub fn finished_segments(
    alloc: Global,
    rendition: usize,
    additions: &[Addition],
) -> Result<Vec<Size>, VariantFault>
    ensures segments { IfOk result (λ segments. segments.items ≡ spec.segments_of rendition additions.now) }
    ensures large { IsErrOf result VariantFault.TooLarge → spec.IsLarge (spec.total rendition additions.now) }
    ensures memory { IsErrOf result VariantFault.Memory → spec.segments_of rendition additions.now ≢ [] }
{
    let mut segments = Vec::new(alloc);
    let mut sum = Size::none();
    let mut left = additions;
    'additions: while let Some((addition, more)) = left.split_first() {
        if addition.rendition == rendition {
            sum = sum.plus(addition.size).ok_or(VariantFault::TooLarge)?;
            if is_end(addition, sum) {
                if segments.push(sum).is_err() {
                    return Err(VariantFault::Memory);
                }
                sum = Size::none();
            }
        }
        left = more;
    }
    Ok(segments)
}

/// Returns whether `addition` ends the open segment, which has the size `sum` with it.
fn is_end(addition: &Addition, sum: Size) -> bool
    ensures { result ≡ spec.is_end addition.now sum }
{
    addition.ends && 0 < sum.duration
}
