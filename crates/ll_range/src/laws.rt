//! The law of the definitions of this crate.
ghost use Rattle.ll_range.specs.Announced.{SkippedLaw};

/// States that the date ranges that a delta update may skip are the first ones in order of adding (section 6.2.5.1). It does nothing
/// when it runs.
pub fn skipped_law()
    ensures { SkippedLaw }
{}
