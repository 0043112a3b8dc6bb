//! Worked examples of the definitions of this crate.
ghost use Rattle.ll_store.specs.Worked.{WorkedMedia};

/// States that the definitions give the right bytes for a small channel. It does nothing when it runs.
pub fn store_law()
    ensures { WorkedMedia }
{}
