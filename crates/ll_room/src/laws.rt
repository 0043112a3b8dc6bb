//! Laws: each is proved from the definitions, and does nothing.
ghost use Rattle.std.specs.Prelude.{◌≡◌, false, true};
ghost use Rattle.ll_verdict.specs.Full.{is_full};

/// A channel that has taken 2^60 events is full; one that has taken one less is not.
pub fn event_limit_law()
    ensures reached { is_full 1152921504606846976 ≡ true }
    ensures before { is_full 1152921504606846975 ≡ false }
{}
