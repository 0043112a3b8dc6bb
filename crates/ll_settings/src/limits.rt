//! The law of the limits of settings.
ghost use Rattle.ll_settings.specs.Settings.{LimitsLaw};

/// States the law of the limits: settings break none exactly if each of the facts listed there holds. It does nothing when it runs.
pub fn limits_law()
    ensures { LimitsLaw }
{}
