//! Worked examples of the definitions, as the contract of an empty function.
ghost use Rattle.ll_replay.specs.Worked.{WorkedScript};

/// States what the definitions say of small scripts: all that is written for each, byte for byte.
pub fn worked_script()
    ensures { WorkedScript }
{}
