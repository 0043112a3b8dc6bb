//! Laws: each is proved from the definitions, and does nothing.
ghost use Rattle.ll_apply.specs.NotRecent.{NotRecentLaw};
ghost use Rattle.ll_apply.specs.Worked.{WorkedUpdate};

/// The number in `NotRecent` is the smallest one that the update skips and the earlier playlist lacks.
pub fn not_recent_law()
    ensures { NotRecentLaw }
{}

/// A worked example: a small playlist, a delta update that removes one of its date ranges, and a playlist that is too old for this update.
pub fn worked_update()
    ensures { WorkedUpdate }
{}
