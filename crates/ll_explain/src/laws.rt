//! What the upgrade of a record keeps, proved.
ghost use Rattle.ll_explain.specs.Upgrade.{UpgradeLaw};

/// States that [`upgrade`](crate::upgrade) makes of a record a record of the same channel in format 2: of the same runs, with the same
/// events, in chunks of the same settings lines that begin at the same entries. So it is found right, with as many entries.
pub fn upgrade_law()
    ensures { UpgradeLaw }
{}
