//! Laws of the definitions of this crate, stated by functions that do nothing when they run.
ghost use Rattle.ll_window.specs.Compact.{RangesLaw};
ghost use Rattle.ll_window.specs.Numbers.{NumbersLaw};
ghost use Rattle.ll_window.specs.Wants.{WantsLaw};
ghost use Rattle.ll_window.specs.Window.{WindowLaw};

/// States that the Media Sequence Numbers of segments and the places of their parts are the numbers and indexes of the parts counted
/// one by one (section 4.4.4.9).
pub fn numbers_law()
    ensures { NumbersLaw }
{}

/// States that the window is the shortest suffix of the finished segments that lasts long enough, or all of them if they last
/// less (section 6.2.2).
pub fn window_law()
    ensures { WindowLaw }
{}

/// States that adding or removing a date range changes nothing of what is kept of segments and parts.
pub fn ranges_law()
    ensures { RangesLaw }
{}

/// States that a segment or part that is there stays there, whatever items follow; that date ranges don't change what is there; and that a
/// Part Index past the last part of a finished segment stands for the first part of the next one (section 6.2.5.2).
pub fn wants_law()
    ensures { WantsLaw }
{}
