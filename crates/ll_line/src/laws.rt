//! Laws of the definitions of this crate, stated by functions that do nothing when they run.
ghost use Rattle.ll_line.specs.Laws.{ReadIsSpelled, SpelledIsRead, OnOneLine};

/// States that a line which is parsed is within its bounds, and is written as it was.
pub fn read_is_spelled_law()
    ensures { ReadIsSpelled }
{}

/// States that a line within its bounds is parsed again from what is written.
pub fn spelled_is_read_law()
    ensures { SpelledIsRead }
{}

/// States that a line within its bounds is written without CR and LF.
pub fn one_line_law()
    ensures { OnOneLine }
{}
