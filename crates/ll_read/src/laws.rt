//! Laws: each is proved from the definitions, and does nothing.
ghost use Rattle.ll_read.specs.Readable.{ReadIsReadableLaw, ReadsBackLaw, SpelledAgainLaw};

/// What is written is read again: the text of a playlist within bounds is read as that playlist.
pub fn reads_back_law()
    ensures { ReadsBackLaw }
{}

/// What was read is written again: the text of a playlist that was read is the text that it was read from, with LF at the end of each line.
pub fn spelled_again_law()
    ensures { SpelledAgainLaw }
{}

/// What is read is within bounds, and its lines are allowed where they are, so that [`reads_back_law`] applies to it.
pub fn read_is_readable_law()
    ensures { ReadIsReadableLaw }
{}
