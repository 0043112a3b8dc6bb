//! The law of feeds, the contract of an empty function.
ghost use Rattle.ll_publish.specs.Laws.{FewAreKept, NoneIsLeft, WholeStreams};

/// States what holds after any calls, in any order. The lines that were returned and those that are still to come are the lines of
/// all bytes together, in whatever pieces they came. And if `next` returns none, none is left, and the feed keeps at most 1,052,674
/// bytes: a line, with its end, and an item's bytes.
pub fn feed_law()
    ensures streams { WholeStreams }
    ensures none_left { NoneIsLeft }
    ensures few_kept { FewAreKept }
{}
