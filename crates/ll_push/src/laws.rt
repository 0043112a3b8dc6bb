//! The laws of publications and of answers, each the contract of an empty function.
ghost use Rattle.ll_push.specs.Laws.{AreApart, AreLines, FromTheStart};

/// States that at the start the messages to be sent are those of the pieces of all the encoder's bytes, and that the fault that ends
/// them is that of these bytes.
pub fn publication_law()
    ensures { FromTheStart }
{}

/// States that an answer is one line: one that accepts or refuses has its only LF at its end. So bytes with an LF inside, or with more
/// after it, aren't an answer. None both accepts and refuses.
pub fn answer_law()
    ensures lines { AreLines }
    ensures apart { AreApart }
{}
