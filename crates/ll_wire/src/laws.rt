//! Laws of heads and of responses, each the contract of an empty function.
ghost use Rattle.ll_wire.specs.Laws.{HeadStays, HeadsAreJudged, MediaIsTold, OthersAreBad, OthersAreTold, PartsAreUnfinished, WholeWithin};

/// States that bytes that follow change the result of a parse only if it is unfinished, and that a whole head lies in its bytes.
pub fn heads_stay_law()
    ensures stays { HeadStays }
    ensures within { WholeWithin }
{}

/// States the result of a parse in terms of the grammar of `httparse` alone (RFC 9112, sections 2 to 5). If the first 8,192
/// bytes begin with a head, it is judged. If they don't, but more bytes can make one or they end in a target, they are
/// unfinished. Otherwise they are BadHead.
pub fn grammar_law()
    ensures heads { HeadsAreJudged }
    ensures parts { PartsAreUnfinished }
    ensures others { OthersAreBad }
{}

/// States that the first bytes of a response show whether it is one with media.
pub fn media_law()
    ensures media { MediaIsTold }
    ensures others { OthersAreTold }
{}
