//! The laws of cutters, the contracts of empty functions.
ghost use Rattle.ll_parts.specs.Laws.{BytesCome, EndComes, PartsFit, PieceIsFirst, SegmentsFit, UnitsCome};

/// States that the pieces and the fault still to come of an encoder's stream are the same in whatever pieces its bytes come: bytes that are fed, a
/// piece that is taken, a unit that is taken and the end change nothing of it but what they take. No part of a stream is longer than its `Lengths`
/// allow, nor is a segment if each fragment is a part.
pub fn cutter_law()
    ensures bytes { BytesCome }
    ensures pieces { PieceIsFirst }
    ensures units { UnitsCome }
    ensures end { EndComes }
    ensures parts { PartsFit }
    ensures segments { SegmentsFit }
{}
