//! Laws of the parts and segments that are published of an encoder's stream. Each is proved once, as the contract of an empty function; none of these
//! does anything.
#![tactic(auto)]

ghost use Rattle.ll_part_laws.specs.Laws.{PartsAreMade};
ghost use Rattle.ll_part_laws.specs.Published.{SegmentsFit};
ghost use Rattle.ll_part_laws.specs.Worked.{WorkedParts};

/// States of what the pieces of an encoder's stream are made if parts wait for the fragment after them: of its fragments, in the order in which they
/// came. None is lost, except the units of a movie that has no fragment of its governing track. Each fragment begins at its own decode time,
/// durations never drift from that, and times continue from the end of the rendition. A part is full if its segment goes on. A segment begins with a
/// sync sample unless the one before it would have been too long, is long enough unless it would itself have been too long, and is no longer than
/// allowed. A break comes only when it is due.
pub fn parts_law()
    ensures { PartsAreMade }
{}

/// States what holds of the pieces by themselves if parts wait for the fragment after them: a segment's parts together are no longer than allowed,
/// and it begins independent unless the one before it had to be cut.
pub fn segments_law()
    ensures { SegmentsFit }
{}

/// States the values of the definitions at a worked example.
pub fn worked_parts()
    ensures { WorkedParts }
{}
