//! Laws across crates, about what is published, written, read and applied, each the contract of an empty function. Sections are
//! those of draft-pantos-hls-rfc8216bis.
#![tactic(auto)]

ghost use Rattle.ll_laws.specs.Laws.{CompanionLaw, OwnSegmentLaw, ReadableLaw, TextLaw};
ghost use Rattle.ll_laws.specs.Pushed.{AcceptedLaw, NotKeptLaw, PiecesLaw, PushedLaw, RefusedLaw, StandingLaw};
ghost use Rattle.ll_laws.specs.Worked.{WorkedPlaylists};

/// States the promise to players, on texts: the text of a delta update, applied to the text of a full playlist of the same
/// rendition that is not older than the Skip Boundary, is the text of the full playlist of the update's own moment (section
/// 6.2.5.1). `ll_apply::apply` returns exactly this text.
pub fn text_law()
    ensures { TextLaw }
{}

/// States the same of playlists as values: a delta update, applied to a full playlist of the same rendition that is not older
/// than the Skip Boundary, is the full playlist of the update's own moment (section 6.2.5.1).
pub fn companion_law()
    ensures { CompanionLaw }
{}

/// States that a delta update that skips segments has a segment of its own: the last one of a window is never skipped, because
/// the parts of an open segment last less than the Skip Boundary.
pub fn own_segment_law()
    ensures { OwnSegmentLaw }
{}

/// States that full playlists and delta updates of published items can be read back from their texts: numbers are within bounds,
/// texts are where they are allowed, MAP lines where they are required, and no two date ranges have the same ID.
pub fn readable_law()
    ensures { ReadableLaw }
{}

/// States that an origin reads what `llhls push` sends of an encoder's bytes as the items of their pieces, each with exactly its bytes, and
/// then the end of the rendition if that is sent (`input`). The messages of some pieces are read so whatever bytes follow (`pieces`).
pub fn pushed_law()
    ensures pieces { PiecesLaw }
    ensures input { PushedLaw }
{}

/// States that `llhls push` reads each line that answers a publisher as what it is: an acceptance if the item is accepted, also if it says that
/// the item isn't kept, a refusal for each reason that an origin has, and the standing of a rendition as the line says it.
pub fn answered_law()
    ensures accepted { AcceptedLaw }
    ensures not_kept { NotKeptLaw }
    ensures refused { RefusedLaw }
    ensures standing { StandingLaw }
{}

/// States what the definitions say of small streams: the whole texts of seven playlists and of four delta updates, byte for byte.
pub fn worked_playlists()
    ensures { WorkedPlaylists }
{}
