//! The laws of moved boxes and worked examples, the contracts of empty functions.
ghost use Rattle.ll_shift.specs.Laws.{NothingMoves, OneAfterAnother, OthersStand, SizesAreTold};
ghost use Rattle.ll_shift.specs.Plain.{OnlyTimesChange};
ghost use Rattle.ll_shift.specs.Worked.{WorkedMoves};

/// States what moving does to boxes. Each is moved by itself, whatever comes before or after it. Boxes without times, such as those with samples,
/// stay unchanged and in their order. Only times change, and the sizes and offsets that depend on how many bytes the times take. Every box that is
/// written states its own size. If a run begins at 0 in a rendition that ends at 0, indexes of segments and fragments are left out, and nothing else
/// changes.
pub fn moved_law()
    ensures runs { OneAfterAnother }
    ensures others { OthersStand }
    ensures times { OnlyTimesChange }
    ensures sizes { SizesAreTold }
    ensures still { NothingMoves }
{}

/// States the values of the definitions at worked examples.
pub fn worked_moves()
    ensures { WorkedMoves }
{}
