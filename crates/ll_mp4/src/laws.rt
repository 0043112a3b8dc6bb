//! The laws of splitters and worked examples, the contracts of empty functions.
ghost use Rattle.ll_mp4.specs.Laws.{FewAreKept, FrontIsFirst, FrontStays, NothingIsLost, WholeStreams};
ghost use Rattle.ll_mp4.specs.Worked.{WorkedStream};

/// States what holds after any calls, in any order. The units that were given and those still to come are those of all bytes together, in whatever
/// pieces they came, and so is the fault that ends them; a unit or a fault at the front is the first, whatever comes later. The units that were
/// given, and then what is left, are the bytes that came, in their order, except for the `mfra` boxes at the front of units. While no unit can be
/// given, at most 1,048,591 bytes are left.
pub fn splitter_law()
    ensures streams { WholeStreams }
    ensures first { FrontIsFirst }
    ensures stays { FrontStays }
    ensures bytes { NothingIsLost }
    ensures few_kept { FewAreKept }
{}

/// States the values of the definitions at worked examples.
pub fn worked_stream()
    ensures { WorkedStream }
{}
