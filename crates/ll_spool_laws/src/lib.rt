//! Laws of the text of a channel's spool, each the contract of an empty function.
#![tactic(auto)]

ghost use Rattle.ll_spool_laws.specs.Laws.{BytesLaw, CutLaw, RestartLaw, SpoolLaw, StoredLaw};
ghost use Rattle.ll_spool_laws.specs.Worked.{WorkedSpool};

/// States that the text of a spool is read as the items of its lines, with zeros in place of their bytes, if these can be read again and their texts are UTF-8.
pub fn spool_law()
    ensures { SpoolLaw }
{}

/// States that a spool's text that was cut off anywhere is read as the items of its whole lines: a last line without its end is dropped, and no other.
pub fn cut_law()
    ensures { CutLaw }
{}

/// States that a start publishes of the spool of a channel, which has the items that the channel has accepted, the items of the lines that are whole, that
/// each of them is accepted again, and that all texts are then what they were after these items.
pub fn restart_law()
    ensures { RestartLaw }
{}

/// States that such a start publishes, of all bytes that are kept of the items of whole lines, those of the item itself, if the files have them: those
/// that have kept the items do.
pub fn bytes_law()
    ensures same { BytesLaw }
    ensures stored { StoredLaw }
{}

/// States the values of the definitions at a worked example.
pub fn worked_spool()
    ensures { WorkedSpool }
{}
