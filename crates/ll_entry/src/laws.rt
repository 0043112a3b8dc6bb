//! Facts of the definitions, proved; none of these functions does anything.
ghost use Rattle.ll_entry.specs.Blank.{BlankLaw};
ghost use Rattle.ll_entry.specs.ItemLaws.{ItemLaw, SettingsLaw};
ghost use Rattle.ll_entry.specs.Laws.{EntryLaw};
ghost use Rattle.ll_entry.specs.Leads.{ChunkLaw, EntryNextLaw, FirstChunkLaw, NextLaw, NothingLaw};
ghost use Rattle.ll_entry.specs.Writable.{ItemWritableLaw};

/// States that the line of an item is read as that item, and is one line: no CR or LF is in it.
pub fn item_law()
    ensures { ItemLaw }
{}

/// States that the line of settings is read as those settings, and is one line: no CR or LF is in it.
pub fn settings_law()
    ensures { SettingsLaw }
{}

/// States that the line of an entry, as it is written, is read as that entry with zeros in place of bytes, is one line, and isn't the last
/// line of a chunk.
pub fn entry_law()
    ensures { EntryLaw }
{}

/// States that the bytes of items don't matter to whether an entry is right: a record with the number of bytes alone can be checked.
pub fn blank_law()
    ensures { BlankLaw }
{}

/// States that an empty list of lines leads from the events of a channel to the same events.
pub fn nothing_law()
    ensures { NothingLaw }
{}

/// States that lines that lead from some events to others, and one more line that is right after those, lead to the events with its own.
pub fn next_law()
    ensures { NextLaw }
{}

/// States that lines that lead from some events to others, and the line of an entry that is right after those, lead to the events with that
/// of the entry.
pub fn entry_next_law()
    ensures { EntryNextLaw }
{}

/// States that a chunk that goes on with a chain, of lines that lead from the chain's events to others, is found right, and that the check
/// goes on with those.
pub fn chunk_law()
    ensures { ChunkLaw }
{}

/// States that a chunk with no entries before it is found right after any chains of its channel: it begins another, with the events that
/// its lines lead to.
pub fn first_chunk_law()
    ensures { FirstChunkLaw }
{}

/// States that an item that a channel accepts can be written on a line of its own: its duration is below 2^64, its ID is on one line, and
/// its attributes are read again with the ID in front of them.
pub fn item_writable_law()
    ensures { ItemWritableLaw }
{}
