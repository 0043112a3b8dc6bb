//! What the lines of a record say, one after another.
use ll_entry::Version;
use ll_entry_check::FullEntry;

/// What the next lines of a record say, if they are right.
#[derive(Drop)]
pub enum Told<'a> {
    /// The beginning of a chunk, with its settings line and the number of its chain's entries before it.
    Begun(&'a str, u64),
    /// An entry: the format of its line, the line, and the entry in full.
    Entry(Version, &'a str, FullEntry),
    /// The last line of a chunk.
    Ended,
}
