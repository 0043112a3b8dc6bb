//! Why a text is no playlist.
use thiserror::Error;

/// The reason that bytes are no playlist: the first of these that applies.
#[derive(Clone, Copy, Debug, Error)]
pub enum ReadFault {
    /// They aren't UTF-8, or don't begin with the line `#EXTM3U` (section 4.4.1.1).
    #[error("NotPlaylist")]
    NotPlaylist,
    /// A line isn't allowed in its place: the number of the first one, from 1. If the text ends too early, it is that of the line after the last.
    #[error("BadLine {line}")]
    BadLine {
        /// The number of the line.
        line: u64,
    },
    /// Out of memory.
    #[error("Memory")]
    Memory,
}
