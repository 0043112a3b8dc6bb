//! How a run of a script ended.
use thiserror::Error;

/// The counts of a script, each of which stays at 2^64 - 1 once it is there.
#[derive(Clone, Copy, Debug, PartialEq, Eq)]
pub struct RunSummary {
    /// The accepted items, requests, closes and readings of the clock, in all channels.
    pub events: u64,
    /// The replies written.
    pub replies: u64,
}

/// Why a run ended before the end of its script.
#[derive(Clone, Copy, Debug, PartialEq, Eq, Error)]
pub enum RunFault {
    /// A read failed.
    #[error("Read")]
    Read,
    /// A write failed.
    #[error("Write")]
    Write,
    /// A line that no script has in this place.
    #[error("BadLine {line}")]
    BadLine {
        /// Its number, from 1.
        line: u64,
    },
    /// A line of more than 65,536 bytes, without its end.
    #[error("LineTooLong {line}")]
    LineTooLong {
        /// Its number, from 1.
        line: u64,
    },
    /// The reader wasn't at its end after the largest number of reads: 2^32, or fewer as `run_within` is passed.
    #[error("Endless")]
    Endless,
    /// Out of memory for a channel, for bytes of a connection, for keeping whose request waits, or for the text of an answer. An item or a
    /// request that is out of memory is answered so, and the run goes on.
    #[error("Memory")]
    Memory,
}
