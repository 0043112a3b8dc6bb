//! Requests that had to wait.
use crate::reply::Settled;
use crate::wanted::Wanted;

/// A request that had to wait.
#[derive(Clone, Copy, PartialEq, Eq)]
pub struct Entry {
    /// Its number among the requests of its channel, from 1.
    pub ticket: u64,
    /// What it asks for.
    pub wanted: Wanted,
    /// The number of items that the channel had accepted when it was made.
    pub seen: u64,
    /// The channel's time at which it times out, in milliseconds.
    pub deadline: u64,
}

/// A request that is open: it waits, or has its reply.
#[derive(Drop)]
pub struct Slot {
    /// The request.
    pub entry: Entry,
    /// Its reply, or `None` while it waits.
    pub settled: Option<Settled>,
}
