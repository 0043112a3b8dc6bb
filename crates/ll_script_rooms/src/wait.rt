//! A request that waits, without the value that stands for it.
use crate::owner::Owner;

/// A request that waits, known by its channel and ticket.
#[derive(Clone, Copy)]
pub struct Wait {
    /// The recipient of its reply.
    pub owner: Owner,
    /// The place of its channel among the channels, from 0.
    pub place: usize,
    /// The number of the request among all requests of its channel, from 1.
    pub ticket: u64,
}
