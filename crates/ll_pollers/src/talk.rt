//! A player's connection, as a poller sees it.
use std::os::fd::RawFd;

/// What a connection waits for after a step.
#[derive(Clone, Copy, PartialEq, Eq)]
pub enum Phase {
    /// More bytes from its player.
    Idle,
    /// Nothing: more bytes have come, perhaps.
    More,
    /// The link, to take what is left of its answers.
    Unsent,
    /// The reply to its request that is held.
    Held,
    /// It has ended.
    Over,
    /// A fault has cut it off.
    Cut,
}

/// A player's connection, with what serves it. No step waits for its link or for a reply.
pub trait Talk: Drop {
    /// The type of what a poller lends to each step of its connections.
    type Lent;

    /// Returns the descriptor of its link.
    fn descriptor(&self) -> RawFd;

    /// Returns the place of the channel of its request that is held, and the request's number there; `None` if none is held.
    fn held(&self) -> Option<(usize, u64)>;

    /// Keeps those of `tickets` that are numbers of held requests of the channel at place `channel`, of any connection, and have their reply.
    fn keep_ready(&self, channel: usize, tickets: &mut Vec<u64>);

    /// Returns whether some of its answers are left to be sent.
    fn has_unsent(&self) -> bool;

    /// Returns whether its player has hung up while a request is held, which is closed then.
    fn gone(&mut self) -> bool;

    /// Reads once, and answers the whole requests that came.
    fn readable(&mut self, lent: &mut Self::Lent) -> Phase;

    /// Sends what is left of its answers, and then answers the whole requests that came.
    fn writable(&mut self, lent: &mut Self::Lent) -> Phase;

    /// Answers its request that is held, if the reply is there, and the whole requests that came after it.
    fn ready(&mut self, lent: &mut Self::Lent) -> Phase;
}

/// Where connections come from, one after another.
pub trait Arrivals<T> {
    /// Returns the next connection, or `None` if no more come.
    fn next(&mut self) -> Option<T>;
}
