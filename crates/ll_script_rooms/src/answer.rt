//! The answers to the acts of a script.
use crate::owner::Owner;
use ll_verdict::{ClockFault, PublishFault, Reply};

/// What ran out of memory while a request was made.
#[derive(Clone, Copy)]
pub enum AskStop {
    /// The request in its channel; nothing has changed.
    Request,
    /// The entry of its owner; the request was closed.
    Place,
}

/// The answer to one act of a script.
#[derive(Drop)]
pub enum ActAnswer {
    /// An item was accepted; the number of items that the channel has accepted, this one included.
    Accepted(u64),
    /// An item was refused.
    Refused(PublishFault),
    /// A reading of the clock was refused.
    ClockRefused(ClockFault),
    /// The reply to the owner's request.
    Replied(Owner, Reply),
    /// The owner's request can't be made, because its channel takes no more events.
    Unavailable(Owner),
}
