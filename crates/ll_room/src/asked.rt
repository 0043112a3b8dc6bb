//! The results of the calls of a room for requests.
use crate::parked::Parked;
use crate::stamped::Stamped;
use ll_verdict::Reply;

/// The result of making a request.
pub enum Asked {
    /// The request's reply.
    Now(Stamped<Reply>),
    /// The request is held: its reply comes with a later event.
    Held(Parked),
}

/// The result of asking for the reply to a held request.
pub enum Collected {
    /// The request's reply.
    Got(Stamped<Reply>),
    /// The request is still held: nothing has happened.
    Still(Parked),
    /// The request isn't held in this room: nothing has happened.
    Stranger(Parked),
}

/// The result of closing a held request.
pub enum Closed {
    /// The request gets no reply.
    Done,
    /// The request isn't held in this room: nothing has happened.
    Stranger(Parked),
}
