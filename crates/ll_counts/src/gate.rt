//! The gate that is called before each answer is sent, and by which connections report what they get.
use ll_item::Item;
use ll_publish::{Refusal, Success};
use ll_wire::Answer;

/// A gate that is called before each answer is sent, and an observer of what connections get. Channels are given by their places. Only
/// `before_answer` has to be written: the other calls do nothing by default.
pub trait Gate {
    /// Is called before an answer is sent; `call` is its number on its connection, from 1.
    fn before_answer(&self, call: u64);

    /// Is called when a player's request of a channel has its answer.
    fn answered(&self, _channel: usize, _answer: &Answer) {}

    /// Is called when a player's request of a channel begins to wait.
    fn held(&self, _channel: usize) {}

    /// Is called when such a request no longer waits: it has its reply, or was closed.
    fn freed(&self, _channel: usize) {}

    /// Is called when a publisher's item for a channel was accepted, or was refused for a reason.
    fn published(&self, _channel: usize, _told: Result<&Item, Refusal>) {}

    /// Is called when a publisher's line has given the secret of a channel.
    fn opened(&self, _channel: usize) {}

    /// Is called when a publisher's line has its answer, after the calls above.
    fn told(&self, _told: &Result<Success, Refusal>) {}

    /// Is called when the record of a channel was full, and is handed out.
    fn filled(&self, _channel: usize) {}

    /// Is called when a publisher's connection begins to be served.
    fn joined(&self) {}

    /// Is called when such a connection has ended.
    fn left(&self) {}
}
