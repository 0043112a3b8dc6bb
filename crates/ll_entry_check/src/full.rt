//! An entry in full.
use ll_directive::Want;
use ll_verdict::Outcome;

/// An entry in full, without its item: its reply has the whole outcome, whatever the format of its line keeps of that.
#[derive(Drop)]
pub enum FullEntry {
    /// An item that was accepted.
    Publish,
    /// A request, with its number, from 1, and its outcome at once; `None` if it was held.
    Ask(u64, Want, Option<Outcome>),
    /// A reading of the clock, in milliseconds.
    Clock(u64),
    /// A reply that was handed out, with the number of its request and its outcome.
    Collect(u64, Outcome),
    /// The close of the request with this number.
    Close(u64),
}
