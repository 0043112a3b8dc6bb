//! What the channels and the callers of a hub keep together: one history of all that was done, and the counts of published items and of requests,
//! which are kept twice, by the channels and by the passes with which they were made. The two agree.
#![tactic(auto)]

mod channel;
mod clock;
mod counts;
mod ledgers;
mod seats;
mod tally;

pub use channel::CountedChannel;
pub use clock::Clock;
pub use counts::Counts;
pub use ledgers::{Asks, Blanks, ChannelCounts, Ledgers, Opened, PassCounts, Publishes};
pub use ll_history::Named;
pub use seats::Seats;
pub use tally::Tally;
