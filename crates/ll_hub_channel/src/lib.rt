//! What lies under a channel's lock: its recorder, and the values that stand for its open requests; and what its callers get.
#![tactic(auto)]

mod channel;
mod fault;
mod same;
mod total;

pub use channel::{AtOnce, Channel, Known, Tried};
pub use fault::{HubFault, RoomFault};
pub use total::Total;
