//! Many channels, each under its own lock, and what their callers get, whatever other threads call between: by one history that all share.
#![tactic(auto)]

mod bell;
mod claim;
mod hub;
mod lock;
mod locks;
mod pass;
mod totals;
mod waiting;

pub use bell::Bell;
pub use claim::Claim;
pub use hub::{Hub, HubAsked, Waited};
pub use ll_history::Past;
pub use ll_hub_channel::{HubFault, RoomFault, Total};
pub use ll_ledger::{Blanks, Clock, Ledgers, Named};
pub use ll_record::Sink;
pub use pass::Pass;
pub use totals::Totals;
