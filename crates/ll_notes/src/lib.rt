//! What becomes of publishers' connections, as lines of the log. No contract speaks of it.
#![tactic(auto)]

mod note;
mod noted_gate;
mod notes;
mod remote;

pub use note::EndReason;
pub use noted_gate::NotedGate;
pub use notes::{Notes, time_of_day};
pub use remote::{Addressed, Remote};
