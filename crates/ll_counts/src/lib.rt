//! What connections report as they are served, and the numbers that a server counts of it. No contract speaks of the numbers.
#![tactic(auto)]

mod counter;
mod counts;
mod gate;
mod metrics;
mod numbers;
mod pulse;

pub use gate::Gate;
pub use numbers::{Health, Numbers};
pub use pulse::bytes_of;
