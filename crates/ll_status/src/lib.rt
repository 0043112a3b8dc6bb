//! The port for whoever watches a server: its numbers and the health of its channels over HTTP, on one thread. No contract speaks of it.
#![tactic(auto)]

mod answer;
mod peer;
mod port;

pub use port::StatusPort;
