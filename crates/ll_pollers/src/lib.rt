//! The threads that serve players: pollers, each of which serves many.
#![tactic(auto)]

mod bells;
mod hall;
mod player;
mod poller;
mod talk;

pub use bells::Bells;
pub use hall::{Hall, share_out};
pub use talk::{Arrivals, Phase, Talk};
