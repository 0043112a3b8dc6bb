//! What the program does when it is called, but for what needs threads.
#![tactic(auto)]

mod calendar;
mod commands;
mod failing;
mod input;
mod multivariant;
mod push;
mod words;

pub use commands::{Exit, called};
pub use push::publish_job;
