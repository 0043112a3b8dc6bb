//! A channel whose events are recorded: each accepted item, request and reading, each reply that is handed out and each request that is
//! closed has a line. These lines are handed out in chunks, which a check finds right on any machine.
#![tactic(auto)]

mod calls;
mod chunk;
mod lines;
mod recorder;
mod settle;
mod sink;

pub use chunk::Chunk;
pub use recorder::Recorder;
pub use sink::Sink;
