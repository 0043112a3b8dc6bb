//! Runs a server: its threads, its clock, and the lines of its log.
#![tactic(auto)]

mod clock;
mod log_lines;
mod server;
mod watch;

pub use server::serve;
