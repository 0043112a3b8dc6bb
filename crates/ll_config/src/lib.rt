//! A server's settings file.
#![tactic(auto)]

mod config;
mod door;
mod fault;
mod hosted;
mod lines;

pub use config::{Config, Workers};
pub use door::Door;
pub use fault::ConfigFault;
pub use hosted::{CHANNELS, Hosted};
