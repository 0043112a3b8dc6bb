//! What connections are served with, and why one is ended.
#![tactic(auto)]

mod fault;
mod passes;
mod service;
mod turn;

pub use fault::LinkFault;
pub use ll_counts::Gate;
pub use passes::seats;
pub use service::{HandedOut, Service};
pub use turn::{Settled, SpoolLocks, Turn};
