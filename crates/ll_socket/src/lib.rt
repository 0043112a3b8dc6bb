//! Sockets, their addresses, and where they come from.
#![tactic(auto)]

mod address;
mod connector;
mod listener;
mod socket;
mod stream;
mod unix;

pub use address::Address;
pub use connector::Connector;
pub use listener::{BindAddress, Listener};
pub use socket::Socket;
