//! The connections of a script: the bytes that come on each, the requests in these, and the answers that are sent.
#![tactic(auto)]

mod connections;
mod laws;
mod open;
mod sent;

pub use connections::Connections;
pub use laws::{pieces_law, talk_law};
pub use sent::Sent;
