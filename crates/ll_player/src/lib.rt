//! A player's connection: which requests its bytes hold, what each is answered, and in which steps.
#![tactic(auto)]

mod answering;
mod asking;
mod connection;
mod held;
mod laws;
mod mode;
mod player;
mod sending;

pub use connection::{Connection, Step};
pub use laws::{connection_law, conversation_law};
pub use player::serve;
