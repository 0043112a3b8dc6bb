//! Publishes an encoder's output at several origins at once, and shows how that goes on.
#![tactic(auto)]

mod board;
mod connections;
mod meter;
mod origins;
mod survey;

pub use meter::{Meter, millis};
pub use origins::{Job, publish_at_all};
