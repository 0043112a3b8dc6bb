//! The history of a hub: what was done to its channels, in one order that all threads share. It exists in proofs alone. What stands in memory is a
//! number for each channel, which counts its deeds, and which its lock guards.
#![tactic(auto)]

mod blank;
mod channel;
mod deed;
mod draft;
mod law;
mod names;
mod past;

pub use blank::{BlankHistory, Places};
pub use channel::ChannelHistory;
pub use deed::{Deed, Logged};
pub use draft::Draft;
pub use names::Named;
pub use past::Past;
