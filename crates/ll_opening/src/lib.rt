//! The start of a server: publishes the items of its spools again, and opens its ports.
#![tactic(auto)]

mod doors;
mod restoring;
mod status;
mod stop;

pub use doors::{Doors, IDLE, Listeners};
pub use restoring::{Spools, restore_all};
pub use status::serve_status;
pub use stop::Stop;
