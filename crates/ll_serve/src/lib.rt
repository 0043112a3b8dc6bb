//! The threads that serve publishers, and whole connections: workers, each of which serves one connection at a time; and pollers on a hub, each
//! of which serves many players.
#![tactic(auto)]

mod links;
mod players;
mod serve;

pub use links::serve_links;
pub use ll_device::{Link, Role, Source, TryLink};
pub use ll_hub::Bell;
pub use ll_notes::{Addressed, Notes};
pub use ll_pollers::Bells;
pub use ll_service::{Gate, LinkFault, Service, SpoolLocks};
pub use players::{HubBell, serve_players};
pub use serve::{serve_link, serve_link_within};
