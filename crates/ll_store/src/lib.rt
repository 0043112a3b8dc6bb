//! The bytes of segments, parts and Media Initialization Sections that a rendition keeps for requests, until their segment leaves the window.
#![tactic(auto)]

mod arrival;
mod blocks;
mod brought;
mod find;
mod laws;
mod segment;
mod store;
mod stores;

pub use arrival::Arrival;
pub use blocks::{Blocks, Found};
pub use brought::Brought;
pub use laws::store_law;
pub use store::Store;
pub use stores::{arrive, expect, find_at, new_stores};
