//! Delta updates, applied to earlier playlists (section 6.2.5.1 of draft-pantos-hls-rfc8216bis).
#![tactic(auto)]

mod applying;
mod fault;
mod found;
mod laws;
mod missing;
mod ranges;
mod segments;

pub use applying::apply;
pub use fault::ApplyFault;
pub use laws::{not_recent_law, worked_update};
pub use ll_read::{Playlist, ReadFault, read};
