//! Reads and writes Media Playlists and Playlist Delta Updates of this profile. Sections are those of draft-pantos-hls-rfc8216bis.
#![tactic(auto)]

mod draft;
mod fault;
mod laws;
mod outline;
mod playlist;
mod reading;
mod shape;
mod writing;

pub use fault::ReadFault;
pub use laws::{read_is_readable_law, reads_back_law, spelled_again_law};
pub use ll_line::DateRange;
pub use outline::{Outline, read_outline};
pub use playlist::{Block, Finished, Header, PartLine, Playlist, Report, Skip};
pub use reading::read;
