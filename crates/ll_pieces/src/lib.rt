//! Pieces of playlists: the lines of one segment, written once, and views, which playlists are written of. Sections are those of
//! draft-pantos-hls-rfc8216bis-13.
#![tactic(auto)]

mod piece;
mod pieces;
mod segment_lines;
mod view;

pub use pieces::{Pieces, Rendered};
pub use view::View;
