//! Multivariant Playlists (section 4.4.6 of draft-pantos-hls-rfc8216bis): how fast renditions are, and the text that names them.
#![tactic(auto)]

mod codecs;
mod lines;
mod playlist;
mod rates;
mod segments;
mod stream;

pub use playlist::playlist_text;
pub use rates::{Rates, rates_of};
pub use segments::{Addition, Size, finished_segments};
pub use stream::{Stream, VariantFault};
