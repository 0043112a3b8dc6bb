//! What is kept of a channel's items, without its requests: what playlists show now, their texts, and the media for players. Sections are those of
//! draft-pantos-hls-rfc8216bis.
#![tactic(auto)]

mod accept;
mod here;
mod presentation;

pub use presentation::Presentation;
