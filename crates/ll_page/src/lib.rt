//! Media Playlists and delta updates: their texts, written of what is kept of a channel's items. Sections are those of
//! draft-pantos-hls-rfc8216bis-13.
#![tactic(auto)]

mod page;
mod playlist;
mod shown;

pub use ll_item::SkipKind;
pub use ll_rendition::Rendition;
pub use page::Page;
pub use playlist::{delta, full};
pub use shown::Shown;
